//! A set of compositions, kept in place as one bit for each number of a composition.

ghost use Rattle.std.specs.Prelude.{ℕ, false, true, set, length, ◌≡◌, ◌<◌, ◌≤◌, ◌^◌, ◌/◌, ◌%◌, ◌==◌, slice_index};
ghost use Rattle.std.specs.Prelude.{MatchOption};
ghost use Rattle.branch_tree.specs.Sets.{is_member, set_of, size_of};

use rail_base::CompNo;
use rail_base::limits::MAX_COMPOSITIONS;
use std::marker::Model;

/// The bits of one word.
pub const WORD_BITS: usize = 64;
/// The words of one set: 1,024 bits, of which the first 1,000 are used and the others are 0.
pub const WORDS: usize = 16;

/// A set of compositions of a catalogue. A contract sees the list that says for each number of a composition whether it
/// is a member.
#[derive(Drop)]
pub struct CompositionSet {
    words: [u64; WORDS],
}

// The memory of a region is reckoned from the size of one set.
const _: () = prove!(size_of::<CompositionSet>() == 128);

impl Model for CompositionSet {
    ghost use Rattle.std.specs.Prelude.{List, Bool};

    ghost Value = { List Bool };

    ghost use Rattle.branch_tree.specs.Bits.{HasNoOther, members_of};

    ghost view = { λ a. members_of a.words };

    ghost invariant = { λ a. HasNoOther a.words };
}

impl CompositionSet {
    /// The set without members. It takes no memory.
    pub fn empty() -> CompositionSet
        ensures { result ≡ set_of (λ comp. false) }
    {
        CompositionSet { words: [0; WORDS] }
    }

    /// The same set again. It takes no memory.
    pub fn copied(&self) -> CompositionSet
        ensures { result ≡ self.now }
    {
        CompositionSet { words: self.words }
    }

    /// Whether a composition is a member. Its number is below that of the most compositions.
    pub fn has(&self, comp: CompNo) -> bool
        requires { comp < MAX_COMPOSITIONS }
        ensures { result ≡ is_member self.now comp }
    {
        let place = comp.place();
        (self.words[place / WORD_BITS] >> (place % WORD_BITS)) & 1 == 1
    }

    /// Whether a composition is a member, which none is whose number is not below that of the most compositions.
    pub fn contains(&self, comp: CompNo) -> bool
        ensures { result ≡ is_member self.now comp }
    {
        comp.0 < self.numbers() && self.has(comp)
    }

    /// Makes a composition a member. Its number is below that of the most compositions.
    pub fn insert(&mut self, comp: CompNo)
        requires { comp < MAX_COMPOSITIONS }
        ensures { self.new ≡ set self.old comp true }
    {
        let place = comp.place();
        self.words[place / WORD_BITS] |= 1 << (place % WORD_BITS);
    }

    /// Takes a composition out. Its number is below that of the most compositions.
    pub fn remove(&mut self, comp: CompNo)
        requires { comp < MAX_COMPOSITIONS }
        ensures { self.new ≡ set self.old comp false }
    {
        let place = comp.place();
        self.words[place / WORD_BITS] &= !(1 << (place % WORD_BITS));
    }

    /// How many members there are.
    pub fn size(&self) -> u32
        ensures value { result ≡ size_of self.now }
        ensures few { result ≤ MAX_COMPOSITIONS }
    {
        let mut size = 0;
        for comp in 0..self.numbers() {
            size += u32::from(self.has(CompNo(comp)));
        }
        size
    }

    /// The member of the lowest number, or nothing where there is no member.
    pub fn first(&self) -> Option<CompNo>
        ensures { MatchOption result ((comp : ℕ) → is_member self.now comp ≡ false)
            (λ first. (is_member self.now first ≡ true) ×
            ((comp : ℕ) → comp < first → is_member self.now comp ≡ false)) }
    {
        for comp in 0..self.numbers() {
            if self.has(CompNo(comp)) {
                return Some(CompNo(comp));
            }
        }
        None
    }

    /// The members as words of 64 bits: composition `p` is bit `p % 64` of word `p / 64`, and every other bit is 0.
    pub fn words(&self) -> &[u64]
        ensures length { length result.now ≡ WORDS }
        ensures numbers { length self.now ≡ MAX_COMPOSITIONS }
        ensures bits { (comp : ℕ) →
            is_member self.now comp
            ≡ (slice_index result.now (comp / WORD_BITS) / 2 ^ (comp % WORD_BITS) % 2 == 1) }
    {
        &self.words
    }

    /// For how many numbers of compositions it is kept whether they are members.
    pub(crate) fn numbers(&self) -> u32
        ensures value { result ≡ length self.now }
        ensures most { result ≡ MAX_COMPOSITIONS }
    {
        (self.words().len() * WORD_BITS).min(MAX_COMPOSITIONS) as u32
    }
}
