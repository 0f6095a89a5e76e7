//! Rows that are made by the members of a set: no other composition has a cell.
//!
//! A word of the set tells of 64 compositions at once whether they are members: words without members are passed over,
//! and no bit is looked at where all compositions are members. The lowest member and the highest one bound the range
//! that is cleared when the row is made anew.

ghost use Rattle.std.specs.Prelude.{ℕ, ◌≡◌, ◌<◌, ◌≤◌, ◌+◌, ◌*◌, ◌/◌, ◌%◌, ◌^◌, ◌==◌, Bool, None, Option, length, true};
ghost use Rattle.std.specs.Prelude.{IsTrue, slice_index};
ghost use Rattle.price_bound.specs.declared.cells.Cell.{Cell};
ghost use Rattle.price_bound.specs.CellRows.{AreWithin, IsHeld, bare, cell_in, comps_of};
ghost use Rattle.price_bound.specs.HeldValues.{no_value};
ghost use Rattle.price_bound.specs.PassValues.{value_at};
ghost use Rattle.price_bound.specs.RowValues.{AreFilled, AreMembersIn, HaveNone, IsOneStepAt, TellsAll, TellsMembers, end_cell};
ghost use Rattle.price_bound.specs.RowValues.{is_had, priced_on};
ghost use Rattle.price_bound.specs.TripAndLinkPrices.{IsForTrip};

use crate::cells::{Cell, NO_VALUE, value_of, with_priced_cost};
use crate::priced_costs::PricedCosts;
use branch_tree::sets::WORD_BITS;
use rail_base::CompNo;
use rail_base::limits::MAX_COMPOSITIONS;

/// The compositions from one on and before another.
#[derive(Clone, Copy)]
pub(crate) struct CompRange {
    /// The first of them, if there are any.
    pub begin: usize,
    /// The first that comes after them.
    pub end: usize,
}

/// What stands in the row of a trip.
pub(crate) trait RowValues {
    /// How many compositions there are.
    ghost comps: { Self → ℕ };

    /// Whether a composition is a member of the trip's set.
    ghost member: { Self → ℕ → Bool };

    /// The cell of a composition, but for where it leads.
    ghost cell: { Self → ℕ → Option Cell };

    /// Whether a cell is as small as those of the row.
    ghost IsFew: { Self → Option Cell → Type 0 };

    /// Whether the amounts are those of the trip.
    ghost are_of_trip: { Self → Type 0 };

    /// What stands in the row for a member.
    fn value(&self, comp: CompNo) -> i64
        requires are { are_of_trip self.now }
        requires comp { comp < comps self.now }
        requires member { member self.now comp ≡ true }
        ensures cell { cell_in result ≡ bare (cell self.now comp) }
        ensures held { IsHeld result }
        ensures few { IsFew self.now (cell_in result) };
}

/// What stands in the row of the last trip of a chain.
#[derive(Drop)]
pub(crate) struct EndValues<'a> {
    /// What compositions cost on the trip.
    pub priced_costs: &'a PricedCosts<'a>,
}

impl<'a> RowValues for EndValues<'a> {
    ghost comps = { λ values. comps_of (priced_on values.priced_costs.now) };

    ghost member = { λ values. is_had values.priced_costs.now };

    ghost cell = { λ values. end_cell values.priced_costs.now };

    ghost IsFew = { λ values. IsOneStepAt };

    ghost are_of_trip = { λ values. IsForTrip values.priced_costs.now };

    fn value(&self, comp: CompNo) -> i64 {
        let priced_cost = self.priced_costs.of_member(comp);
        let end = Cell {
            value: 0,
            next: CompNo(0),
        };
        let cell = with_priced_cost(priced_cost, Some(end));
        value_of(cell)
    }
}

/// Puts into a row what stands there for the members of a set, of which these are the words, where none but those of a
/// range had a value. It tells the range of the members.
pub(crate) fn put_row<V: RowValues>(
    values: &V,
    words: &[u64],
    before: CompRange,
    row: &mut [i64],
) -> CompRange
    requires are { V.are_of_trip values.now }
    requires bits { (comp : ℕ) → V.member values.now comp
        ≡ (slice_index words.now (comp / WORD_BITS) / 2 ^ (comp % WORD_BITS) % 2 == 1) }
    requires words { V.comps values.now ≤ length words.now * WORD_BITS }
    requires none { HaveNone (V.member values.now) (V.cell values.now) }
    requires few { V.IsFew values.now None }
    requires most { V.comps values.now ≤ MAX_COMPOSITIONS }
    requires row { length row.old ≡ V.comps values.now }
    requires before { AreWithin before row.old }
    ensures filled { AreFilled (V.comps values.now) (V.cell values.now) (V.IsFew values.now) (V.comps values.now)
        row.new }
    ensures within { AreWithin result row.new }
{
    if has_all(words, row.len()) {
        put_all(values, row);
        return CompRange {
            begin: 0,
            end: row.len(),
        };
    }
    clear_range(row, before);
    let mut range = CompRange {
        begin: row.len(),
        end: 0,
    };
    let used = words.len().min(row.len() / WORD_BITS + 1);
    for place in 0..used {
        put_word(values, words[place], (place * WORD_BITS) as u32, row);
        range = with_word(range, words[place], place * WORD_BITS);
    }
    CompRange {
        begin: range.begin,
        end: range.end.min(row.len()),
    }
}

/// Takes the values of a range out of a row.
pub(crate) fn clear_range(row: &mut [i64], range: CompRange)
    requires { AreWithin range row.old }
    ensures long { length row.new ≡ length row.old }
    ensures none { (comp : ℕ) → comp < length row.old → value_at row.new comp ≡ no_value }
{
    for comp in range.begin..range.end {
        row[comp] = NO_VALUE;
    }
}

/// A range that has the members besides that a word tells of, from a composition on.
fn with_word(range: CompRange, word: u64, begin: usize) -> CompRange
    requires begin { begin ≤ MAX_COMPOSITIONS }
    ensures begin { result.begin ≤ range.begin }
    ensures members { (member : ℕ → Bool) → AreMembersIn range member begin → TellsMembers member begin word
        → AreMembersIn result member (begin + WORD_BITS) }
{
    if word == 0 {
        return range;
    }
    CompRange {
        begin: range.begin.min(begin + word.trailing_zeros() as usize),
        end: begin + WORD_BITS - word.leading_zeros() as usize,
    }
}

/// True only where each composition of so many is a member of a set, of which these are the words.
fn has_all(words: &[u64], comps: usize) -> bool
    ensures { IsTrue result → TellsAll words.now comps }
{
    let mut left = comps;
    for place in 0..words.len() {
        let ones = low_ones(words[place]);
        if left <= ones {
            return true;
        }
        if ones < WORD_BITS {
            return false;
        }
        left -= WORD_BITS;
    }
    false
}

/// A number of lowest bits of a word that are all 1. A full word is seen at once.
fn low_ones(word: u64) -> usize
    ensures most { result ≤ WORD_BITS }
    ensures ones { (bit : ℕ) → bit < result → word / 2 ^ bit % 2 ≡ 1 }
{
    if word == u64::MAX {
        return WORD_BITS;
    }
    word.trailing_ones() as usize
}

/// Puts into a row what stands there for each composition, where all are members.
fn put_all<V: RowValues>(values: &V, row: &mut [i64])
    requires are { V.are_of_trip values.now }
    requires members { (comp : ℕ) → comp < V.comps values.now → V.member values.now comp ≡ true }
    requires most { V.comps values.now ≤ MAX_COMPOSITIONS }
    requires row { length row.old ≡ V.comps values.now }
    ensures { AreFilled (V.comps values.now) (V.cell values.now) (V.IsFew values.now) (V.comps values.now) row.new }
{
    for comp in 0..row.len() as u32 {
        row[comp as usize] = values.value(CompNo(comp));
    }
}

/// Puts into a row what stands there for the members that a word tells of, from a composition on.
fn put_word<V: RowValues>(values: &V, word: u64, begin: u32, row: &mut [i64])
    requires are { V.are_of_trip values.now }
    requires bits { TellsMembers (V.member values.now) begin word }
    requires none { HaveNone (V.member values.now) (V.cell values.now) }
    requires few { V.IsFew values.now None }
    requires most { V.comps values.now ≤ MAX_COMPOSITIONS }
    requires begin { begin ≤ MAX_COMPOSITIONS }
    requires row { AreFilled (V.comps values.now) (V.cell values.now) (V.IsFew values.now) begin row.old }
    ensures { AreFilled (V.comps values.now) (V.cell values.now) (V.IsFew values.now) (begin + WORD_BITS) row.new }
{
    if word == 0 {
        return;
    }
    let lowest = word.trailing_zeros();
    let end = (begin as usize + WORD_BITS - word.leading_zeros() as usize).min(row.len()) as u32;
    let mut left = word >> lowest;
    for comp in begin + lowest..end {
        if left % 2 == 1 {
            row[comp as usize] = values.value(CompNo(comp));
        }
        left /= 2;
    }
}
