//! What the node lines say.

ghost use Rattle.std.specs.Prelude.{◌≡◌, ◌≢◌, ◌<◌, ◌≤◌, [], ◌∷◌, ◌++◌, length, pos, unsigned_abs, IfOk, option_map};
ghost use Rattle.answer_text.specs.Pieces.{pieces, words_after, words_of};
ghost use Rattle.answer_text.specs.ReadLines.{AreBelow, cost_in, counted_in, empty_in, entries_in, entry_in, most_in};
ghost use Rattle.answer_text.specs.ReadLines.{next_entry, node_in, only_in, ray_in};
ghost use Rattle.rail_base.specs.Times.{colon};
ghost use Rattle.rail_base.specs.declared.limits.TheConstants.{MAX_MULTIPLIER};

use crate::limits::MAX_INDEX;
use crate::numbers::{next_amount, next_number, number_in, value_in};
use crate::pieces::{first_piece, is_end, next_piece};
use branch_tree::{Cut, Entry, Multipliers, Node};
use rail_base::limits::{
    MAX_COMPOSITION_UNITS, MAX_COMPOSITIONS, MAX_ENTRIES, MAX_TRIPS, MAX_TYPES,
};
use rail_base::{CompNo, NoMemory, TripNo, TypeNo};
use std::alloc::Global;

/// The node that a line says, where it is a node line. The error is want of memory.
#[tactic(auto, unfolding(crate::specs::ReadLines::node_in))]
pub(crate) fn node_in(alloc: Global, line: &[u8]) -> Result<Option<Node>, NoMemory>
    ensures { IfOk result (λ node. node ≡ node_in (words_of line.now)) }
{
    let (word, rest) = first_piece(b' ', line);
    if word == b"only".as_slice() {
        return Ok(only_in(rest));
    }
    if word == b"most".as_slice() {
        return Ok(most_in(rest));
    }
    if word == b"cost".as_slice() {
        return cost_in(alloc, rest);
    }
    if word == b"ray".as_slice() {
        return ray_in(alloc, rest);
    }
    if word == b"empty".as_slice() {
        return Ok(empty_in(rest));
    }
    Ok(None)
}

/// The words after `only`.
#[tactic(auto, unfolding(crate::specs::ReadLines::only_in, crate::specs::Numbers::at_end))]
fn only_in(rest: &[u8]) -> Option<Node>
    ensures { result ≡ only_in (words_after rest.now) }
{
    let (trip, rest) = next_number(rest, MAX_TRIPS as u32 - 1)?;
    let (comp, rest) = next_number(rest, MAX_COMPOSITIONS as u32 - 1)?;
    if !is_end(b' ', rest) {
        return None;
    }
    Some(Node::Branch(Cut::Only {
        trip: TripNo(trip),
        comp: CompNo(comp),
    }))
}

/// The words after `most`.
#[tactic(auto, unfolding(crate::specs::ReadLines::most_in, crate::specs::Numbers::at_end))]
fn most_in(rest: &[u8]) -> Option<Node>
    ensures { result ≡ most_in (words_after rest.now) }
{
    let (trip, rest) = next_number(rest, MAX_TRIPS as u32 - 1)?;
    let (unit_type, rest) = next_number(rest, MAX_TYPES as u32 - 1)?;
    let (count, rest) = next_number(rest, MAX_COMPOSITION_UNITS as u32 - 1)?;
    if !is_end(b' ', rest) {
        return None;
    }
    Some(Node::Branch(Cut::AtMost {
        trip: TripNo(trip),
        unit_type: TypeNo(unit_type),
        count,
    }))
}

/// The words after `cost`.
#[tactic(auto, unfolding(crate::specs::ReadLines::cost_in))]
fn cost_in(alloc: Global, rest: &[u8]) -> Result<Option<Node>, NoMemory>
    ensures { IfOk result (λ node. node ≡ cost_in (words_after rest.now)) }
{
    let Some((bound, rest)) = next_amount(rest) else {
        return Ok(None);
    };
    let Some(multipliers) = counted_in(alloc, rest)? else {
        return Ok(None);
    };
    Ok(Some(Node::CostLeaf { bound, multipliers }))
}

/// The words after `ray`.
#[tactic(auto, unfolding(crate::specs::ReadLines::ray_in))]
fn ray_in(alloc: Global, rest: &[u8]) -> Result<Option<Node>, NoMemory>
    ensures { IfOk result (λ node. node ≡ ray_in (words_after rest.now)) }
{
    let Some(multipliers) = counted_in(alloc, rest)? else {
        return Ok(None);
    };
    Ok(Some(Node::RayLeaf { multipliers }))
}

/// The words after `empty`.
#[tactic(auto, unfolding(crate::specs::ReadLines::empty_in, crate::specs::Numbers::at_end))]
fn empty_in(rest: &[u8]) -> Option<Node>
    ensures { result ≡ empty_in (words_after rest.now) }
{
    if !is_end(b' ', rest) {
        return None;
    }
    Some(Node::EmptyLeaf)
}

/// The number of entries, and as many entries.
#[tactic(auto, unfolding(crate::specs::ReadLines::counted_in))]
fn counted_in(alloc: Global, rest: &[u8]) -> Result<Option<Multipliers>, NoMemory>
    ensures { IfOk result (λ entries. entries ≡ counted_in (words_after rest.now)) }
{
    let Some((count, rest)) = next_number(rest, MAX_ENTRIES as u32) else {
        return Ok(None);
    };
    entries_in(alloc, count, rest)
}

/// So many entries, by rising index, to the end of a line.
fn entries_in(alloc: Global, count: u32, rest: &[u8]) -> Result<Option<Multipliers>, NoMemory>
    requires { count ≤ MAX_ENTRIES }
    ensures { IfOk result (λ entries. entries ≡ entries_in count 0 [] (words_after rest.now)) }
{
    let mut entries = Multipliers::new(alloc)?;
    let mut least = 0;
    let mut rest = rest;
    for _ in 0..count {
        let Some((entry, after)) = next_entry(rest) else {
            return Ok(None);
        };
        if entry.index < least {
            return Ok(None);
        }
        add(&mut entries, entry, least);
        least = entry.index + 1;
        rest = after;
    }
    if !is_end(b' ', rest) {
        return Ok(None);
    }
    Ok(Some(entries))
}

/// Adds an entry behind others with lower indices, where there is room for it.
fn add(entries: &mut Multipliers, entry: Entry, least: u32)
    requires below { AreBelow least entries.old }
    requires rising { least ≤ entry.index }
    requires size { unsigned_abs entry.value ≤ MAX_MULTIPLIER }
    requires other { entry.value ≢ pos 0 }
    requires room { length entries.old < MAX_ENTRIES }
    ensures { entries.new ≡ entries.old ++ entry ∷ [] }
{
    let put = entries.put(entry.index, entry.value);
    prove!(put.is_ok());
}

/// The next word as an entry, and what follows it.
#[tactic(auto, unfolding(crate::specs::ReadLines::next_entry))]
fn next_entry(rest: &[u8]) -> Option<(Entry, &[u8])>
    ensures { option_map (λ x. (x.0, words_after x.1.now)) result ≡ next_entry (words_after rest.now) }
{
    let (word, rest) = next_piece(b' ', rest)?;
    let entry = entry_in(word)?;
    Some((entry, rest))
}

/// The entry that a word says: an index and a value with a colon between.
#[tactic(auto, unfolding(crate::specs::ReadLines::entry_in, crate::specs::ReadLines::entry_of))]
fn entry_in(word: &[u8]) -> Option<Entry>
    ensures { result ≡ entry_in (pieces colon word.now) }
{
    let (index, rest) = first_piece(b':', word);
    let (value, rest) = next_piece(b':', rest)?;
    if !is_end(b':', rest) {
        return None;
    }
    let index = number_in(index, u128::from(MAX_INDEX))?;
    let value = value_in(value)?;
    Some(Entry {
        index: index as u32,
        value,
    })
}
