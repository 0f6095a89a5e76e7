//! What the lines above the tree say: the head, the number of branchings, the runs.

ghost use Rattle.std.specs.Prelude.{◌≡◌, ◌==◌, ◌-◌, [], length, if◌then◌else◌, Some, None, IfOk, option_map};
ghost use Rattle.answer_text.specs.Numbers.{number_in};
ghost use Rattle.answer_text.specs.Pieces.{words_after, words_of};
ghost use Rattle.answer_text.specs.ReadLines.{bounded_in, bounded_plan_in, branchings_in, head_in, next_is, optimal_in};
ghost use Rattle.answer_text.specs.ReadLines.{run_in, units_in};

use crate::answer::Head;
use crate::numbers::{next_amount, next_number, number_in};
use crate::pieces::{first_piece, is_end, next_piece};
use rail_base::limits::{MAX_BRANCHINGS, MAX_COMPOSITION_UNITS, MAX_TRIPS, MAX_UNITS};
use rail_base::{Money, NoMemory, UnitNo};
use rail_csv::UnitList;
use std::alloc::Global;

/// What a line says of the day, where it is a head line.
#[tactic(auto, unfolding(crate::specs::ReadLines::head_in, crate::specs::Numbers::at_end))]
pub(crate) fn head_in(line: &[u8]) -> Option<Head>
    ensures { result ≡ head_in (words_of line.now) }
{
    let (word, rest) = first_piece(b' ', line);
    if word == b"optimal".as_slice() {
        return optimal_in(rest);
    }
    if word == b"infeasible".as_slice() {
        return at_end(rest, Head::Infeasible);
    }
    if word == b"bounded".as_slice() {
        return bounded_in(rest);
    }
    None
}

/// The words after `optimal`.
#[tactic(auto, unfolding(crate::specs::ReadLines::optimal_in, crate::specs::Numbers::at_end))]
fn optimal_in(rest: &[u8]) -> Option<Head>
    ensures { result ≡ optimal_in (words_after rest.now) }
{
    let (cost, rest) = next_amount(rest)?;
    at_end(rest, Head::Optimal { cost })
}

/// The words after `bounded`.
#[tactic(auto, unfolding(crate::specs::ReadLines::bounded_in))]
fn bounded_in(rest: &[u8]) -> Option<Head>
    ensures { result ≡ bounded_in (words_after rest.now) }
{
    let (bound, rest) = next_amount(rest)?;
    if is_end(b' ', rest) {
        return Some(Head::Bounded { bound });
    }
    bounded_plan_in(bound, rest)
}

/// The words after the bound of an answer that has a plan.
#[tactic(auto, unfolding(crate::specs::ReadLines::bounded_plan_in, crate::specs::Numbers::at_end))]
fn bounded_plan_in(bound: Money, rest: &[u8]) -> Option<Head>
    ensures { result ≡ bounded_plan_in bound.0 (words_after rest.now) }
{
    let rest = next_is(b"plan", rest)?;
    let (cost, rest) = next_amount(rest)?;
    at_end(rest, Head::BoundedPlan { bound, cost })
}

/// The number of branchings, where a line says it.
#[tactic(auto, unfolding(crate::specs::ReadLines::branchings_in, crate::specs::Numbers::at_end))]
pub(crate) fn branchings_in(line: &[u8]) -> Option<u32>
    ensures { result ≡ branchings_in (words_of line.now) }
{
    let rest = first_is(b"branchings", line)?;
    let (branchings, rest) = next_number(rest, MAX_BRANCHINGS)?;
    if !is_end(b' ', rest) {
        return None;
    }
    Some(branchings)
}

/// The units of a trip, where a line says them.
#[tactic(auto, unfolding(crate::specs::ReadLines::run_in))]
pub(crate) fn run_in(alloc: Global, trip: usize, line: &[u8]) -> Result<Option<UnitList>, NoMemory>
    ensures { IfOk result (λ units. units ≡ run_in trip (words_of line.now)) }
{
    let Some(rest) = first_is(b"run", line) else {
        return Ok(None);
    };
    let Some((number, rest)) = next_number(rest, MAX_TRIPS as u32) else {
        return Ok(None);
    };
    if number as usize != trip {
        return Ok(None);
    }
    units_in(alloc, rest)
}

/// At most six units, one a word, to the end of a line.
fn units_in(alloc: Global, rest: &[u8]) -> Result<Option<UnitList>, NoMemory>
    ensures { IfOk result (λ units. units ≡ units_in MAX_COMPOSITION_UNITS [] (words_after rest.now)) }
{
    let mut units = Vec::new(alloc);
    let mut rest = rest;
    while let Some((word, after)) = next_piece(b' ', rest) {
        if units.len() == MAX_COMPOSITION_UNITS {
            return Ok(None);
        }
        let Some(unit) = unit_in(word) else {
            return Ok(None);
        };
        units.push(unit)?;
        rest = after;
    }
    Ok(Some(UnitList::of(units)))
}

/// The unit that a word names by its number.
fn unit_in(word: &[u8]) -> Option<UnitNo>
    ensures { result ≡ number_in (MAX_UNITS - 1) word.now }
{
    let number = number_in(word, u128::from(MAX_UNITS - 1))?;
    Some(UnitNo(number as u32))
}

/// What follows the first word of a line, where it is this one.
#[tactic(auto, unfolding(crate::specs::ReadLines::next_is))]
pub(crate) fn first_is<'a>(wanted: &[u8], line: &'a [u8]) -> Option<&'a [u8]>
    ensures { option_map (λ rest. words_after rest.now) result ≡ next_is wanted.now (words_of line.now) }
{
    let (word, rest) = first_piece(b' ', line);
    if word != wanted {
        return None;
    }
    Some(rest)
}

/// What follows the next word, where it is this one.
#[tactic(auto, unfolding(crate::specs::ReadLines::next_is))]
fn next_is<'a>(wanted: &[u8], rest: &'a [u8]) -> Option<&'a [u8]>
    ensures { option_map (λ after. words_after after.now) result ≡ next_is wanted.now (words_after rest.now) }
{
    let (word, after) = next_piece(b' ', rest)?;
    if word != wanted {
        return None;
    }
    Some(after)
}

/// A head, where no word is left.
fn at_end(rest: &[u8], head: Head) -> Option<Head>
    ensures { result ≡ if length (words_after rest.now) == 0 then Some head else None }
{
    if is_end(b' ', rest) { Some(head) } else { None }
}
