//! Improvers that propose by a script and write down what they are shown.

use crate::proposals::{multipliers_of, picks_of};
use branch_tree::{Cut, Multipliers, Region, Slacks};
use improvers::{Improvement, Improver, Incumbent, Seen};
use rail_base::{CompNo, NoMemory, TripNo, TypeNo};
use std::alloc::{AllocError, Global};
use timetable::Picks;

/// A cut by the numbers in it.
#[derive(Clone, Copy)]
pub(crate) enum CutNumbers {
    /// No cut.
    None,
    /// A trip, and the composition that it has on the left side.
    Only(u32, u32),
    /// A trip, a type of units, and how many of these it has at most on the left side.
    AtMost(u32, u32, u32),
}

/// What an improver answers to a call.
#[derive(Clone, Copy)]
pub(crate) struct Call {
    /// The indices and values of the multipliers that it proposes, where there are any.
    pub(crate) puts: &'static [(u32, i64)],
    /// The composition of each trip, of all picks that it proposes.
    pub(crate) picks: &'static [&'static [u32]],
    /// The cut that it proposes.
    pub(crate) cut: CutNumbers,
    /// Whether it may be asked again about the node.
    pub(crate) more: bool,
}

/// A call to which nothing is proposed and no more is wanted.
pub(crate) const NO_MORE: Call = Call {
    puts: &[],
    picks: &[],
    cut: CutNumbers::None,
    more: false,
};

/// An improver that has a script of calls, after which it proposes nothing and wants no more, and writes down all that
/// it is shown.
#[derive(Drop)]
pub(crate) struct Scripted {
    alloc: Global,
    script: &'static [Call],
    asked: usize,
    shown: String,
}

impl Scripted {
    /// One that was not asked yet.
    pub(crate) fn by(alloc: Global, script: &'static [Call]) -> Scripted {
        Scripted {
            alloc,
            script,
            asked: 0,
            shown: String::new(alloc),
        }
    }

    /// What it was shown, a line for each call.
    pub(crate) fn shown(&self) -> &str {
        self.shown.as_str()
    }
}

impl Improver for Scripted {
    fn improve(&mut self, seen: &Seen<'_>, to: &mut Improvement) -> Result<bool, NoMemory> {
        write_seen(&mut self.shown, seen)?;
        let call = self.script.get(self.asked).copied().unwrap_or(NO_MORE);
        self.asked = self.asked.saturating_add(1);
        if call.puts.len() > 0 {
            to.multipliers = Some(multipliers_of(self.alloc, call.puts)?);
        }
        for picks in call.picks {
            to.picks.push(picks_of(self.alloc, picks)?)?;
        }
        to.cut = cut_of(call.cut);
        Ok(call.more)
    }
}

/// The cut of these numbers.
fn cut_of(numbers: CutNumbers) -> Option<Cut> {
    match numbers {
        CutNumbers::None => None,
        CutNumbers::Only(trip, comp) => Some(Cut::Only {
            trip: TripNo(trip),
            comp: CompNo(comp),
        }),
        CutNumbers::AtMost(trip, unit_type, count) => Some(Cut::AtMost {
            trip: TripNo(trip),
            unit_type: TypeNo(unit_type),
            count,
        }),
    }
}

/// Writes a line of what is shown of a node.
fn write_seen(text: &mut String, seen: &Seen<'_>) -> Result<(), AllocError> {
    write!(text, "node {}, attempt {}; left", seen.node, seen.attempt)?;
    write_sizes(text, seen.region)?;
    write!(text, "; kept {} at", seen.kept.0)?;
    write_entries(text, seen.multipliers)?;
    write!(text, "; picks")?;
    write_picks(text, seen.picks)?;
    write!(text, "; slacks")?;
    write_slacks(text, seen.slacks)?;
    write_best(text, &seen.best)?;
    write!(text, "; free from {}\n", seen.free_from)
}

/// Writes how many compositions each trip has left, each after a space.
fn write_sizes(text: &mut String, region: &Region) -> Result<(), AllocError> {
    for trip in 0..region.trips() {
        write!(text, " {}", region.size(TripNo(trip)))?;
    }
    Ok(())
}

/// Writes multipliers, each after a space.
fn write_entries(text: &mut String, multipliers: &Multipliers) -> Result<(), AllocError> {
    for entry in multipliers.entries() {
        write!(text, " {}:{}", entry.index, entry.value)?;
    }
    Ok(())
}

/// Writes the compositions of picks, each after a space.
fn write_picks(text: &mut String, picks: &Picks) -> Result<(), AllocError> {
    for trip in 0..picks.len() {
        write!(text, " {}", picks.get(TripNo(trip)).0)?;
    }
    Ok(())
}

/// Writes slacks, each after a space.
fn write_slacks(text: &mut String, slacks: &Slacks) -> Result<(), AllocError> {
    for place in 0..slacks.len() {
        let entry = slacks.at(place);
        write!(text, " {}:{}", entry.index, entry.value)?;
    }
    Ok(())
}

/// Writes the cost and the picks of the best solution, where there is one.
fn write_best(text: &mut String, best: &Option<Incumbent<'_>>) -> Result<(), AllocError> {
    match best {
        Some(best) => {
            write!(text, "; plan {} by", best.cost.0)?;
            write_picks(text, best.picks)
        }
        None => write!(text, "; no plan"),
    }
}
