//! The search for the fleet of least cost: boxes of fleets are split, the one of least value first.

ghost use Rattle.std.specs.Prelude.{ℕ, All, ◌≡◌, ◌+◌, ◌*◌, ◌<◌, ◌≤◌, ◌^◌, length, IfOk, OnOk};
ghost use Rattle.timetable.specs.DayTables.{IsDayOfBytes};
ghost use Rattle.search.specs.Questions.{AreAsked, AreTheSame, in_rounds};
ghost use Rattle.fleet_boxes.specs.Boxes.{IsParted};
ghost use Rattle.fleet_check.specs.declared.verdict.FleetVerdict.{FleetVerdict};
ghost use Rattle.fleet_check.specs.Verdicts.{IsVerdict};
ghost use Rattle.fleet_size.specs.Found.{IsFleetFound, IsGranted, branchings_in};
ghost use Rattle.fleet_size.specs.Slots.{IsNext, IsSearch, IsWideAt, nodes_in};
ghost use Rattle.fleet_size.specs.Values.{HasEnded};

use crate::choosing::{Next, next_open};
use crate::concluding::concluded;
use crate::offers::Best;
use crate::planning::Granted;
use crate::slots::{Problem, Slot, evaluated};
use advisors::Advisor;
use fleet_boxes::{BoxNode, FleetBox, Prices};
use fleet_check::{DayOfTables, Fleet, box_of};
use rail_base::{NoMemory, StationNo, TypeNo};
use std::alloc::Global;
use std::mem;

/// What a search has so far.
#[derive(Drop)]
pub(crate) struct Search {
    pub(crate) slots: Vec<Slot>,
    pub(crate) splits: u32,
    pub(crate) best: Option<Best>,
}

/// Finds the fleet of least cost with its plan, or a bound on what fleets cost and maybe a fleet with a plan, with a
/// proof over all fleets of the day: those that have nowhere more units than the day's stock at its start.
///
/// The day is that of the tables whose bytes are given, and the prices are those of its types. What is granted is
/// within the limits that `Granted` names; each advisor was asked at most 2^62 times before.
///
/// The answer is true of all fleets whatever the advisors propose, its boxes prove that, and `check_fleet` finds it
/// valid. It is `bounded` exactly where a leaf is open and either all splits that are granted were made, or each open
/// leaf is of one fleet alone and its tree has all branchings that are granted. Which plan is told with `bounded` no
/// clause says, but that it runs with its fleet at its price.
///
/// Afterwards an advisor of the same identity stands at each place, whatever the answer is. Each was asked at most
/// `rounds` times for each node of a day's tree that may be made, of which there are at most `2 * branchings + 1`, and
/// for each of at most `splits + 1` days. Where there is an answer, each was asked at most `rounds` times for each
/// node of its leaves' trees, and one that has not quit, if there are rounds, at least once for each of their
/// branchings. The error is want of memory alone.
pub fn fleet(
    alloc: Global,
    tables: &DayOfTables<'_>,
    prices: &Prices,
    granted: Granted,
    advisors: &mut Vec<Box<dyn Advisor>>,
) -> Result<Fleet, NoMemory>
    requires made { IsDayOfBytes tables.now.bytes.now tables.now.instance.now }
    requires prices { length prices.now ≡ length tables.now.instance.now.types }
    requires granted { IsGranted granted }
    requires asked { All (λ advisor. asked advisor ≤ 2 ^ 62) advisors.old.items }
    ensures found { IfOk result (IsFleetFound tables.now.instance.now prices.now granted) }
    ensures checks { IfOk result (λ fleet. (verdict : FleetVerdict) →
        IsVerdict tables.now.instance.now prices.now fleet verdict → verdict ≡ FleetVerdict.Valid) }
    ensures advisors { AreTheSame advisors.old.items advisors.new.items identity }
    ensures asked { AreAsked advisors.old.items advisors.new.items asked has_quit 0
        ((granted.splits + 1) * (granted.rounds * (2 * granted.branchings + 1))) }
    ensures counted { IfOk result (λ fleet. AreAsked advisors.old.items advisors.new.items asked has_quit
        (in_rounds granted.rounds (branchings_in fleet.boxes))
        (granted.rounds * (2 * branchings_in fleet.boxes + (fleet.splits + 1)))) }
{
    // What is known of an accepted day.
    tables.instance.is_sound();
    let problem = Problem {
        tables: *tables,
        prices,
        granted,
    };
    let search = run(alloc, problem, advisors)?;
    let found = concluded(alloc, prices, search)?;
    Ok(found)
}

/// Splits boxes until none is left that may be split or all splits that are granted are made. The error is want of
/// memory.
fn run(
    alloc: Global,
    problem: Problem<'_>,
    advisors: &mut Vec<Box<dyn Advisor>>,
) -> Result<Search, NoMemory>
    requires made { IsDayOfBytes problem.tables.bytes.now problem.tables.instance.now }
    requires prices { length problem.prices.now ≡ length problem.tables.instance.now.types }
    requires granted { IsGranted problem.granted }
    requires asked { All (λ advisor. asked advisor ≤ 2 ^ 62) advisors.old.items }
    ensures search { IfOk result (IsSearch problem.entry.tables.instance.now problem.entry.prices.now
        problem.entry.granted.branchings) }
    ensures ended { IfOk result (HasEnded problem.entry.prices.now problem.entry.granted.splits) }
    ensures advisors { AreTheSame advisors.old.items advisors.new.items identity }
    ensures asked { AreAsked advisors.old.items advisors.new.items asked has_quit 0
        ((problem.entry.granted.splits + 1)
        * (problem.entry.granted.rounds * (2 * problem.entry.granted.branchings + 1))) }
    ensures counted { IfOk result (λ search. AreAsked advisors.old.items advisors.new.items asked has_quit
        (in_rounds problem.entry.granted.rounds (branchings_in (nodes_in search.slots.items)))
        (problem.entry.granted.rounds
        * (2 * branchings_in (nodes_in search.slots.items) + (search.splits + 1)))) }
{
    // What is known of an accepted day.
    problem.tables.instance.is_sound();
    let mut search = begun(alloc, problem, advisors)?;
    for _split in 0..problem.granted.splits {
        let Some(next) = next_open(problem.prices, &search.slots, &search.best) else {
            return Ok(search);
        };
        split(alloc, problem, next, &mut search, advisors)?;
    }
    Ok(search)
}

/// A search whose one node is the leaf of the box of all fleets. The error is want of memory.
fn begun(
    alloc: Global,
    problem: Problem<'_>,
    advisors: &mut Vec<Box<dyn Advisor>>,
) -> Result<Search, NoMemory>
    requires made { IsDayOfBytes problem.tables.bytes.now problem.tables.instance.now }
    requires prices { length problem.prices.now ≡ length problem.tables.instance.now.types }
    requires granted { IsGranted problem.granted }
    requires asked { All (λ advisor. asked advisor ≤ 2 ^ 63) advisors.old.items }
    ensures search { IfOk result (IsSearch problem.entry.tables.instance.now problem.entry.prices.now
        problem.entry.granted.branchings) }
    ensures none { IfOk result (λ search. search.splits ≡ 0) }
    ensures advisors { AreTheSame advisors.old.items advisors.new.items identity }
    ensures asked { AreAsked advisors.old.items advisors.new.items asked has_quit 0
        (problem.entry.granted.rounds * (2 * problem.entry.granted.branchings + 1)) }
    ensures counted { IfOk result (λ search. AreAsked advisors.old.items advisors.new.items asked has_quit
        (in_rounds problem.entry.granted.rounds (branchings_in (nodes_in search.slots.items)))
        (problem.entry.granted.rounds * (2 * branchings_in (nodes_in search.slots.items) + 1))) }
{
    let root = box_of(alloc, problem.tables.instance)?;
    let mut best = None;
    let slot = evaluated(alloc, problem, root, 0, &mut best, advisors)?;
    let mut slots = Vec::new(alloc);
    slots.push(slot)?;
    Ok(Search {
        slots,
        splits: 0,
        best,
    })
}

/// Splits the box of a leaf at the first place of greatest width. The day of the lower part is planned; the upper part
/// has the greatest fleet of the whole box, so that what is said of its day is known. The error is want of memory.
fn split(
    alloc: Global,
    problem: Problem<'_>,
    next: Next,
    search: &mut Search,
    advisors: &mut Vec<Box<dyn Advisor>>,
) -> Result<(), NoMemory>
    requires made { IsDayOfBytes problem.tables.bytes.now problem.tables.instance.now }
    requires prices { length problem.prices.now ≡ length problem.tables.instance.now.types }
    requires granted { IsGranted problem.granted }
    requires search { IsSearch problem.tables.instance.now problem.prices.now problem.granted.branchings search.old }
    requires few { search.old.splits < problem.granted.splits }
    requires next { IsNext search.old.slots.items next }
    requires asked { All (λ advisor. asked advisor ≤ 2 ^ 63) advisors.old.items }
    ensures search { OnOk result (IsSearch problem.entry.tables.instance.now problem.entry.prices.now
        problem.entry.granted.branchings search.new) }
    ensures one { OnOk result (search.new.splits ≡ search.old.splits + 1) }
    ensures advisors { AreTheSame advisors.old.items advisors.new.items identity }
    ensures asked { AreAsked advisors.old.items advisors.new.items asked has_quit 0
        (problem.entry.granted.rounds * (2 * problem.entry.granted.branchings + 1)) }
    ensures counted { OnOk result ((made : ℕ)
        × (branchings_in (nodes_in search.new.slots.items) ≡ branchings_in (nodes_in search.old.slots.items) + made)
        × AreAsked advisors.old.items advisors.new.items asked has_quit
        (in_rounds problem.entry.granted.rounds made) (problem.entry.granted.rounds * (2 * made + 1))) }
{
    // What is known of an accepted day.
    problem.tables.instance.is_sound();
    let Next {
        slot,
        place,
        made,
        ..
    } = next;
    let fleets = search.slots[slot].fleets.copy(alloc)?;
    let at = middle(&fleets, place);
    let lower = fleets.lower(alloc, place, at)?;
    let upper = fleets.upper(alloc, place, at)?;
    let number = 2 * search.splits + 1;
    let first = evaluated(alloc, problem, lower, number, &mut search.best, advisors)?;
    let types = problem.tables.instance.types().len();
    let node = BoxNode::Split {
        station: StationNo(place / types),
        unit_type: TypeNo(place % types),
        at,
    };
    let whole = mem::replace(&mut search.slots[slot], Slot { fleets, made, node });
    let second = Slot {
        fleets: upper,
        made: number + 1,
        node: whole.node,
    };
    search.slots.insert(slot + 1, first)?;
    search.slots.insert(slot + 2, second)?;
    search.splits += 1;
    Ok(())
}

/// Half way between the least and the greatest fleet of a box at a place, rounded down.
fn middle(fleets: &FleetBox, place: u32) -> u32
    requires { IsWideAt fleets.now place }
    ensures { IsParted fleets.now place result }
{
    let least = fleets.least.at(place);
    let greatest = fleets.greatest.at(place);
    least + (greatest - least) / 2
}
