//! Answers to a day of which one trip keeps its composition, and another costs more with any but one.

ghost use Rattle.std.specs.Prelude.{ℕ, ◌<◌, ◌≤◌, List, length, IfOk, IfSome, IsTrue};
ghost use Rattle.rail_base.specs.declared.limits.TheConstants.{MAX_BRANCHINGS, MAX_CHANGE};
ghost use Rattle.timetable.specs.Compositions.{compositions_of};
ghost use Rattle.transitions.specs.Edges.{AreGraphs};
ghost use Rattle.branch_tree.specs.Regions.{IsFilled, IsOver};
ghost use Rattle.price_bound.specs.ChangedDays.{AreChanges};
ghost use Rattle.answer_check.specs.RegionTruths.{IsTrueIn};

use crate::region_naming::RegionNaming;
use advisors::Advisor;
use answer_check::laws::conclusions_hold_in_a_region;
use answer_text::Answer;
use branch_tree::laws::{regions_are_over_their_day, roots_have_all_solutions, sides_are_filled};
use branch_tree::{Cut, Region, Side};
use day_planner::laws::days_are_answerable;
use day_planner::{Allowed, DayNaming, Scope, answer_to};
use improvers::NoImprover;
use price_bound::{Change, DayBounds};
use rail_base::limits::MAX_CHANGE;
use rail_base::{CompNo, NoMemory, TripNo};
use std::alloc::Global;
use timetable::Instance;
use transitions::Graphs;

/// The region of a day in which a trip has this composition alone; nothing where it can have no other, or not this one.
pub(crate) fn kept_region(
    alloc: Global,
    day: &Instance,
    trip: TripNo,
    comp: CompNo,
) -> Result<Option<Region>, NoMemory>
    ensures { IfOk result (λ region. IfSome region (λ region.
        (IsOver (length day.now.trips) (compositions_of day.now) region) × IsFilled region)) }
{
    // What is known of the region of an accepted day, and of the sides of cuts.
    day.is_sound();
    regions_are_over_their_day();
    roots_have_all_solutions();
    sides_are_filled();
    let mut region = Region::root(alloc, day)?;
    let only = Cut::Only { trip, comp };
    let known = day.catalogue();
    if !region.is_proper(known, &only) {
        return Ok(None);
    }
    region.cut(known, &only, Side::Left);
    Ok(Some(region))
}

/// Whether a change is one of a day: its trip is the day's, its base is in the catalogue, and its cost is not too high.
pub(crate) fn is_change(day: &Instance, change: &Change) -> bool
    ensures trip { IsTrue result → change.now.trip < length day.now.trips }
    ensures base { IsTrue result → change.now.base < length (compositions_of day.now) }
    ensures cost { IsTrue result → change.now.cost ≤ MAX_CHANGE }
{
    let trips = day.trips();
    let comps = day.catalogue().len();
    change.trip.0 < trips && change.base.0 < comps && change.cost <= MAX_CHANGE
}

/// The answer to a day under changes, of the plans that run by picks in a region in which each trip has a composition:
/// what it says is true of them.
pub(crate) fn answer_within(
    alloc: Global,
    day: &Instance,
    graphs: &Graphs,
    changes: &[Change],
    region: &Region,
    branchings: u32,
) -> Result<Answer, NoMemory>
    requires graphs { AreGraphs day.now graphs.now }
    requires changes { AreChanges day.now changes.now }
    requires over { IsOver (length day.now.trips) (compositions_of day.now) region.now }
    requires filled { IsFilled region.now }
    requires branchings { branchings ≤ MAX_BRANCHINGS }
    ensures { IfOk result (λ answer.
        (picks : List ℕ) × IsTrueIn day.now changes.now region.now answer.head answer.runs picks) }
{
    // What is known of an accepted day, and which laws hold of answers.
    day.is_sound();
    days_are_answerable();
    conclusions_hold_in_a_region();
    let mut bounds = DayBounds::with_changes(alloc, day, graphs, changes)?;
    let naming = RegionNaming {
        of_day: DayNaming::new(day, graphs),
        region,
    };
    let scope = Scope {
        root: region,
        naming: &naming,
    };
    let allowed = Allowed {
        branchings,
        rounds: 0,
    };
    let mut advisors: Vec<Box<dyn Advisor>> = Vec::new(alloc);
    let answer = answer_to(
        alloc,
        &mut bounds,
        scope,
        allowed,
        &mut NoImprover,
        &mut advisors,
    )?;
    Ok(answer)
}
