//! Nodes of a search for a fleet, each with its box.

ghost use Rattle.std.specs.Prelude.{All, ◌≡◌, ◌+◌, ◌*◌, ◌≤◌, ◌^◌, ◌∷◌, [], length, IfOk};
ghost use Rattle.timetable.specs.DayTables.{IsDayOfBytes};
ghost use Rattle.search.specs.Questions.{AreAsked, AreTheSame, in_rounds};
ghost use Rattle.fleet_size.specs.Found.{IsGranted, branchings_in};
ghost use Rattle.fleet_size.specs.Slots.{IsBest, IsBoxOf, IsEvaluated, node_said};

use crate::offers::{Best, DayAnswer, take_plan};
use crate::planning::{Granted, planned};
use advisors::Advisor;
use answer_text::{Answer, Head};
use branch_tree::Tree;
use fleet_boxes::{BoxNode, FleetBox, Prices};
use fleet_check::DayOfTables;
use fleets::day_with;
use rail_base::NoMemory;
use std::alloc::Global;

/// What is searched: a day with its tables, the prices of its types, and what is granted.
#[derive(Clone, Copy)]
pub(crate) struct Problem<'a> {
    pub(crate) tables: DayOfTables<'a>,
    pub(crate) prices: &'a Prices,
    pub(crate) granted: Granted,
}

/// A node with its box. Slots stand in preorder.
#[derive(Drop)]
pub(crate) struct Slot {
    pub(crate) fleets: FleetBox,
    /// How many slots were made before.
    pub(crate) made: u32,
    pub(crate) node: BoxNode,
}

/// The leaf of a box: the day of the greatest fleet is planned, and its plan offered as the best. The error is want of
/// memory.
pub(crate) fn evaluated(
    alloc: Global,
    problem: Problem<'_>,
    fleets: FleetBox,
    made: u32,
    best: &mut Option<Best>,
    advisors: &mut Vec<Box<dyn Advisor>>,
) -> Result<Slot, NoMemory>
    requires made { IsDayOfBytes problem.tables.bytes.now problem.tables.instance.now }
    requires prices { length problem.prices.now ≡ length problem.tables.instance.now.types }
    requires granted { IsGranted problem.granted }
    requires fleets { IsBoxOf problem.tables.instance.now fleets }
    requires best { IsBest problem.tables.instance.now problem.prices.now best.old }
    requires asked { All (λ advisor. asked advisor ≤ 2 ^ 63) advisors.old.items }
    ensures evaluated { IfOk result (IsEvaluated problem.entry.tables.instance.now problem.entry.prices.now
        problem.entry.granted.branchings fleets best.old best.new) }
    ensures advisors { AreTheSame advisors.old.items advisors.new.items identity }
    ensures asked { AreAsked advisors.old.items advisors.new.items asked has_quit 0
        (problem.entry.granted.rounds * (2 * problem.entry.granted.branchings + 1)) }
    ensures counted { IfOk result (λ slot. AreAsked advisors.old.items advisors.new.items asked has_quit
        (in_rounds problem.entry.granted.rounds (branchings_in (slot.node ∷ [])))
        (problem.entry.granted.rounds * (2 * branchings_in (slot.node ∷ []) + 1))) }
{
    let Problem {
        tables,
        prices,
        granted,
    } = problem;
    // What is known of an accepted day.
    tables.instance.is_sound();
    let day = day_with(alloc, tables.bytes, tables.instance, &fleets.greatest)?;
    let answer = planned(alloc, &day, granted, advisors)?;
    let Answer {
        head,
        branchings,
        runs,
        tree,
    } = answer;
    let said = DayAnswer {
        day: &day,
        fleet: &fleets.greatest,
        head,
        runs,
    };
    take_plan(alloc, tables, prices, said, best)?;
    let node = node_of(head, branchings, tree);
    Ok(Slot { fleets, made, node })
}

/// The leaf that says of a box what an answer to the day of its greatest fleet says of that day.
fn node_of(head: Head, branchings: u32, tree: Tree) -> BoxNode
    ensures { result ≡ node_said head branchings tree }
{
    match head {
        Head::Optimal { cost: bound } | Head::Bounded { bound } | Head::BoundedPlan { bound, .. } =>
            {
                BoxNode::Bound {
                    bound,
                    branchings,
                    tree,
                }
            }
        Head::Infeasible => BoxNode::Nothing { branchings, tree },
    }
}
