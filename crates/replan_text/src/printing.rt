//! The text of the answer to a disturbed day, line by line.

ghost use Rattle.std.specs.Prelude.{◌≡◌, ◌∷◌, [], IfOk, OnOk, string_bytes, unwrap_or};
ghost use Rattle.answer_text.specs.Lines.{Adds};
ghost use Rattle.answer_text.specs.Texts.{branchings_line};
ghost use Rattle.replan_text.specs.ReplanLines.{document_of, node_lines_of, old_run_lines, said_line};
ghost use Rattle.replan_text.specs.ReplanLines.{tree_lines};

use answer_text::{Head, write_nodes, write_run};
use branch_tree::Tree;
use rail_base::{NoMemory, TripNo};
use rail_csv::UnitList;
use replan::{Later, Replanned};
use std::alloc::Global;
use timetable::NamedPlan;

/// The document of the answer to a disturbed day: what it says, and where it has a plan, to how many trips that gives
/// other types than were planned; the run of each trip of the plan, by the number that the trip had before; where the
/// answer is `bounded`, how many branchings were made, and the tree, in which trips have the numbers of the later day;
/// and `end`. The later day is the one that was planned. The error is want of memory.
pub fn print_replanned(
    alloc: Global,
    later: &Later,
    replanned: Replanned,
) -> Result<Vec<u8>, NoMemory>
    ensures { IfOk result (λ text. text.items ≡ document_of later.now.numbers.items replanned) }
{
    let Replanned {
        head,
        plan,
        changes,
        tree,
    } = replanned;
    let runs = lists_of(alloc, plan);
    let mut text = String::new(alloc);
    write_said(&mut text, &head, changes)?;
    write_old_runs(&mut text, &later.numbers, &runs)?;
    write_tree(&mut text, &head, &tree)?;
    text.push_str("end\n")?;
    Ok(text.into_bytes())
}

/// The lists of the units of a plan, one a trip; none where there is no plan.
fn lists_of(alloc: Global, plan: Option<NamedPlan>) -> Vec<UnitList>
    ensures { result.items ≡ unwrap_or plan [] }
{
    match plan {
        Some(plan) => plan.into_lists(),
        None => Vec::new(alloc),
    }
}

/// Adds the line that tells what the answer says.
fn write_said(text: &mut String, head: &Head, changes: u32) -> Result<(), NoMemory>
    ensures { OnOk result (Adds (string_bytes text.old) (string_bytes text.new) (said_line head.now changes ∷ [])) }
{
    let written = match *head {
        Head::Optimal { cost } => write!(text, "replan optimal {} changes {changes}\n", cost.0),
        Head::Infeasible => text.push_str("replan infeasible\n"),
        Head::Bounded { bound } => write!(text, "replan bounded {}\n", bound.0),
        Head::BoundedPlan { bound, cost } => {
            write!(
                text,
                "replan bounded {} plan {} changes {changes}\n",
                bound.0, cost.0
            )
        }
    };
    Ok(written?)
}

/// Adds the run of each trip, by the number that it had.
fn write_old_runs(text: &mut String, numbers: &[TripNo], runs: &[UnitList]) -> Result<(), NoMemory>
    ensures { OnOk result (Adds (string_bytes text.old) (string_bytes text.new) (old_run_lines numbers.now runs.now)) }
{
    for trip in 0..runs.len() {
        if trip < numbers.len() {
            write_run(text, numbers[trip].place(), &runs[trip])?;
        }
    }
    Ok(())
}

/// Adds how many branchings were made, and the tree, where the answer is `bounded`.
fn write_tree(text: &mut String, head: &Head, tree: &Tree) -> Result<(), NoMemory>
    ensures { OnOk result (Adds (string_bytes text.old) (string_bytes text.new) (tree_lines head.now tree.now)) }
{
    match head {
        Head::Optimal { .. } | Head::Infeasible => Ok(()),
        Head::Bounded { .. } | Head::BoundedPlan { .. } => write_nodes_of(text, tree),
    }
}

/// Adds how many branchings were made, and the nodes of the tree.
fn write_nodes_of(text: &mut String, tree: &Tree) -> Result<(), NoMemory>
    ensures { OnOk result (Adds (string_bytes text.old) (string_bytes text.new) (node_lines_of tree.now)) }
{
    write_branchings(text, tree.branchings())?;
    text.push_str("tree\n")?;
    write_nodes(text, tree)?;
    Ok(())
}

/// Adds how many branchings were made.
fn write_branchings(text: &mut String, branchings: u32) -> Result<(), NoMemory>
    ensures { OnOk result (Adds (string_bytes text.old) (string_bytes text.new) (branchings_line branchings ∷ [])) }
{
    write!(text, "branchings {branchings}\n")?;
    Ok(())
}
