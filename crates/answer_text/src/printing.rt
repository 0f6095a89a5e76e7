//! The text of an answer.

ghost use Rattle.std.specs.Prelude.{◌≡◌, ◌++◌, ◌∷◌, [], IfOk, OnOk, string_bytes};
ghost use Rattle.branch_tree.specs.declared.tree.Node.TheVariants.{Branch};
ghost use Rattle.answer_text.specs.Lines.{Adds};
ghost use Rattle.answer_text.specs.Texts.{branchings_line, entries_end, head_line, node_line, node_lines, run_line};
ghost use Rattle.answer_text.specs.Texts.{run_lines, text_of};

use crate::answer::{Answer, Head};
use branch_tree::{Cut, Entry, Node, Tree};
use rail_base::{NoMemory, NodeNo};
use rail_csv::UnitList;
use std::alloc::Global;

/// The one text of an answer. `read` reads it as this answer where the answer is within the limits of a document, and
/// has runs only where its head has a plan. The error is want of memory.
pub fn print(alloc: Global, answer: &Answer) -> Result<Vec<u8>, NoMemory>
    ensures { IfOk result (λ text. text.items ≡ text_of answer.now) }
{
    let mut text = String::new(alloc);
    text.push_str("railplan answer 1\n")?;
    write_head(&mut text, &answer.head)?;
    write_branchings(&mut text, answer.branchings)?;
    write_runs(&mut text, answer.runs.items())?;
    text.push_str("tree\n")?;
    write_nodes(&mut text, &answer.tree)?;
    text.push_str("end\n")?;
    Ok(text.into_bytes())
}

/// Adds the line that tells what an answer says of the day, with its line feed. The error is want of memory, after
/// which the text is of no use.
pub fn write_head(text: &mut String, head: &Head) -> Result<(), NoMemory>
    ensures { OnOk result (Adds (string_bytes text.old) (string_bytes text.new) (head_line head.now ∷ [])) }
{
    let written = match *head {
        Head::Optimal { cost } => write!(text, "optimal {}\n", cost.0),
        Head::Infeasible => text.push_str("infeasible\n"),
        Head::Bounded { bound } => write!(text, "bounded {}\n", bound.0),
        Head::BoundedPlan { bound, cost } => write!(text, "bounded {} plan {}\n", bound.0, cost.0),
    };
    Ok(written?)
}

/// Adds the number of branchings.
fn write_branchings(text: &mut String, branchings: u32) -> Result<(), NoMemory>
    ensures { OnOk result (Adds (string_bytes text.old) (string_bytes text.new) (branchings_line branchings ∷ [])) }
{
    write!(text, "branchings {branchings}\n")?;
    Ok(())
}

/// Adds the units of each trip.
fn write_runs(text: &mut String, runs: &[UnitList]) -> Result<(), NoMemory>
    ensures { OnOk result (Adds (string_bytes text.old) (string_bytes text.new) (run_lines 0 runs.now)) }
{
    for trip in 0..runs.len() {
        write_run(text, trip, &runs[trip])?;
    }
    Ok(())
}

/// Adds the line of the units that run a trip, by the trip's number: its units, front to rear, with its line feed. The
/// error is want of memory, after which the text is of no use.
pub fn write_run(text: &mut String, trip: usize, units: &UnitList) -> Result<(), NoMemory>
    ensures { OnOk result (Adds (string_bytes text.old) (string_bytes text.new) (run_line trip units.now ∷ [])) }
{
    write!(text, "run {trip}")?;
    for unit in units.items() {
        write!(text, " {}", unit.0)?;
    }
    text.push_str("\n")?;
    Ok(())
}

/// Adds the lines of the nodes of a tree, in its order, each with its line feed. The error is want of memory, after
/// which the text is of no use.
pub fn write_nodes(text: &mut String, tree: &Tree) -> Result<(), NoMemory>
    ensures { OnOk result (Adds (string_bytes text.old) (string_bytes text.new) (node_lines tree.now)) }
{
    for node in 0..tree.len() {
        write_node(text, tree.node(NodeNo(node)))?;
    }
    Ok(())
}

/// Adds one node.
fn write_node(text: &mut String, node: &Node) -> Result<(), NoMemory>
    ensures { OnOk result (Adds (string_bytes text.old) (string_bytes text.new) (node_line node.now ∷ [])) }
{
    match node {
        Node::Branch(cut) => write_cut(text, cut),
        Node::CostLeaf { bound, multipliers } => {
            write!(text, "cost {}", bound.0)?;
            write_entries(text, multipliers.entries())
        }
        Node::RayLeaf { multipliers } => {
            text.push_str("ray")?;
            write_entries(text, multipliers.entries())
        }
        Node::EmptyLeaf => Ok(text.push_str("empty\n")?),
    }
}

/// Adds the node that branches by a cut.
fn write_cut(text: &mut String, cut: &Cut) -> Result<(), NoMemory>
    ensures { OnOk result (Adds (string_bytes text.old) (string_bytes text.new) (node_line (Branch cut.now) ∷ [])) }
{
    let written = match cut {
        Cut::Only { trip, comp } => write!(text, "only {} {}\n", trip.0, comp.0),
        Cut::AtMost {
            trip,
            unit_type,
            count,
        } => write!(text, "most {} {} {count}\n", trip.0, unit_type.0),
    };
    Ok(written?)
}

/// Adds the number of entries and the entries, as the end of a line.
fn write_entries(text: &mut String, entries: &[Entry]) -> Result<(), NoMemory>
    ensures { OnOk result (string_bytes text.new ≡ string_bytes text.old ++ entries_end entries.now) }
{
    write!(text, " {}", entries.len())?;
    for entry in entries {
        write!(text, " {}:{}", entry.index, entry.value)?;
    }
    text.push_str("\n")?;
    Ok(())
}
