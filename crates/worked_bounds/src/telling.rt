//! What is shown to advisors and what is found, as texts: what is found is the conclusion, the nodes of the tree, and
//! how often each advisor was asked, each after a semicolon.

use advisors::{Advisor, Look};
use branch_tree::{Cut, Multipliers, Node, Slacks, Tree};
use rail_base::{Money, NodeNo, TripNo};
use search::{Best, Found};
use std::alloc::AllocError;
use timetable::Picks;

/// Writes what is shown of a node.
pub(crate) fn write_look(text: &mut String, look: &Look<'_>) -> Result<(), AllocError> {
    write_sizes(text, look)?;
    write_values(text, look)?;
    write_evaluated(text, look)?;
    write!(text, "; free from {}", look.free_from)
}

/// Writes the round of a look, and how many compositions each trip has left.
fn write_sizes(text: &mut String, look: &Look<'_>) -> Result<(), AllocError> {
    write!(text, "round {}; left", look.round)?;
    for size in look.sizes {
        write!(text, " {size}")?;
    }
    Ok(())
}

/// Writes what the last evaluation of a node was made with and gave.
fn write_evaluated(text: &mut String, look: &Look<'_>) -> Result<(), AllocError> {
    write!(text, "; at")?;
    write_entries(text, look.multipliers)?;
    write!(text, "; picks")?;
    write_picks(text, look.picks)?;
    write!(text, "; slacks")?;
    write_slacks(text, look.slacks)
}

/// Writes the values that a look has.
fn write_values(text: &mut String, look: &Look<'_>) -> Result<(), AllocError> {
    write!(
        text,
        "; first {}, kept {}, last {}",
        look.first.0, look.kept.0, look.last.0
    )
}

/// Writes slacks, each after a space and its index.
pub(crate) fn write_slacks(text: &mut String, slacks: &Slacks) -> Result<(), AllocError> {
    for place in 0..slacks.len() {
        let entry = slacks.at(place);
        write!(text, " {}:{}", entry.index, entry.value)?;
    }
    Ok(())
}

/// Writes what was found.
pub(crate) fn write_found(text: &mut String, found: &Found) -> Result<(), AllocError> {
    match found {
        Found::Optimal { picks, cost, tree } => {
            write!(text, "optimal")?;
            write_plan(text, picks, *cost)?;
            write_tree(text, tree)
        }
        Found::Infeasible { tree } => {
            write!(text, "infeasible")?;
            write_tree(text, tree)
        }
        Found::Bounded { best, bound, tree } => {
            write!(text, "bounded {}", bound.0)?;
            write_best(text, best)?;
            write_tree(text, tree)
        }
    }
}

/// Writes the best plan, where there is one.
fn write_best(text: &mut String, best: &Option<Best>) -> Result<(), AllocError> {
    if let Some(best) = best {
        write!(text, " plan")?;
        write_plan(text, &best.picks, best.cost)?;
    }
    Ok(())
}

/// Writes a cost and the picks that it comes from.
fn write_plan(text: &mut String, picks: &Picks, cost: Money) -> Result<(), AllocError> {
    write!(text, " {} by", cost.0)?;
    write_picks(text, picks)
}

/// Writes the compositions of picks, each after a space.
pub(crate) fn write_picks(text: &mut String, picks: &Picks) -> Result<(), AllocError> {
    for trip in 0..picks.len() {
        write!(text, " {}", picks.get(TripNo(trip)).0)?;
    }
    Ok(())
}

/// Writes the nodes of a tree.
fn write_tree(text: &mut String, tree: &Tree) -> Result<(), AllocError> {
    for number in 0..tree.len() {
        write!(text, "; ")?;
        write_node(text, tree.node(NodeNo(number)))?;
    }
    Ok(())
}

/// Writes a node.
fn write_node(text: &mut String, node: &Node) -> Result<(), AllocError> {
    match node {
        Node::Branch(cut) => write_cut(text, cut),
        Node::CostLeaf { bound, multipliers } => {
            write!(text, "cost {}", bound.0)?;
            write_entries(text, multipliers)
        }
        Node::RayLeaf { multipliers } => {
            write!(text, "ray")?;
            write_entries(text, multipliers)
        }
        Node::EmptyLeaf => write!(text, "empty"),
    }
}

/// Writes a cut.
fn write_cut(text: &mut String, cut: &Cut) -> Result<(), AllocError> {
    match cut {
        Cut::Only { trip, comp } => write!(text, "only {} {}", trip.0, comp.0),
        Cut::AtMost {
            trip,
            unit_type,
            count,
        } => write!(text, "most {} {} {}", trip.0, unit_type.0, count),
    }
}

/// Writes multipliers, each after a space.
fn write_entries(text: &mut String, multipliers: &Multipliers) -> Result<(), AllocError> {
    for entry in multipliers.entries() {
        write!(text, " {}:{}", entry.index, entry.value)?;
    }
    Ok(())
}

/// Writes of each advisor how often it was asked, and whether it has quit.
pub(crate) fn write_asked(
    text: &mut String,
    advisors: &[Box<dyn Advisor>],
) -> Result<(), AllocError> {
    for advisor in advisors {
        write!(text, "; asked {}", advisor.asked())?;
        if advisor.has_quit() {
            write!(text, ", quit")?;
        }
    }
    Ok(())
}
