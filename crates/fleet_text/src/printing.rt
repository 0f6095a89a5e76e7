//! The text of a fleet, line by line.

ghost use Rattle.std.specs.Prelude.{◌≡◌, ◌<◌, ◌∷◌, [], IfOk, OnOk, string_bytes, length};
ghost use Rattle.answer_text.specs.Lines.{Adds};
ghost use Rattle.answer_text.specs.Texts.{branchings_line, run_lines};
ghost use Rattle.fleet_text.specs.FleetLines.{bound_line, box_lines, boxes_told, chosen_lines, fleet_text};
ghost use Rattle.fleet_text.specs.FleetLines.{lines_of_boxes, node_lines_of, nothing_line, places_told, plan_lines};
ghost use Rattle.fleet_text.specs.FleetLines.{said_line, split_line, splits_line, stock_line, stock_lines};

use answer_text::{Head, write_nodes, write_run};
use branch_tree::Tree;
use fleet_boxes::{BoxNode, Boxes};
use fleet_check::{Chosen, Fleet};
use fleets::Counts;
use rail_base::{Money, NoMemory};
use rail_csv::UnitList;
use std::alloc::Global;

/// The document of a fleet: what is said of all fleets, how many splits were made; where there is a plan, the stock by
/// station and type and the run of each trip; where the head is `bounded`, the nodes of the boxes in preorder, each
/// leaf with its tree; and `end`. The day has so many types; where it has none, there is no stock. The error is want of
/// memory.
pub fn print_fleet(alloc: Global, types: u32, fleet: Fleet) -> Result<Vec<u8>, NoMemory>
    ensures { IfOk result (λ text. text.items ≡ fleet_text types fleet) }
{
    let Fleet {
        head,
        splits,
        boxes,
        chosen,
    } = fleet;
    let mut text = String::new(alloc);
    write_said(&mut text, &head)?;
    write_splits(&mut text, splits)?;
    write_chosen(&mut text, types, chosen)?;
    write_boxes(&mut text, &head, &boxes)?;
    text.push_str("end\n")?;
    Ok(text.into_bytes())
}

/// Adds the line that tells what is said of all fleets.
fn write_said(text: &mut String, head: &Head) -> Result<(), NoMemory>
    ensures { OnOk result (Adds (string_bytes text.old) (string_bytes text.new) (said_line head.now ∷ [])) }
{
    let written = match *head {
        Head::Optimal { cost } => write!(text, "fleet optimal {}\n", cost.0),
        Head::Infeasible => text.push_str("fleet infeasible\n"),
        Head::Bounded { bound } => write!(text, "fleet bounded {}\n", bound.0),
        Head::BoundedPlan { bound, cost } => {
            write!(text, "fleet bounded {} plan {}\n", bound.0, cost.0)
        }
    };
    Ok(written?)
}

/// Adds how many splits were made.
fn write_splits(text: &mut String, splits: u32) -> Result<(), NoMemory>
    ensures { OnOk result (Adds (string_bytes text.old) (string_bytes text.new) (splits_line splits ∷ [])) }
{
    write!(text, "splits {splits}\n")?;
    Ok(())
}

/// Adds the chosen stock and the runs of its plan, where there is one.
fn write_chosen(text: &mut String, types: u32, chosen: Option<Chosen>) -> Result<(), NoMemory>
    ensures { OnOk result (Adds (string_bytes text.old) (string_bytes text.new) (chosen_lines types chosen)) }
{
    match chosen {
        Some(chosen) => write_plan(text, types, chosen),
        None => Ok(()),
    }
}

/// Adds a chosen stock and the runs of its plan.
fn write_plan(text: &mut String, types: u32, chosen: Chosen) -> Result<(), NoMemory>
    ensures { OnOk result (Adds (string_bytes text.old) (string_bytes text.new) (plan_lines types chosen)) }
{
    let Chosen { stock, plan } = chosen;
    write_places(text, types, &stock)?;
    let runs = plan.into_lists();
    write_runs(text, &runs)?;
    Ok(())
}

/// Adds the units of each station and type; of a day without types there are none.
fn write_places(text: &mut String, types: u32, stock: &Counts) -> Result<(), NoMemory>
    ensures { OnOk result (Adds (string_bytes text.old) (string_bytes text.new) (places_told types stock.now)) }
{
    if types == 0 {
        return Ok(());
    }
    write_stock(text, types, stock)?;
    Ok(())
}

/// Adds the units of each station and type, where there are types.
fn write_stock(text: &mut String, types: u32, stock: &Counts) -> Result<(), NoMemory>
    requires { 0 < types }
    ensures { OnOk result (Adds (string_bytes text.old) (string_bytes text.new) (stock_lines types stock.now)) }
{
    for place in 0..stock.len() {
        write_place(text, types, place, stock.at(place))?;
    }
    Ok(())
}

/// Adds the units of a place.
fn write_place(text: &mut String, types: u32, place: u32, units: u32) -> Result<(), NoMemory>
    requires { 0 < types }
    ensures { OnOk result (Adds (string_bytes text.old) (string_bytes text.new)
        (stock_line types place units ∷ [])) }
{
    let station = place / types;
    let unit_type = place % types;
    write!(text, "stock {station} {unit_type} {units}\n")?;
    Ok(())
}

/// Adds the run of each trip.
fn write_runs(text: &mut String, runs: &[UnitList]) -> Result<(), NoMemory>
    ensures { OnOk result (Adds (string_bytes text.old) (string_bytes text.new) (run_lines 0 runs.now)) }
{
    for trip in 0..runs.len() {
        write_run(text, trip, &runs[trip])?;
    }
    Ok(())
}

/// Adds the nodes of the boxes, where the head is `bounded`.
fn write_boxes(text: &mut String, head: &Head, boxes: &Boxes) -> Result<(), NoMemory>
    ensures { OnOk result (Adds (string_bytes text.old) (string_bytes text.new) (boxes_told head.now boxes.now)) }
{
    match head {
        Head::Optimal { .. } | Head::Infeasible => Ok(()),
        Head::Bounded { .. } | Head::BoundedPlan { .. } => write_each_box(text, boxes.items()),
    }
}

/// Adds each node of boxes.
fn write_each_box(text: &mut String, nodes: &[BoxNode]) -> Result<(), NoMemory>
    ensures { OnOk result (Adds (string_bytes text.old) (string_bytes text.new) (lines_of_boxes nodes.now)) }
{
    for number in 0..nodes.len() {
        write_box(text, &nodes[number])?;
    }
    Ok(())
}

/// Adds a node of boxes.
fn write_box(text: &mut String, node: &BoxNode) -> Result<(), NoMemory>
    ensures { OnOk result (Adds (string_bytes text.old) (string_bytes text.new) (box_lines node.now)) }
{
    match node {
        BoxNode::Split {
            station,
            unit_type,
            at,
        } => write_split(text, station.0, unit_type.0, *at),
        BoxNode::Bound {
            bound,
            branchings,
            tree,
        } => write_bound(text, *bound, *branchings, tree),
        BoxNode::Nothing { branchings, tree } => write_nothing(text, *branchings, tree),
    }
}

/// Adds a split.
fn write_split(text: &mut String, station: u32, unit_type: u32, at: u32) -> Result<(), NoMemory>
    ensures { OnOk result (Adds (string_bytes text.old) (string_bytes text.new)
        (split_line station unit_type at ∷ [])) }
{
    write!(text, "split {station} {unit_type} {at}\n")?;
    Ok(())
}

/// Adds a leaf with a bound.
fn write_bound(
    text: &mut String,
    bound: Money,
    branchings: u32,
    tree: &Tree,
) -> Result<(), NoMemory>
    ensures { OnOk result (Adds (string_bytes text.old) (string_bytes text.new)
        (bound_line bound ∷ node_lines_of branchings tree.now)) }
{
    write!(text, "bound {}\n", bound.0)?;
    write_tree(text, branchings, tree)
}

/// Adds a leaf whose greatest fleet has no plan that runs.
fn write_nothing(text: &mut String, branchings: u32, tree: &Tree) -> Result<(), NoMemory>
    ensures { OnOk result (Adds (string_bytes text.old) (string_bytes text.new)
        (nothing_line ∷ node_lines_of branchings tree.now)) }
{
    text.push_str("nothing\n")?;
    write_tree(text, branchings, tree)
}

/// Adds a tree, and how many branchings it has.
fn write_tree(text: &mut String, branchings: u32, tree: &Tree) -> Result<(), NoMemory>
    ensures { OnOk result (Adds (string_bytes text.old) (string_bytes text.new) (node_lines_of branchings tree.now)) }
{
    write_branchings(text, branchings)?;
    text.push_str("tree\n")?;
    write_nodes(text, tree)?;
    Ok(())
}

/// Adds how many branchings a tree has.
fn write_branchings(text: &mut String, branchings: u32) -> Result<(), NoMemory>
    ensures { OnOk result (Adds (string_bytes text.old) (string_bytes text.new) (branchings_line branchings ∷ [])) }
{
    write!(text, "branchings {branchings}\n")?;
    Ok(())
}
