//! The test of all nodes of a whole tree in preorder, each in its box.

ghost use Rattle.std.specs.Prelude.{◌≡◌, ◌≤◌, ◌∷◌, [], length, IfOk, IfErr};
ghost use Rattle.timetable.specs.DayTables.{IsDayOfBytes};
ghost use Rattle.fleet_boxes.specs.Boxes.{box_of};
ghost use Rattle.fleet_check.specs.declared.found.TheConstants.{MAX_BOX_NODES};
ghost use Rattle.fleet_check.specs.Tests.{StopsAt};
ghost use Rattle.fleet_check.specs.Verdicts.{IsWhole, tests_from};
ghost use Rattle.fleet_check.specs.Walks.{AreLeavesOf};

use crate::boxes::{box_of, wait_for_parts};
use crate::day_of_tables::DayOfTables;
use crate::found::MAX_BOX_NODES;
use crate::leaves::{Leaves, with_node};
use crate::proved_nodes::test_node;
use crate::verdict::Stop;
use fleet_boxes::{BoxNode, Prices};
use std::alloc::Global;

/// Tests the nodes of a whole tree in preorder, up to the first that fails: what their leaves say together. The boxes
/// of the trees to come wait on a stack.
pub(crate) fn test_nodes(
    alloc: Global,
    tables: &DayOfTables<'_>,
    prices: &Prices,
    nodes: &[BoxNode],
) -> Result<Leaves, Stop>
    requires made { IsDayOfBytes tables.now.bytes.now tables.now.instance.now }
    requires prices { length prices.now ≡ length tables.now.instance.now.types }
    requires few { length nodes.now ≤ MAX_BOX_NODES }
    requires whole { IsWhole nodes.now }
    ensures leaves { IfOk result (AreLeavesOf tables.now.instance.now prices.now nodes.now) }
    ensures stops { IfErr result (StopsAt
        (tests_from tables.now.instance.now 0 (box_of tables.now.instance.now ∷ []) nodes.now)) }
{
    // What is known of an accepted day.
    tables.instance.is_sound();
    let mut waiting = Vec::new(alloc);
    waiting.push(box_of(alloc, tables.instance)?)?;
    let mut leaves = Leaves {
        splits: 0,
        least: None,
    };
    for number in 0..nodes.len() {
        let node = &nodes[number];
        let Some(fleets) = waiting.pop() else {
            unreachable!();
        };
        test_node(alloc, tables, number as u32, node, &fleets)?;
        leaves = with_node(tables.instance, prices, leaves, node, &fleets);
        wait_for_parts(alloc, tables.instance, node, &fleets, &mut waiting)?;
    }
    Ok(leaves)
}
