//! Checking what is said of all fleets of a day: everything is recomputed, and nothing is trusted.

ghost use Rattle.std.specs.Prelude.{ℤ, ◌≤ℤ◌, List, All, ◌≡◌, ◌≢◌, ◌≤◌, ◌∷◌, ◌↔◌, [], length, IfOk, IfErr, IsTrue, Some};
ghost use Rattle.timetable.specs.DayTables.{IsDayOfBytes};
ghost use Rattle.branch_tree.specs.Trees.{IsLeastOf};
ghost use Rattle.fleet_check.specs.declared.found.TheConstants.{MAX_BOX_NODES};
ghost use Rattle.fleet_check.specs.Heads.{DoesFollow, IsTrueOfFleets};
ghost use Rattle.fleet_check.specs.Tests.{StopsAt};
ghost use Rattle.fleet_check.specs.Verdicts.{DoesHeadFail, IsValid, IsVerdict, fleet_tests};

use crate::box_trees::test_nodes;
use crate::chosen::test_chosen;
use crate::day_of_tables::DayOfTables;
use crate::found::{Fleet, MAX_BOX_NODES};
use crate::shape::test_shape;
use crate::verdict::{FleetVerdict, Stop};
use answer_text::Head;
use fleet_boxes::Prices;
use rail_base::{Money, NoMemory};
use std::alloc::Global;

/// Checks what was said of all fleets of a day, those that have nowhere more units than the day's stock at its start:
/// it is valid exactly where its boxes are proved, the number of splits is the one said, a chosen plan is there exactly
/// where the head has one, runs with its fleet and has the price said, and what the head says follows from the leaves.
/// Else the verdict is the first thing that is wrong, as `FleetVerdict` orders them. What a valid one says is true of
/// all fleets and the plans that run with them, whoever wrote it: each leaf's tree is recomputed for the day with the
/// greatest fleet of its box.
///
/// The day is that of the tables, the prices are those of its types, and there are at most `MAX_BOX_NODES` nodes. How
/// many splits and branchings were granted is not known here. The error is want of memory.
pub fn check_fleet(
    alloc: Global,
    tables: &DayOfTables<'_>,
    prices: &Prices,
    fleet: &Fleet,
) -> Result<FleetVerdict, NoMemory>
    requires made { IsDayOfBytes tables.now.bytes.now tables.now.instance.now }
    requires prices { length prices.now ≡ length tables.now.instance.now.types }
    requires few { length fleet.now.boxes ≤ MAX_BOX_NODES }
    ensures verdict { IfOk result (IsVerdict tables.now.instance.now prices.now fleet.now) }
    ensures holds { IfOk result (λ verdict. verdict ≡ FleetVerdict.Valid →
        IsTrueOfFleets tables.now.instance.now prices.now fleet.now.head fleet.now.chosen) }
{
    // What is known of an accepted day: what is proved of its boxes is true of all its fleets.
    tables.instance.is_sound();
    match test_all(alloc, tables, prices, fleet) {
        Ok(()) => Ok(FleetVerdict::Valid),
        Err(Stop::Found(verdict)) => Ok(verdict),
        Err(Stop::NoMemory) => Err(NoMemory),
    }
}

/// Makes the tests in their order, up to the first that fails.
fn test_all(
    alloc: Global,
    tables: &DayOfTables<'_>,
    prices: &Prices,
    fleet: &Fleet,
) -> Result<(), Stop>
    requires made { IsDayOfBytes tables.now.bytes.now tables.now.instance.now }
    requires prices { length prices.now ≡ length tables.now.instance.now.types }
    requires few { length fleet.now.boxes ≤ MAX_BOX_NODES }
    ensures valid { IfOk result (λ _. IsValid tables.now.instance.now prices.now fleet.now) }
    ensures stops { IfErr result (StopsAt (fleet_tests tables.now.instance.now prices.now fleet.now)) }
{
    let nodes = fleet.boxes.items();
    test_shape(nodes)?;
    let leaves = test_nodes(alloc, tables, prices, nodes)?;
    test_splits(fleet.splits, leaves.splits)?;
    test_chosen(alloc, tables, prices, fleet)?;
    test_head(&fleet.head, leaves.least)
}

/// Tests that as many splits are said as there are.
fn test_splits(said: u32, found: u32) -> Result<(), Stop>
    ensures passed { IfOk result (λ _. said ≡ found) }
    ensures stops { IfErr result (λ stop. (stop ≡ Stop.Found (FleetVerdict.SplitsDiffer said found)) × (said ≢ found)) }
{
    if said == found {
        Ok(())
    } else {
        Err(Stop::Found(FleetVerdict::SplitsDiffer { said, found }))
    }
}

/// Tests that what the head says follows from the leaves, whose least value this is.
fn test_head(head: &Head, least: Option<Money>) -> Result<(), Stop>
    ensures passed { IfOk result (λ _. (values : List ℤ) → IsLeastOf values least → DoesFollow values head.now) }
    ensures stops { IfErr result (λ stop. (values : List ℤ) → IsLeastOf values least →
        StopsAt (DoesHeadFail values head.now ∷ []) stop) }
{
    if does_follow(head, least) {
        Ok(())
    } else {
        Err(Stop::Found(FleetVerdict::HeadFails))
    }
}

/// Whether what a head says follows from the leaves, whose least value this is.
fn does_follow(head: &Head, least: Option<Money>) -> bool
    ensures { (values : List ℤ) → IsLeastOf values least → (IsTrue result ↔ DoesFollow values head.now) }
{
    match head {
        Head::Optimal { cost } => is_above_none(*cost, least),
        Head::Infeasible => least.is_none(),
        Head::Bounded { bound } => is_amount(least, *bound),
        Head::BoundedPlan { bound, .. } => is_amount(least, *bound),
    }
}

/// Whether an amount is above none of some values, whose least is this.
fn is_above_none(amount: Money, least: Option<Money>) -> bool
    ensures { (values : List ℤ) → IsLeastOf values least → (IsTrue result ↔ All (λ value. amount.0 ≤ℤ value) values) }
{
    match least {
        Some(least) => is_at_most(amount, least),
        None => true,
    }
}

/// Whether an amount is at most another.
fn is_at_most(amount: Money, other: Money) -> bool
    ensures { IsTrue result ↔ (amount.0 ≤ℤ other.0) }
{
    amount.0 <= other.0
}

/// Whether what was found is this amount.
fn is_amount(found: Option<Money>, amount: Money) -> bool
    ensures { IsTrue result ↔ (found ≡ Some amount) }
{
    match found {
        Some(other) => other.0 == amount.0,
        None => false,
    }
}
