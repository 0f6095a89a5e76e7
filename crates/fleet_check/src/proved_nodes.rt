//! The test of a node in its box: that a split parts it, and that the tree of a leaf proves what the leaf says of the
//! day with the greatest fleet.

ghost use Rattle.std.specs.Prelude.{◌≡◌, ◌↔◌, ◌∷◌, ◌*◌, [], length, IfOk, IfErr, IsTrue};
ghost use Rattle.timetable.specs.DayTables.{IsDayOfBytes};
ghost use Rattle.branch_tree.specs.Claims.{IsProvedClaim};
ghost use Rattle.branch_tree.specs.Regions.{root_of};
ghost use Rattle.cert_check.specs.Verdicts.{IsVerdict};
ghost use Rattle.price_bound.specs.DayMeanings.{meanings_of};
ghost use Rattle.fleets.specs.Fleets.{FitsDay, with_fleet};
ghost use Rattle.fleet_boxes.specs.ProvedBoxes.{IsProvedAt, IsSplit};
ghost use Rattle.fleet_check.specs.Tests.{StopsAt, StopsWith};
ghost use Rattle.fleet_check.specs.Verdicts.{FailsAt};
ghost use Rattle.fleet_check.specs.Walks.{IsFittingBox};

use crate::boxes::place_of;
use crate::day_of_tables::DayOfTables;
use crate::verdict::{FleetVerdict, Stop};
use branch_tree::{Claim, ClaimHead, Region};
use cert_check::{Reason, Verdict, checked};
use fleet_boxes::{BoxNode, FleetBox};
use fleets::{Counts, day_with};
use price_bound::DayBounds;
use rail_base::{NoMemory, StationNo, TypeNo};
use std::alloc::Global;
use timetable::Instance;
use transitions::Graphs;

/// Tests the node of a number in its box.
pub(crate) fn test_node(
    alloc: Global,
    tables: &DayOfTables<'_>,
    number: u32,
    node: &BoxNode,
    fleets: &FleetBox,
) -> Result<(), Stop>
    requires made { IsDayOfBytes tables.now.bytes.now tables.now.instance.now }
    requires fits { IsFittingBox tables.now.instance.now fleets.now }
    ensures passed { IfOk result (λ _. IsProvedAt tables.now.instance.now fleets.now node.now) }
    ensures stops { IfErr result (StopsAt (FailsAt tables.now.instance.now number fleets.now node.now ∷ [])) }
{
    match node {
        BoxNode::Split {
            station,
            unit_type,
            at,
        } => test_split(tables.instance, number, *station, *unit_type, *at, fleets),
        BoxNode::Bound {
            bound,
            branchings,
            tree,
        } => {
            let claim = Claim {
                head: ClaimHead::Bounded { bound: *bound },
                branchings: *branchings,
                tree,
            };
            test_leaf(alloc, tables, number, &claim, &fleets.greatest)
        }
        BoxNode::Nothing { branchings, tree } => {
            let claim = Claim {
                head: ClaimHead::Infeasible,
                branchings: *branchings,
                tree,
            };
            test_leaf(alloc, tables, number, &claim, &fleets.greatest)
        }
    }
}

/// Tests that a split parts its box.
fn test_split(
    instance: &Instance,
    number: u32,
    station: StationNo,
    unit_type: TypeNo,
    at: u32,
    fleets: &FleetBox,
) -> Result<(), Stop>
    requires { IsFittingBox instance.now fleets.now }
    ensures passed { IfOk result (λ _. IsSplit instance.now fleets.now station unit_type at) }
    ensures stops { IfErr result (StopsWith (FleetVerdict.SplitOutside number)
        (IsSplit instance.now fleets.now station unit_type at)) }
{
    if station.0 >= instance.stations() {
        return Err(Stop::Found(FleetVerdict::SplitOutside(number)));
    }
    if unit_type.0 >= instance.types().len() {
        return Err(Stop::Found(FleetVerdict::SplitOutside(number)));
    }
    if fleets.is_parted(place_of(instance, station, unit_type), at) {
        Ok(())
    } else {
        Err(Stop::Found(FleetVerdict::SplitOutside(number)))
    }
}

/// Tests that what is claimed of the day with a fleet is proved by its tree.
fn test_leaf(
    alloc: Global,
    tables: &DayOfTables<'_>,
    number: u32,
    claim: &Claim<'_>,
    fleet: &Counts,
) -> Result<(), Stop>
    requires made { IsDayOfBytes tables.now.bytes.now tables.now.instance.now }
    requires fleet { FitsDay tables.now.instance.now fleet.now }
    ensures passed { IfOk result (λ _. IsProvedClaim (meanings_of (with_fleet fleet.now tables.now.instance.now))
        (root_of (with_fleet fleet.now tables.now.instance.now)) claim.now) }
    ensures stops { IfErr result (StopsWith (FleetVerdict.LeafFails number)
        (IsProvedClaim (meanings_of (with_fleet fleet.now tables.now.instance.now))
        (root_of (with_fleet fleet.now tables.now.instance.now)) claim.now)) }
{
    let day = day_with(alloc, tables.bytes, tables.instance, fleet)?;
    match verdict_on(alloc, &day, claim)? {
        Verdict::Valid => Ok(()),
        Verdict::Invalid(reason) => Err(refuted(number, reason)),
    }
}

/// Where the check of a leaf stops, whatever the reason is for which its claim is not proved.
fn refuted(number: u32, _reason: Reason) -> Stop
    ensures { result ≡ Stop.Found (FleetVerdict.LeafFails number) }
{
    Stop::Found(FleetVerdict::LeafFails(number))
}

/// The verdict on a claim of a day, over the region of all admissible compositions. The error is want of memory.
fn verdict_on(alloc: Global, day: &Instance, claim: &Claim<'_>) -> Result<Verdict, NoMemory>
    ensures { IfOk result (IsVerdict (meanings_of day.now) (root_of day.now) claim.now) }
{
    let graphs = Graphs::build(alloc, day)?;
    let mut root = Region::root(alloc, day)?;
    let mut bounds = DayBounds::new(alloc, day, &graphs)?;
    checked(alloc, &mut bounds, &mut root, claim)
}
