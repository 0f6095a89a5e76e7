//! Whether picks that follow are a solution, and where they are broken if they are none.

ghost use Rattle.std.specs.Prelude.{◌≡◌, ◌-ℤ◌, pos};
ghost use Rattle.timetable.specs.Accepted.{IsSoundDay};
ghost use Rattle.timetable.specs.Indices.{IsPlace};
ghost use Rattle.transitions.specs.Edges.{AreGraphs};
ghost use Rattle.branch_tree.specs.Bounds.{IsSettled};
ghost use Rattle.price_bound.specs.ChangedDays.{AreChanges, changed_day, changed_meanings};
ghost use Rattle.price_bound.specs.FollowingPicks.{Follow};
ghost use Rattle.price_bound.specs.BrokenPlaces.{Names, fault_sign, place_of_fault};
ghost use Rattle.price_bound.specs.Slacks.{sign_of};

use crate::changes::{Change, added_cost};
use crate::parts::first_missed;
use crate::priced_costs::added;
use branch_tree::Settled;
use cost_model::cost;
use inventory::{Ledger, StockFault};
use timetable::{Instance, Picks, Place};
use transitions::Graphs;

/// Whether picks that follow are a solution, and its cost; else an index at which they have a slack, and its sign: that
/// of the first hand-over whose second trip misses the part, and of the part; or that of the first fault of the yards.
/// The ledger is one of the day. The cost is that under changes. It takes no memory.
pub(crate) fn settle(
    instance: &Instance,
    graphs: &Graphs,
    changes: &[Change],
    ledger: &mut Ledger<'_>,
    picks: &Picks,
) -> Settled
    requires accepted { IsSoundDay instance.now }
    requires graphs { AreGraphs instance.now graphs.now }
    requires changes { AreChanges instance.now changes.now }
    requires ledger { ledger.old.day ≡ instance.now }
    requires follow { Follow instance.now picks.now }
    ensures day { ledger.new.day ≡ ledger.old.day }
    ensures settled { IsSettled (changed_meanings (changed_day instance.now changes.now)) picks.now result }
{
    if let Some(place) = first_missed(instance, graphs, picks) {
        return broken_at(instance, place, 1);
    }
    ledger.load(picks);
    match ledger.first_fault() {
        Some(fault) => broken_by(instance, fault),
        None => {
            let more = added_cost(changes, picks);
            Settled::Costs(added(cost(instance, picks), more))
        }
    }
}

/// Broken by a fault of the yards.
fn broken_by(instance: &Instance, fault: StockFault) -> Settled
    requires { IsPlace instance.now (place_of_fault fault) }
    ensures { Names instance.now (place_of_fault fault) (fault_sign instance.now fault) result }
{
    match fault {
        StockFault::Short {
            station,
            unit_type,
            place,
            ..
        } => {
            let place = Place::Lambda {
                station,
                unit_type,
                place,
            };
            broken_at(instance, place, 1)
        }
        StockFault::Balance {
            station,
            unit_type,
            count,
        } => {
            let sign = sign_between(instance.end(station, unit_type), count);
            broken_at(instance, Place::Mu { station, unit_type }, sign)
        }
    }
}

/// Broken at a place, with a sign.
fn broken_at(instance: &Instance, place: Place, sign: i8) -> Settled
    requires { IsPlace instance.now place }
    ensures { Names instance.now place sign result }
{
    Settled::Broken {
        index: instance.index(place),
        sign,
    }
}

/// The sign of what is wanted less what is there.
fn sign_between(wanted: u32, there: i64) -> i8
    ensures { result ≡ sign_of (pos wanted -ℤ there) }
{
    if there < i64::from(wanted) { 1 } else { -1 }
}
