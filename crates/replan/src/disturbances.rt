//! A disturbed day: the day and its plan, and what happens to them.

ghost use Rattle.std.specs.Prelude.{◌≡◌, ◌<◌, ◌≤◌, length};
ghost use Rattle.rail_base.specs.declared.limits.TheConstants.{MAX_CHANGE};
ghost use Rattle.timetable.specs.DerivedDays.{old_number};
ghost use Rattle.timetable.specs.Running.{IsPlan};
ghost use Rattle.cancellations.specs.Cancellations.{AreCancellable};
ghost use Rattle.cancellations.specs.DaysWithout.{IsLaterOf};
ghost use Rattle.replan.specs.Disturbances.{disturbed_by, later_day, planned_types, trips_later};

use arrayvec::ArrayVec;
use cancellations::{Cancelled, Later};
use rail_base::limits::MAX_COMPOSITION_UNITS;
use rail_base::{Minute, TripNo, TypeNo};
use std::marker::Model;
use timetable::{Instance, NamedPlan};

/// A day that is disturbed at a minute. A contract sees the day, the plan that was made of it, the minute, the trips
/// that are cancelled, and what a changed trip costs.
#[derive(Drop)]
pub struct Disturbance<'a> {
    pub(crate) instance: &'a Instance,
    pub(crate) plan: &'a NamedPlan,
    pub(crate) minute: Minute,
    pub(crate) cancelled: &'a Cancelled,
    pub(crate) later: &'a Later,
    pub(crate) change: u32,
}

impl<'a> Model for Disturbance<'a> {
    ghost use Rattle.cancellations.specs.DaysWithout.{IsLaterOf};
    ghost use Rattle.replan.specs.Disturbances.{Disturbed, IsDisturbance, disturbed_by};

    ghost Value = { Disturbed };

    ghost view = { λ a. disturbed_by a.instance.now a.plan.now a.minute a.cancelled.now a.change };

    ghost invariant = { λ a. IsDisturbance (disturbed_by a.instance.now a.plan.now a.minute a.cancelled.now a.change)
        × IsLaterOf a.instance.now a.cancelled.now a.later.now };
}

impl<'a> Disturbance<'a> {
    /// The disturbance of a day and a plan of it, from a minute on: some trips are cancelled, which may be cancelled
    /// then, as those that `read_cancelled` answers for this minute; the later day is the one without them; and to give
    /// a trip other types of units than were planned costs so much, in the unit of the weights, at most 1,000,000. The
    /// plan need not run.
    pub fn new(
        instance: &'a Instance,
        plan: &'a NamedPlan,
        minute: Minute,
        cancelled: &'a Cancelled,
        later: &'a Later,
        change: u32,
    ) -> Disturbance<'a>
        requires plan { IsPlan instance.now plan.now }
        requires cancelled { AreCancellable instance.now minute cancelled.now }
        requires later { IsLaterOf instance.now cancelled.now later.now }
        requires change { change ≤ MAX_CHANGE }
        ensures { result ≡ disturbed_by instance.now plan.now minute cancelled.now change }
    {
        Disturbance {
            instance,
            plan,
            minute,
            cancelled,
            later,
            change,
        }
    }

    /// The later day.
    pub(crate) fn later_day(&self) -> &Instance
        ensures { result.now ≡ later_day self.now }
    {
        &self.later.instance
    }

    /// The minute at which the day is disturbed.
    pub(crate) fn minute(&self) -> Minute
        ensures { result ≡ self.now.minute }
    {
        self.minute
    }

    /// The number that a trip of the later day had before, which is below the number of its trips.
    pub(crate) fn old(&self, trip: TripNo) -> TripNo
        requires { trip < trips_later self.now }
        ensures number { result ≡ old_number self.now.day self.now.cancelled trip }
        ensures known { result < length self.now.day.trips }
    {
        self.later.old(trip)
    }

    /// The types of the units that were planned for a trip of the later day, front to rear. It takes no memory.
    pub(crate) fn planned_types(&self, trip: TripNo) -> ArrayVec<TypeNo, MAX_COMPOSITION_UNITS>
        requires { trip < trips_later self.now }
        ensures { result.items ≡ planned_types self.now trip }
    {
        self.plan.types(self.instance, self.old(trip))
    }
}
