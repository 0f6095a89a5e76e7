//! What is so of duties, of picked compositions and of named units, whether a call meets it or not.
//!
//! Each law is the contract of a function that does nothing.

ghost use Rattle.unit_duties.specs.DutyLaws.{DutiesAreInOrder};
ghost use Rattle.unit_duties.specs.LaterDays.{PlansNameTheirPastLater, DaysWithoutAreLater};
ghost use Rattle.unit_duties.specs.TakingLaws.{TripsTakeInTurn};

pub use inventory::naming_laws::named_plans_run;
pub use inventory::solution_laws::faults_decide;

/// The duty of a unit is the trips of the day whose lists have the unit, each once, and of any two of them the first
/// one leaves before the other, or at the same minute and has the smaller number. No other list of trips is so. The
/// plan need not run.
pub fn duties_are_in_order()
    ensures law { DutiesAreInOrder }
{}

/// Where the rule of each link holds of the types, and a plan is named by the rule, trips take units from the yards as
/// they leave, and of those that leave at one minute the one with the smaller number takes first. Each trip fills its
/// places from front to rear. A place gets the unit of its type that was ready earliest, and of those the one with the
/// smallest number, of the units that stand in the yard, are ready and were not taken for a place before it, where
/// there is one.
pub fn trips_take_in_turn()
    ensures law { TripsTakeInTurn }
{}

/// A later day has some of the trips of a day, in their order, among them each that leaves before a minute, and some
/// of its links, among them each by which such a trip leaves. Of a trip it is asked that it leaves and arrives when and
/// where it did, and that its units are ready when they were. The trips of a plan that runs in the day are then named
/// in the later day as the rules demand it, up to the minute, with all compositions that are the plan's on each trip
/// of the later day that is frozen there: that leaves before the minute, or to which a link leads from a trip that
/// arrives before it.
pub fn plans_name_their_past_later()
    ensures law { PlansNameTheirPastLater }
{}

/// The day without some trips is such a later day where none of these leaves before the minute, nor by a link by which
/// another trip leaves before it, as the other trip of a split may.
pub fn days_without_are_later()
    ensures law { DaysWithoutAreLater }
{}
