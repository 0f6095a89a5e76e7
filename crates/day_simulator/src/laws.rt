//! The machine and the conditions on a plan say the same, in every order of the day's events. Where something is wrong,
//! the first fault is told.
//!
//! Each law is the contract of a function that does nothing, and says of which days, plans and states it holds. A day
//! is within its limits where each trip arrives after it leaves, what it names is there, and each number is in bounds.
//! Its links are in order where they name trips of the day, no trip arrives for two of them or departs by two, and
//! none departs before one that it goes on from arrives. A plan of the day has for each trip a list of units of the
//! day; it need not run.

ghost use Rattle.day_simulator.specs.EndFaults.{EndsAreTold};
ghost use Rattle.day_simulator.specs.Laws.{IsInFixedOrder, InEveryOrder, RunInFixedOrder, InTurn};
ghost use Rattle.day_simulator.specs.Moments.{MomentsAreOfMinutes};
ghost use Rattle.day_simulator.specs.StepEffects.{StepsChangeStates};
ghost use Rattle.day_simulator.specs.StepTests.{StepsAreTested};

/// Of two events of a day: the one comes at an earlier moment exactly where it comes in an earlier minute, or in the
/// same minute as an arrival before a departure. By these moments the orders of a day go.
pub fn moments_are_of_minutes()
    ensures law { MomentsAreOfMinutes }
{}

/// Of every day, the fixed order, in which the whole day is stepped, is an order of the day: each trip departs once
/// and arrives once, minutes never fall, and in each minute arrivals come before departures. Arrivals of one minute
/// come by rising trip number, and so do departures.
pub fn is_in_fixed_order()
    ensures law { IsInFixedOrder }
{}

/// Of a day within its limits whose links are in order, and a plan of the day: in every order of the day's events, all
/// of them go through to the end exactly where the plan runs. Then each unit is in the yard of its last place, ready
/// at the same minute, and the day costs what the plan costs, whichever the order was.
pub fn runs_in_every_order()
    ensures law { InEveryOrder }
{}

/// Of a day within its limits whose links are in order, and a plan of the day: in the fixed order, the day goes
/// through to its end exactly where the plan runs, and then costs what the plan costs.
pub fn runs_exactly()
    ensures law { RunInFixedOrder }
{}

/// Of a day within its limits whose links are in order: in the fixed order no event is out of turn, and none is
/// missing at the end, whatever the plan is. A plan stops for a cause of its own.
pub fn is_always_in_turn()
    ensures law { InTurn }
{}

/// Of a plan of the day, a state that has a place for each unit, and an event of one of the day's trips: its fault is
/// that of the first test that fails, and there is none exactly where none fails. A departure is tested in this order:
/// it comes now; the trip has units; their types are admissible; the rule of the join into it holds, where a join leads
/// into it; each unit that it takes, from the front on, stands in the yard of its station, is ready, and is none of
/// those before it. An arrival comes now, and the rule of the turn or split on from it holds, where one leads on.
pub fn steps_are_tested()
    ensures law { StepsAreTested }
{}

/// Of a plan of the day, a state that has a place for each unit and a stage for each trip, and an event of one of the
/// day's trips, the state after it: when the trip leaves, it is under way and the units of its list are aboard; when it
/// arrives, it has arrived, those that it gives stand in the yard of the station that it comes to, ready once the
/// reallocation time is over, and the others of its list stand in its train. All other units and trips are as they
/// were. The last minute is that of the event, and it counts as one with a departure exactly where the event is one.
/// There are as many places as units and as many stages as trips again, so that the law says of the next event what it
/// says of this one.
pub fn steps_change_states()
    ensures law { StepsChangeStates }
{}

/// Of any state: what is told at the end of the day is the first event that was not made, by minute, in a minute
/// arrivals before departures, and then by trip number; or else the first station and type, in this order, of which the
/// yard has another number of units than is wanted, with both numbers; or else what the plan costs.
pub fn ends_are_told()
    ensures law { EndsAreTold }
{}
