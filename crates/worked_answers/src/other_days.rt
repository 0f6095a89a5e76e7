//! What an answer and a plan come to with other units, in larger fleets, on the next day, where a day is planned again
//! and where some of its trips are gone, and where the files of such days lie: as it is concluded from the laws by
//! whoever stands on them.
//!
//! Each is the contract of a function that does nothing but call the laws.

ghost use Rattle.worked_answers.specs.DeepFiles.{DeepFilesAreCalled};
ghost use Rattle.worked_answers.specs.EndedSearches.{EnoughBranchingsEnd};
ghost use Rattle.worked_answers.specs.LeftTrips.{DaysWithoutAreSound, LeftTripsRunAsBefore};
ghost use Rattle.worked_answers.specs.OtherDays.{AnswersHoldOfUnits, PlansRunInLargerFleets, WeeksGoOn};
ghost use Rattle.worked_answers.specs.OtherDays.{PlansAreNamedAgain, PastsAreTakenUp, PlansAreNamedWithout};
ghost use Rattle.worked_answers.specs.OtherDays.{UnitsStayAtLinks, UnitsStayInTrains};
ghost use Rattle.worked_answers.specs.SwappedDuties.{NoDutyIsNew, UnitsMaySwap};

use answer_check::laws::truths_are_renumbered;
use day_files::laws::paths_nest;
use day_planner::laws::{days_are_answerable, said_answers_are_proved};
use inventory::naming_laws::{
    named_plans_run, names_stay, plans_name_their_past, served_plans_run_with_units,
};
use inventory::serving_laws::{plans_of_units_are_served, units_are_left};
use price_bound::DayBounds;
use timetable::laws::{
    kth_units_are_among, kth_units_are_renumbered, links_count, other_stock_keeps_timetables,
    plans_run_among, plans_run_in_parts, renumbered_plans_run, tables_make_days_without,
    tables_make_sound_days, trips_count, trips_that_are_left, units_are_renumbered_back,
};
use unit_duties::laws::{days_without_are_later, plans_name_their_past_later};

/// What the answer to a day says is true of any units of which as many, of each type, stand at each station.
fn answers_hold_of_units()
    ensures law { AnswersHoldOfUnits }
{
    kth_units_are_renumbered();
    truths_are_renumbered();
}

/// A plan that runs in a day runs where the fleet is larger, and as many more units are wanted at the end where they
/// stand.
fn plans_run_in_larger_fleets()
    ensures law { PlansRunInLargerFleets }
{
    kth_units_are_among();
    plans_run_among();
    plans_run_in_parts();
}

/// A day may begin with the units as a plan of the day before leaves them.
fn weeks_go_on()
    ensures law { WeeksGoOn }
{
    units_are_left();
    other_stock_keeps_timetables();
    served_plans_run_with_units();
    plans_of_units_are_served();
}

/// From a minute on a plan that runs is named again for other compositions, and so are trips that are named as it is
/// asked; also in the day without some trips.
fn plans_are_named_again()
    ensures same_day { PlansAreNamedAgain }
    ensures past { PastsAreTakenUp }
    ensures without_trips { PlansAreNamedWithout }
{
    plans_name_their_past();
    names_stay();
    days_without_are_later();
    plans_name_their_past_later();
    named_plans_run();
}

/// A unit that is not given stays in the train.
fn units_stay_in_trains()
    ensures at_links { UnitsStayAtLinks }
    ensures in_plans { UnitsStayInTrains }
{
    links_count();
    trips_count();
}

/// Two units of one type that stand at one station may run each other's duties, and where units get the numbers of
/// others no duty is new.
fn duties_go_over()
    ensures swap { UnitsMaySwap }
    ensures old { NoDutyIsNew }
{
    renumbered_plans_run();
    units_are_renumbered_back();
}

/// A day that tables make is sound without some of its trips, and the others run as they did.
fn days_without_trips_are_days()
    ensures sound { DaysWithoutAreSound }
    ensures trips { LeftTripsRunAsBefore }
{
    tables_make_sound_days();
    tables_make_days_without();
    trips_that_are_left();
}

/// An answer to a day under changes in a region says no bound where enough branchings are granted, and what it says is
/// so of the solutions in the region.
fn enough_branchings_end()
    ensures law { EnoughBranchingsEnd }
{
    days_are_answerable();
    said_answers_are_proved::<DayBounds<'static>>();
}

/// A file that lies three folders deep is called in the first of them by the names of the other two and its own.
fn deep_files_are_called()
    ensures law { DeepFilesAreCalled }
{
    paths_nest();
}

#[test]
fn laws_go_together() {
    answers_hold_of_units();
    plans_run_in_larger_fleets();
    weeks_go_on();
    plans_are_named_again();
    units_stay_in_trains();
    duties_go_over();
    days_without_trips_are_days();
    enough_branchings_end();
    deep_files_are_called();
}
