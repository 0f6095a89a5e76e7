//! What is so of days, tables and plans, whether a call meets them or not.
//!
//! Each law is the contract of a function that does nothing.

ghost use Rattle.timetable.specs.DerivedDays.{OtherStockKeepsTimetables, TablesMakeDaysWithout, TripsThatAreLeft};
ghost use Rattle.timetable.specs.Laws.{DaysAreMade, PlansAreMade, ChainsAreOne, KeepTheLongest, HaveParts};
ghost use Rattle.timetable.specs.Laws.{UnitsAreNumbered, UnitsAreAtHome, RowsSayStock, UnitsAreInOnePlace};
ghost use Rattle.timetable.specs.Laws.{NamesAreFound, SeatsAreMissingByClass, PlacesHaveMultipliers};
ghost use Rattle.timetable.specs.Laws.{TablesMakeSoundDays};
ghost use Rattle.timetable.specs.LinkCounts.{LinksCount, TripsCount};
ghost use Rattle.timetable.specs.Renumbering.{RenumberedPlansRun, UnitsAreRenumberedBack, KthUnitsAreRenumbered};
ghost use Rattle.timetable.specs.Renumbering.{PlansRunAmong, KthUnitsAreAmong};
ghost use Rattle.timetable.specs.Running.{RunsInParts};
ghost use Rattle.timetable.specs.TurnsWithoutExchange.{IsPlainTurn};

/// Tables make a day exactly where no test on them fails, and a refusal is that of the first test that fails. A day is
/// the one that they make exactly where it is the day of the tables in their own words.
pub fn days_are_made()
    ensures law { DaysAreMade }
{}

/// Every day that tables make whose rows keep within the ranges of their columns is sound: of it holds what the laws on
/// days ask for.
pub fn tables_make_sound_days()
    ensures law { TablesMakeSoundDays }
{}

/// On a day whose names are apart, as those of every accepted day are, the name of each station is found as the number
/// of this station, and the name of each trip as the number of this trip.
pub fn names_are_found()
    ensures law { NamesAreFound }
{}

/// Rows make a plan of a day exactly where no test on them fails, and a refusal is that of the first test that fails. A
/// plan is the one that they make exactly where it is the plan of the rows in their own words.
pub fn plans_are_made()
    ensures law { PlansAreMade }
{}

/// Units are numbered by stock row and then within the row: the unit whose number is k more than the starts of all
/// rows before a row, where k is below the start of that row, is of the row's type and at home at the row's station.
/// There are as many units as the starts of all rows together, and so no others.
pub fn units_are_numbered()
    ensures law { UnitsAreNumbered }
{}

/// Where a station has at most one stock row of a type, as many of the numbered units of the type are at home there as
/// the row says for the start of the day, and none where it has no such row.
pub fn units_are_at_home()
    ensures law { UnitsAreAtHome }
{}

/// The stock row of a station and a type says how many units of the type stand there at the start of the day, and how
/// many are wanted there at its end, where no other row is of the two. Where none is, none stand there and none are
/// wanted.
pub fn rows_say_stock()
    ensures law { RowsSayStock }
{}

/// A day with other stock rows has the same timetable: that its trips, stations, types, links and weights are within
/// the limits stays known, what is known of its links, and which compositions it has and that some may run on each
/// trip.
pub fn other_stock_keeps_timetables()
    ensures law { OtherStockKeepsTimetables }
{}

/// Where tables make a day, they make the day without some of its trips once the rows of these trips, and the rows of
/// the links that name one of them, are gone.
pub fn tables_make_days_without()
    ensures law { TablesMakeDaysWithout }
{}

/// The trips of a day without some are those that are left, in the same order: each is what it was, and the number that
/// it has then and the number that it had before lead to one another.
pub fn trips_that_are_left()
    ensures law { TripsThatAreLeft }
{}

/// In a plan that runs with any units each of them is in one place at a time, where every trip takes time and the trips
/// of each link meet at a station in time, as on every accepted day. Of two trips that follow one another in its duty
/// the second leaves from the station where the first arrives, and no earlier than it arrives; and of any two trips of
/// the duty the later one leaves no earlier than the earlier one arrives.
pub fn units_are_in_one_place()
    ensures law { UnitsAreInOnePlace }
{}

/// Where the rule of a link holds, the list of each arriving trip has a unit as often as what the link gives to the
/// yard of it, and what it keeps of it for its departing trips, have it together. The list of each departing trip has
/// it as often as what the link takes from the yard for it, and what it kept of its arriving trips. The lists may be
/// of types.
pub fn links_count()
    ensures law { LinksCount }
{}

/// Where the rule of each link holds, on a day whose links are as on every accepted day, the list of each trip has a
/// unit as often as what the trip gives to the yard, and what is kept of it for the trips of the day, have it
/// together; and as often as what it takes from the yard, and what was kept for it. The lists may be of any units, or
/// of types.
pub fn trips_count()
    ensures law { TripsCount }
{}

/// A plan runs exactly where it runs through the day and ends it with as many units of each type at each station as
/// are wanted there. Only the latter goes by the stock rows.
pub fn plans_run_in_parts()
    ensures law { RunsInParts }
{}

/// Where units are given the numbers of other units, one to one, each that of a unit of its type that stands at the
/// same station, a plan runs exactly where it runs with the new numbers. Its trips have the same types then, so it
/// costs the same, and each unit has the same duty.
pub fn renumbered_plans_run()
    ensures law { RenumberedPlansRun }
{}

/// Where some of the others are left over, a plan that runs through the day runs with the new numbers through the same
/// day with any stock rows. It costs the same, and each unit has the same duty. The others that are left over stay
/// where they stand: as many more end the day at a station, of each type, as stood there more at its start.
pub fn plans_run_among()
    ensures law { PlansRunAmong }
{}

/// Such numbers lead back: there are numbers of the one kind for the others, and each undoes the other.
pub fn units_are_renumbered_back()
    ensures law { UnitsAreRenumberedBack }
{}

/// Where no fewer of the others, of each type, stand at each station, each unit is given the number of one of these:
/// the k-th unit of a type at a station that of the k-th of the others of this type there.
pub fn kth_units_are_among()
    ensures law { KthUnitsAreAmong }
{}

/// Where as many units of each type stand at each station, these numbers leave none of the others over.
pub fn kth_units_are_renumbered()
    ensures law { KthUnitsAreRenumbered }
{}

/// The seats that are missing on a trip are those of first class and those of second class. Of each class none is
/// missing where there are as many seats as are wanted, or more; and where there are fewer, the seats and the missing
/// ones are as many as are wanted.
pub fn seats_are_missing_by_class()
    ensures law { SeatsAreMissingByClass }
{}

/// Where no trip arrives for two links or departs by two, and links keep time, as on every accepted day, no other
/// lists are the chains of the day.
pub fn chains_are_one()
    ensures law { ChainsAreOne }
{}

/// A turn keeps as many units, by their types, as the longest list of types that is left of the arriving list at the
/// uncoupling end and of the departing list at the coupling end, and none where no list is. A join and a split keep
/// no such list.
pub fn links_keep_the_longest()
    ensures law { KeepTheLongest }
{}

/// A turn has parts exactly where a list of types is kept, the same units of these types stay in both lists, and no
/// more units are given and taken than may be; then the arriving list is the units that stay and, at the uncoupling
/// end, those that are given, and the departing list is they and, at the coupling end, those that are taken.
pub fn turns_have_parts()
    ensures law { HaveParts }
{}

/// A turn without exchange, between lists that are not empty: the departing units are the arriving ones, or what is
/// left of them after some were uncoupled, or they with some coupled.
pub fn turns_without_exchange()
    ensures law { IsPlainTurn }
{}

/// The multipliers of a day are one for each station, type and departure minute of the station, one for each station
/// and type, and one for each hand-over and composition, and no others. Their indices are in this order of kinds, and
/// within a kind in the order in which its parts are named here; so the first are those of departure minutes.
pub fn places_have_multipliers()
    ensures law { PlacesHaveMultipliers }
{}
