//! What holds of the reports of every day, whatever the plan or the compositions of its trips are.
//!
//! A law is the contract of a function that does nothing.

ghost use Rattle.day_reports.specs.Laws.{TimesAreReadAgain, YardsAddUp};
ghost use Rattle.day_reports.specs.Layouts.{CostsAreByPart, DutiesAreByUnit, YardsAreByStation};

/// The report of duties is the line `unit,type,home,trip,from,departure,to,arrival,position`, and then a block for each
/// unit, by its number, with the rows of its duty. Read by the rule of the tables of a day it is again the words of
/// that line and these rows, field by field.
pub fn duties_are_by_unit()
    ensures law { DutiesAreByUnit }
{}

/// The report of yards is the line `station,type,time,taken,ready,count`, and then a block for each station and type,
/// with the rows of that type there. Of n types the block of type m at station s has s n + m blocks before it: those of
/// all types at the stations before, and those of the types before at its own. Read by the rule of the tables of a day
/// the report is again the words of that line and these rows, field by field.
pub fn yards_are_by_station()
    ensures law { YardsAreByStation }
{}

/// The report of costs, byte for byte: the line `part,amount`, and then a line each for `carriage`, `shortage`,
/// `shunting` and `total`, with a comma and the amount in decimal digits.
pub fn costs_are_by_part()
    ensures law { CostsAreByPart }
{}

/// The rows of a type at a station: one of the start, in which nothing is taken or ready, with the units that stand
/// there at the start of the day; one of each departure minute of the station, in their order, with that minute as its
/// time; and one of the end, in which nothing is taken. The count of a departure minute, with what is taken then, is
/// the count of the row before with what became ready since that row; the count of the end is that of the row before
/// with what became ready after it. What is taken in the rows up to a minute adds up to all that is taken by then, and
/// what is ready in them to all that is ready by then; and in all rows to all that is taken and all that is given.
pub fn yards_add_up()
    ensures law { YardsAddUp }
{}

/// The text of each minute of the two days that a time may be in, as reports print it, is that of a time which a table
/// may have, and is read as the same minute.
pub fn times_are_read_again()
    ensures law { TimesAreReadAgain }
{}
