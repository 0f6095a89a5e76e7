//! What holds of answers and of verdicts on them.
//!
//! A law is the contract of a function that does nothing.

ghost use Rattle.answer_check.specs.Laws.{AnswerVerdictsAreOne, RenumberedIsTrue, ValidAnswersAreFound};
ghost use Rattle.answer_check.specs.RegionTruths.{ConcludedIsTrueIn, TrueInRootsIsTrueOfDays};

/// Of a valid answer `check_answer` finds that it is valid, or memory is wanting: no other verdict on it is right.
pub fn valid_answers_are_found()
    ensures law { ValidAnswersAreFound }
{}

/// An answer has one verdict, so that the first thing that is wrong with it is one.
pub fn answer_verdicts_are_one()
    ensures law { AnswerVerdictsAreOne }
{}

/// What is concluded of all solutions in a region of a day, under changes, is true of the plans that run by picks in
/// it: the plan of an optimal answer costs least of them, with what the changes add, none runs where there is no
/// solution, and none costs less than a bound. In the region of an accepted day, where nothing is changed, that is what
/// is true of all plans of the day.
pub fn conclusions_hold_in_a_region()
    ensures law { ConcludedIsTrueIn }
    ensures of_day { TrueInRootsIsTrueOfDays }
{}

/// What an answer says of the plans of some units is true of the plans of others that have the same types and stand at
/// the same stations, where its runs have their numbers.
pub fn truths_are_renumbered()
    ensures law { RenumberedIsTrue }
{}
