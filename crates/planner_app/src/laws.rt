//! What holds of every answer that is found to a day, and of every outcome that the files tell.
//!
//! A law is the contract of a function that does nothing.

ghost use Rattle.commands.specs.Limits.{AreWordLimits};
ghost use Rattle.planner_app.specs.Laws.{HeadlinesAreReported, HeadlinesAreValid};
ghost use Rattle.planner_app.specs.Laws.{OthersAreTold, OutcomesAreOne, SearchesAreApart};
ghost use Rattle.planner_app.specs.Limits.{AreColumnLimits, AreDayLimits, AreFieldLimits, AreHeaderLimits};
ghost use Rattle.planner_app.specs.Limits.{AreRowLimits, AreRunLimits};

pub use answer_check::laws::valid_answers_are_found;

/// What `plan DIR` writes is valid: where `answer.txt` in a folder is the text of an answer that meets the headline of
/// the day in that folder, `check DIR` ends with status 0, unless it ends with 5, 6 or 7.
/// A report on it ends likewise, where the answer has a plan.
pub fn headlines_are_valid()
    ensures check { HeadlinesAreValid }
    ensures report { HeadlinesAreReported }
{}

/// Two runs of the same words, over folders that hold the same files, come to one outcome, and so to one document and
/// one status, where the files tell it: what a run of the plan comes to, what is found of the answer, what a report
/// says, what is refused, and that the words are not understood. Files don't tell the answer that a search finds, since
/// another may meet the headline too, nor that a file could not be read or memory ran out.
/// Where one run comes to an outcome that files tell, no search of the other comes to an answer: so that `plan` ends
/// with 3 is told by the files alone too.
/// Every outcome but these is told so, where the status is none of 5, 6 and 7.
pub fn outcomes_are_one()
    ensures one { OutcomesAreOne }
    ensures search { SearchesAreApart }
    ensures others { OthersAreTold }
{}

/// The limits of tables, headers, fields, columns, days, words, files and answers, the minutes of an hour, and what an
/// option is that is not given, as numbers.
pub fn limits_are_these()
    ensures rows { AreRowLimits }
    ensures headers { AreHeaderLimits }
    ensures fields { AreFieldLimits }
    ensures columns { AreColumnLimits }
    ensures days { AreDayLimits }
    ensures words { AreWordLimits }
    ensures runs { AreRunLimits }
{}
