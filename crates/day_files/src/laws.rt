//! What the reading of a folder gives, in the words of files.

ghost use Rattle.std.specs.Prelude.{◌≡◌, ◌↔◌, ℕ, List, Ok, Err};
ghost use Rattle.rail_io.specs.Folders.{Files};
ghost use Rattle.day_files.specs.declared.errors.Refusal.{Refusal};
ghost use Rattle.timetable.specs.Day.{Day};
ghost use Rattle.day_files.specs.declared.inputs.Inputs.{Inputs};
ghost use Rattle.day_files.specs.Inputs.{day_in, inputs_in};
ghost use Rattle.day_files.specs.OneFile.{PathsNest};
ghost use Rattle.day_files.specs.Tables.{AreAcceptedAsDay, IsMadeDay};
ghost use Rattle.timetable.specs.Accepted.{IsSoundDay};
ghost use Rattle.day_files.specs.Acceptance.{AreAccepted, IsFirstRefusal, IsOfPlan};

/// For every folder: its six files are accepted as a day exactly where each of them is a table of its rows, and the
/// tables make the day. A refusal comes exactly where its file is the first that is wrong by itself, and wrong in this
/// way; or, where all six are right, the tables make no day for this reason. It is never one of the plan.
pub fn what_is_accepted_as_day()
    ensures accepted { (files : Files) (dir : List ℕ) (day : Day)
        → (day_in files dir ≡ Ok day) ↔ AreAcceptedAsDay files dir day }
    ensures refused { (files : Files) (dir : List ℕ) (why : Refusal)
        → (day_in files dir ≡ Err why) ↔ (IsFirstRefusal files dir why × ¬ IsOfPlan why) }
{}

/// For every folder: its files are accepted as a day and a plan exactly where each of the seven is a table of its rows,
/// the six tables make the day and the rows of the plan make the plan. A refusal comes exactly where its file is the
/// first that is wrong by itself, and wrong in this way; or, where all six are right, the tables make no day for this
/// reason; or, where they make a day and the file of the plan is right, its rows make no plan of it for this reason.
/// The file of the plan counts only where the tables make a day.
pub fn what_is_accepted()
    ensures accepted { (files : Files) (dir : List ℕ) (inputs : Inputs)
        → (inputs_in files dir ≡ Ok inputs) ↔ AreAccepted files dir inputs }
    ensures refused { (files : Files) (dir : List ℕ) (why : Refusal)
        → (inputs_in files dir ≡ Err why) ↔ IsFirstRefusal files dir why }
{}

/// A day as which the files of a folder are accepted is one that tables make whose rows keep within the ranges of their
/// columns, and every such day is sound: of it holds what the laws on days ask for, those on plans that run, on yards,
/// on the day's machine and on bounds.
pub fn accepted_days_are_sound()
    ensures made { (files : Files) (dir : List ℕ) (day : Day) → day_in files dir ≡ Ok day → IsMadeDay day }
    ensures sound { (day : Day) → IsMadeDay day → IsSoundDay day }
{}

/// A folder may lie below another: the path of a file in the folder `below` of a folder `dir` is that of the file in
/// `dir` which is called by both names, as `2/stock.csv`.
pub fn paths_nest()
    ensures nest { PathsNest }
{}
