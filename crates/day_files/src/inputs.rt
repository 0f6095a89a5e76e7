//! The day and the plan of a folder: the tables, the day that they make, and the plan of it.

ghost use Rattle.std.specs.Prelude.{◌≡◌, ◌≢◌, [], Some, Ok, Result, IfOk, IfErr, ⊤};
ghost use Rattle.rail_csv.specs.declared.rows.Table.TheVariants.{Plan};
ghost use Rattle.rail_io.specs.Folders.{CountsFault, Files, OnlyReads};
ghost use Rattle.rail_csv.specs.Rows.{ArePlanRows};
ghost use Rattle.timetable.specs.Build.{day_of};
ghost use Rattle.timetable.specs.DayTables.{IsDayOfBytes};
ghost use Rattle.timetable.specs.Plans.{plan_of};
ghost use Rattle.timetable.specs.Running.{IsPlan};
ghost use Rattle.day_files.specs.OneFile.{tells_unread};
ghost use Rattle.day_files.specs.Tables.{AreTables, IsMadeDay, IsMadePlan};
ghost use Rattle.day_files.specs.UnitTables.{AreUnitTables, AreUnitTablesIn};
ghost use Rattle.day_files.specs.Kept.{AreReadFrom};
ghost use Rattle.day_files.specs.Inputs.{as_day, as_plan, day_in, inputs_in, tables_in};
ghost use Rattle.day_files.specs.Order.{Reaches};
ghost use Rattle.day_files.specs.Answers.{Reads, ReadsAs, IsCaused, IsMade, IsErrorOf, is_unread};

use crate::errors::{ReadError, Refusal};
use crate::tables::{ReadTable, table_in};
use rail_csv::{PlanRow, StationRow, StockRow, TableBytes, TypeRow};
use rail_io::Folder;
use std::alloc::Global;
use timetable::{Instance, InstanceRefusal, NamedPlan, PlanRefusal, Rows, Tables};

/// A day and a plan of it.
#[derive(Drop)]
pub struct Inputs {
    /// The day.
    pub instance: Instance,
    /// The plan.
    pub plan: NamedPlan,
}

/// The six tables of a day, and the bytes that they were read from.
#[derive(Drop)]
struct ReadTables {
    bytes: TableBytes,
    tables: Tables,
}

/// The six tables, read in their order, and their bytes. The first file that is refused or cannot be read ends the
/// reading.
#[tactic(auto, unfolding(crate::specs::Inputs::tables_in))]
fn tables_in<F: Folder>(alloc: Global, folder: &mut F, dir: &str) -> Result<ReadTables, ReadError>
    // What the files come to.
    ensures told { (files : Files) → (F.state folder.old).holds ≡ Some files
        → ReadsAs (λ read. read.tables) (Reaches files dir.now) result (tables_in files dir.now) }
    ensures within { IfOk result (λ read. AreTables read.tables) }
    ensures kept { IfOk result (λ read. AreReadFrom read.bytes read.tables) }

    // What an error says, and what stays.
    ensures says { IfErr result (IsErrorOf (λ table. table ≢ Plan)) }
    ensures caused { IfErr result (IsCaused dir.now (F.state folder.old) (F.state folder.new)) }
    ensures fault_counted { CountsFault (tells_unread is_unread result) (F.state folder.old) (F.state folder.new) }
    ensures only_reads { OnlyReads (F.state folder.old) (F.state folder.new) }
{
    let units = UnitTables {
        types: table_in(alloc, folder, dir)?,
        stations: table_in(alloc, folder, dir)?,
        stock: table_in(alloc, folder, dir)?,
    };
    tables_with(alloc, folder, dir, units)
}

/// The tables of units, with their types and the stations where they stand, which are read first.
#[derive(Drop)]
struct UnitTables {
    types: ReadTable<Rows<TypeRow>>,
    stations: ReadTable<Rows<StationRow>>,
    stock: ReadTable<Rows<StockRow>>,
}

/// The six tables, of which these were read.
#[tactic(auto, using(crate::proofs::Keeping::kept), unfolding(crate::specs::Inputs::tables_in))]
fn tables_with<F: Folder>(
    alloc: Global,
    folder: &mut F,
    dir: &str,
    units: UnitTables,
) -> Result<ReadTables, ReadError>
    // The tables that were read.
    requires read { (files : Files) → (F.state folder.old).holds ≡ Some files → AreUnitTablesIn files dir.now units }
    requires within { AreUnitTables units }

    // What the files come to.
    ensures told { (files : Files) → (F.state folder.old).holds ≡ Some files
        → ReadsAs (λ read. read.tables) (Reaches files dir.now) result (tables_in files dir.now) }
    ensures within { IfOk result (λ read. AreTables read.tables) }
    ensures kept { IfOk result (λ read. AreReadFrom read.bytes read.tables) }

    // What an error says, and what stays.
    ensures says { IfErr result (IsErrorOf (λ table. table ≢ Plan)) }
    ensures caused { IfErr result (IsCaused dir.now (F.state folder.old) (F.state folder.new)) }
    ensures fault_counted { CountsFault (tells_unread is_unread result) (F.state folder.old) (F.state folder.new) }
    ensures only_reads { OnlyReads (F.state folder.old) (F.state folder.new) }
{
    let trips = table_in(alloc, folder, dir)?;
    let links = table_in(alloc, folder, dir)?;
    let weights = table_in(alloc, folder, dir)?;
    let UnitTables {
        types,
        stations,
        stock,
    } = units;
    Ok(ReadTables {
        bytes: TableBytes {
            types: types.bytes,
            stations: stations.bytes,
            stock: stock.bytes,
            trips: trips.bytes,
            links: links.bytes,
            weights: weights.bytes,
        },
        tables: Tables {
            types: types.table,
            stations: stations.table,
            stock: stock.table,
            trips: trips.table,
            links: links.table,
            weights: weights.table,
        },
    })
}

/// The day of tables, whose rows keep within the ranges of their columns.
#[tactic(auto, using(crate::proofs::Accepted::made_of))]
fn day_of(alloc: Global, tables: Tables) -> Result<Instance, ReadError>
    requires { AreTables tables }
    ensures told { Reads (λ _. ⊥) result (as_day (day_of tables)) }
    ensures made { IfOk result IsMadeDay }
    ensures exact { IfOk result (λ day. day_of tables ≡ Ok day) }
    ensures ended { IfErr result IsMade }
    ensures says { IfErr result (IsErrorOf (λ _. ⊥)) }
{
    match Instance::build(alloc, tables) {
        Ok(instance) => Ok(instance),
        Err(InstanceRefusal::NoMemory) => Err(ReadError::NoMemory),
        Err(why) => Err(ReadError::Refused(Refusal::NoDay(why))),
    }
}

/// The plan of a day that rows make, which keep within the ranges of their columns.
#[tactic(auto, using(crate::proofs::Accepted::made_plan))]
fn plan_of(alloc: Global, instance: &Instance, rows: &[PlanRow]) -> Result<NamedPlan, ReadError>
    requires made { IsMadeDay instance.now }
    requires rows { ArePlanRows rows.now }
    ensures told { Reads (λ _. ⊥) result (as_plan (plan_of instance.now rows.now)) }
    ensures ended { IfErr result IsMade }
    ensures says { IfErr result (IsErrorOf (λ table. table ≡ Plan)) }
    ensures is_plan { IfOk result (λ plan. IsPlan instance.now plan) }
    ensures made { IfOk result (IsMadePlan instance.now) }
{
    match NamedPlan::build(alloc, instance, rows) {
        Ok(plan) => Ok(plan),
        Err(PlanRefusal::NoMemory) => Err(ReadError::NoMemory),
        Err(why) => Err(ReadError::Refused(Refusal::NoPlan(why))),
    }
}

/// The day that the six tables of a folder make: `types.csv`, `stations.csv`, `stock.csv`, `trips.csv`, `links.csv` and
/// `weights.csv`, read in this order. The first file that is refused or cannot be read ends the reading, and the rules
/// of the day come after the six files. The day is one that tables make whose rows keep within the ranges of their
/// columns, also where the folder doesn't tell what it holds.
///
/// - `CannotRead`: the count of faults rose or stands at its last value, and a read of that file may fail. It is
///   never the file of the plan, which isn't read.
/// - `Refused`: a file is refused, never that of the plan, or the tables make no day. It is never want of memory.
/// - `NoMemory`: want of memory.
///
/// Where the folder tells what it holds, each file before that one is accepted. Where it counts its failed calls, the
/// count rises by one where the answer is `CannotRead`, unless it stands at its last value, and else stays. So, unless
/// it comes to that value, at most one read fails, and it is told.
#[tactic(auto, unfolding(crate::specs::Inputs::day_in))]
pub fn day_in<F: Folder>(alloc: Global, folder: &mut F, dir: &str) -> Result<Instance, ReadError>
    ensures told { (files : Files) → (F.state folder.old).holds ≡ Some files
        → Reads (Reaches files dir.now) result (day_in files dir.now) }
    ensures made { IfOk result IsMadeDay }
    ensures says { IfErr result (IsErrorOf (λ table. table ≢ Plan)) }
    ensures caused { IfErr result (IsCaused dir.now (F.state folder.old) (F.state folder.new)) }
    ensures fault_counted { CountsFault (tells_unread is_unread result) (F.state folder.old) (F.state folder.new) }
    ensures only_reads { OnlyReads (F.state folder.old) (F.state folder.new) }
{
    let read = tables_in(alloc, folder, dir)?;
    day_of(alloc, read.tables)
}

/// A day, and the bytes of the six tables that make it.
#[derive(Drop)]
pub struct DayWithBytes {
    /// The bytes of its tables, none longer than a table may be.
    pub bytes: TableBytes,
    /// The day.
    pub instance: Instance,
}

/// The day that the six tables of a folder make, as `day_in` answers it, and the bytes of these tables, from the same
/// reading: read as tables they make the day, also where the folder doesn't tell what it holds. The errors are those of
/// `day_in`, with the same causes.
#[tactic(auto, unfolding(crate::specs::Inputs::day_in))]
pub fn day_with_bytes_in<F: Folder>(
    alloc: Global,
    folder: &mut F,
    dir: &str,
) -> Result<DayWithBytes, ReadError>
    // What the files come to.
    ensures told { (files : Files) → (F.state folder.old).holds ≡ Some files
        → ReadsAs (λ read. read.instance) (Reaches files dir.now) result (day_in files dir.now) }
    ensures made { IfOk result (λ read. IsMadeDay read.instance) }
    ensures kept { IfOk result (λ read. IsDayOfBytes read.bytes read.instance) }

    // What an error says, and what stays.
    ensures says { IfErr result (IsErrorOf (λ table. table ≢ Plan)) }
    ensures caused { IfErr result (IsCaused dir.now (F.state folder.old) (F.state folder.new)) }
    ensures fault_counted { CountsFault (tells_unread is_unread result) (F.state folder.old) (F.state folder.new) }
    ensures only_reads { OnlyReads (F.state folder.old) (F.state folder.new) }
{
    let ReadTables { bytes, tables } = tables_in(alloc, folder, dir)?;
    let instance = day_of(alloc, tables)?;
    Ok(DayWithBytes { bytes, instance })
}

/// A day and a plan of it, and the bytes of the six tables that make the day.
#[derive(Drop)]
pub struct InputsWithBytes {
    /// The bytes of its tables, none longer than a table may be.
    pub bytes: TableBytes,
    /// The day and the plan.
    pub inputs: Inputs,
}

/// The day and the plan of a folder, as `inputs_in` answers them, and the bytes of the six tables that make the day,
/// from the same reading: read as tables they make the day, also where the folder doesn't tell what it holds. The
/// errors are those of `inputs_in`, with the same causes.
#[tactic(auto, using(crate::proofs::Reached::plan_ended), unfolding(crate::specs::Inputs::inputs_in))]
pub fn inputs_with_bytes_in<F: Folder>(
    alloc: Global,
    folder: &mut F,
    dir: &str,
) -> Result<InputsWithBytes, ReadError>
    // What the files come to.
    ensures told { (files : Files) → (F.state folder.old).holds ≡ Some files
        → ReadsAs (λ read. read.inputs) (Reaches files dir.now) result (inputs_in files dir.now) }
    ensures made { IfOk result (λ read. IsMadeDay read.inputs.instance) }
    ensures kept { IfOk result (λ read. IsDayOfBytes read.bytes read.inputs.instance) }
    ensures is_plan { IfOk result (λ read. IsPlan read.inputs.instance read.inputs.plan) }
    ensures made_plan { IfOk result (λ read. IsMadePlan read.inputs.instance read.inputs.plan) }

    // What an error says, and what stays.
    ensures says { IfErr result (IsErrorOf (λ _. ⊤)) }
    ensures caused { IfErr result (IsCaused dir.now (F.state folder.old) (F.state folder.new)) }
    ensures fault_counted { CountsFault (tells_unread is_unread result) (F.state folder.old) (F.state folder.new) }
    ensures only_reads { OnlyReads (F.state folder.old) (F.state folder.new) }
{
    let day = day_with_bytes_in(alloc, folder, dir)?;
    let rows: ReadTable<Rows<PlanRow>> = table_in(alloc, folder, dir)?;
    let plan = plan_of(alloc, &day.instance, rows.table.items())?;
    Ok(InputsWithBytes {
        bytes: day.bytes,
        inputs: Inputs {
            instance: day.instance,
            plan,
        },
    })
}

/// The day and the plan of a folder: the day of its six tables, and then the plan of it that `plan.csv` makes. The
/// first file that is refused or cannot be read ends the reading. The day is one that tables make whose rows keep
/// within the ranges of their columns, and the plan one that such rows make of it, also where the folder doesn't tell
/// what it holds.
///
/// - `CannotRead`: the count of faults rose or stands at its last value, and a read of that file may fail.
/// - `Refused`: a file is refused, the tables make no day, or the rows of the plan no plan of it. It is never want of
///   memory.
/// - `NoMemory`: want of memory.
///
/// Where the folder tells what it holds, each file before that one is accepted; where it is that of the plan, the
/// tables make a day. Where it counts its failed calls, the count rises by one where the answer is `CannotRead`, unless
/// it stands at its last value, and else stays. So, unless it comes to that value, at most one read fails, and it is
/// told.
pub fn inputs_in<F: Folder>(alloc: Global, folder: &mut F, dir: &str) -> Result<Inputs, ReadError>
    // What the files come to.
    ensures told { (files : Files) → (F.state folder.old).holds ≡ Some files
        → Reads (Reaches files dir.now) result (inputs_in files dir.now) }
    ensures made { IfOk result (λ inputs. IsMadeDay inputs.instance) }
    ensures is_plan { IfOk result (λ inputs. IsPlan inputs.instance inputs.plan) }
    ensures made_plan { IfOk result (λ inputs. IsMadePlan inputs.instance inputs.plan) }

    // What an error says, and what stays.
    ensures says { IfErr result (IsErrorOf (λ _. ⊤)) }
    ensures caused { IfErr result (IsCaused dir.now (F.state folder.old) (F.state folder.new)) }
    ensures fault_counted { CountsFault (tells_unread is_unread result) (F.state folder.old) (F.state folder.new) }
    ensures only_reads { OnlyReads (F.state folder.old) (F.state folder.new) }
{
    let read = inputs_with_bytes_in(alloc, folder, dir)?;
    Ok(read.inputs)
}
