//! The command that finds the fleet of least cost.

ghost use Rattle.std.specs.Prelude.{false, ◌≡◌, ◌≤◌, ◌+◌, ◌*◌, ◌^◌, All, length};
ghost use Rattle.rail_base.specs.declared.limits.TheConstants.{MAX_ROUNDS, MAX_TABLE_BYTES};
ghost use Rattle.rail_io.specs.Folders.{CountsFault, OnlyReads};
ghost use Rattle.timetable.specs.DayTables.{IsDayOfBytes};
ghost use Rattle.search.specs.Questions.{AreAsked, AreTheSame};
ghost use Rattle.fleet_check.specs.declared.found.TheConstants.{MAX_SPLITS};
ghost use Rattle.fleet_size.specs.declared.planning.TheConstants.{MAX_DAY_BRANCHINGS};
ghost use Rattle.desk_app.specs.FleetOutcomes.{IsFleetOutcome, IsPriceTableOutcome, IsPricedOutcome, IsPricesOutcome};
ghost use Rattle.desk_app.specs.Outcomes.{is_unread};
ghost use Rattle.desk_app.specs.Statuses.{AreAskedFor};

use crate::files::{DeskFile, PRICES_FILE};
use crate::outcome::{DeskOutcome, FoundFleet};
use advisors::Advisor;
use day_files::{DayWithBytes, day_with_bytes_in, file_in};
use desk_commands::FleetPlanning;
use fleet_boxes::Prices;
use fleet_check::{DayOfTables, PriceRefusal, read_prices};
use fleet_size::{Granted, fleet};
use rail_base::NoMemory;
use rail_base::limits::MAX_TABLE_BYTES;
use rail_io::{FileRefusal, Folder};
use std::alloc::Global;

/// Finds the fleet for the day of a folder. The day is made before the table of prices is read.
pub(crate) fn found_fleet<F: Folder>(
    alloc: Global,
    folder: &mut F,
    planning: &FleetPlanning,
    advisors: &mut Vec<Box<dyn Advisor>>,
) -> DeskOutcome
    // The grants, and the advisors before.
    requires nodes { planning.now.nodes ≤ MAX_DAY_BRANCHINGS }
    requires rounds { planning.now.rounds ≤ MAX_ROUNDS }
    requires splits { planning.now.splits ≤ MAX_SPLITS }
    requires asked { All (λ advisor. asked advisor ≤ 2 ^ 62) advisors.old.items }

    // What it comes to.
    ensures outcome { IsFleetOutcome planning.now (F.state folder.old) (F.state folder.new) result }

    // The folder.
    ensures only_reads { OnlyReads (F.state folder.old) (F.state folder.new) }
    ensures fault_counted { CountsFault (is_unread result) (F.state folder.old) (F.state folder.new) }

    // The advisors.
    ensures advisors { AreTheSame advisors.old.items advisors.new.items identity }
    ensures asked { AreAsked advisors.old.items advisors.new.items asked has_quit 0
        ((planning.now.splits + 1) * (planning.now.rounds * (2 * planning.now.nodes + 1))) }
    ensures asked_for { AreAskedFor planning.now.rounds result advisors.old.items advisors.new.items asked has_quit }
{
    match day_with_bytes_in(alloc, folder, planning.dir.as_str()) {
        Ok(read) => found_as_priced(alloc, folder, &read, planning, advisors),
        Err(error) => DeskOutcome::from(error),
    }
}

/// Finds the fleet for a day at the prices that the table of prices tells.
#[tactic(auto, using(search::proofs::Asking::are_unasked))]
fn found_as_priced<F: Folder>(
    alloc: Global,
    folder: &mut F,
    read: &DayWithBytes,
    planning: &FleetPlanning,
    advisors: &mut Vec<Box<dyn Advisor>>,
) -> DeskOutcome
    // The grants, and the advisors before.
    requires nodes { planning.now.nodes ≤ MAX_DAY_BRANCHINGS }
    requires rounds { planning.now.rounds ≤ MAX_ROUNDS }
    requires splits { planning.now.splits ≤ MAX_SPLITS }
    requires asked { All (λ advisor. asked advisor ≤ 2 ^ 62) advisors.old.items }

    // The day.
    requires kept { IsDayOfBytes read.now.bytes read.now.instance }

    // What it comes to.
    ensures outcome { IsPricesOutcome planning.now read.now.instance (F.state folder.old) (F.state folder.new) result }

    // The folder.
    ensures only_reads { OnlyReads (F.state folder.old) (F.state folder.new) }
    ensures fault_counted { CountsFault (is_unread result) (F.state folder.old) (F.state folder.new) }

    // The advisors.
    ensures advisors { AreTheSame advisors.old.items advisors.new.items identity }
    ensures asked { AreAsked advisors.old.items advisors.new.items asked has_quit 0
        ((planning.now.splits + 1) * (planning.now.rounds * (2 * planning.now.nodes + 1))) }
    ensures asked_for { AreAskedFor planning.now.rounds result advisors.old.items advisors.new.items asked has_quit }
{
    let dir = planning.dir.as_str();
    match file_in(alloc, folder, dir, PRICES_FILE, MAX_TABLE_BYTES) {
        Ok(bytes) => found_by_table(alloc, read, bytes.items(), planning, advisors),
        Err(FileRefusal::ReadFault) => DeskOutcome::CannotRead(DeskFile::Prices),
        Err(FileRefusal::TooLong) => DeskOutcome::Refused(DeskFile::Prices),
        Err(FileRefusal::NoMemory) => DeskOutcome::NoMemory,
    }
}

/// Finds the fleet for a day at the prices that these bytes tell.
#[tactic(auto, using(search::proofs::Asking::are_unasked))]
fn found_by_table(
    alloc: Global,
    read: &DayWithBytes,
    bytes: &[u8],
    planning: &FleetPlanning,
    advisors: &mut Vec<Box<dyn Advisor>>,
) -> DeskOutcome
    // The grants, and the advisors before.
    requires nodes { planning.now.nodes ≤ MAX_DAY_BRANCHINGS }
    requires rounds { planning.now.rounds ≤ MAX_ROUNDS }
    requires splits { planning.now.splits ≤ MAX_SPLITS }
    requires asked { All (λ advisor. asked advisor ≤ 2 ^ 62) advisors.old.items }

    // The day.
    requires kept { IsDayOfBytes read.now.bytes read.now.instance }
    requires few { length bytes.now ≤ MAX_TABLE_BYTES }

    // What it comes to.
    ensures outcome { IsPriceTableOutcome read.now.instance planning.now bytes.now result }
    ensures read { is_unread result ≡ false }

    // The advisors.
    ensures advisors { AreTheSame advisors.old.items advisors.new.items identity }
    ensures asked { AreAsked advisors.old.items advisors.new.items asked has_quit 0
        ((planning.now.splits + 1) * (planning.now.rounds * (2 * planning.now.nodes + 1))) }
    ensures asked_for { AreAskedFor planning.now.rounds result advisors.old.items advisors.new.items asked has_quit }
{
    match read_prices(alloc, &read.instance, bytes) {
        Ok(prices) => found_at_prices(alloc, read, &prices, planning, advisors),
        Err(PriceRefusal::NoMemory) => DeskOutcome::NoMemory,
        Err(_) => DeskOutcome::Refused(DeskFile::Prices),
    }
}

/// Finds the fleet for a day at these prices.
fn found_at_prices(
    alloc: Global,
    read: &DayWithBytes,
    prices: &Prices,
    planning: &FleetPlanning,
    advisors: &mut Vec<Box<dyn Advisor>>,
) -> DeskOutcome
    // The grants, and the advisors before.
    requires nodes { planning.now.nodes ≤ MAX_DAY_BRANCHINGS }
    requires rounds { planning.now.rounds ≤ MAX_ROUNDS }
    requires splits { planning.now.splits ≤ MAX_SPLITS }
    requires asked { All (λ advisor. asked advisor ≤ 2 ^ 62) advisors.old.items }

    // The day, and a price for each of its types.
    requires kept { IsDayOfBytes read.now.bytes read.now.instance }
    requires prices { length prices.now ≡ length read.now.instance.types }

    // What it comes to.
    ensures outcome { IsPricedOutcome read.now.instance prices.now planning.now result }
    ensures read { is_unread result ≡ false }

    // The advisors.
    ensures advisors { AreTheSame advisors.old.items advisors.new.items identity }
    ensures asked { AreAsked advisors.old.items advisors.new.items asked has_quit 0
        ((planning.now.splits + 1) * (planning.now.rounds * (2 * planning.now.nodes + 1))) }
    ensures asked_for { AreAskedFor planning.now.rounds result advisors.old.items advisors.new.items asked has_quit }
{
    let tables = DayOfTables {
        bytes: &read.bytes,
        instance: &read.instance,
    };
    let granted = Granted {
        branchings: planning.nodes,
        rounds: planning.rounds,
        splits: planning.splits,
        evaluations: planning.evaluations,
    };
    let types = read.instance.types().len();
    match fleet(alloc, &tables, prices, granted, advisors) {
        Ok(fleet) => DeskOutcome::FleetFound(FoundFleet { types, fleet }),
        Err(NoMemory) => DeskOutcome::NoMemory,
    }
}
