//! The command that swaps units of a day's plan.

ghost use Rattle.std.specs.Prelude.{false, ◌≡◌, ◌≤◌, length};
ghost use Rattle.rail_base.specs.declared.limits.TheConstants.{MAX_TABLE_BYTES};
ghost use Rattle.rail_io.specs.Folders.{CountsFault, OnlyReads};
ghost use Rattle.timetable.specs.Running.{IsPlan};
ghost use Rattle.urgent_units.specs.Wishes.{IsWish};
ghost use Rattle.desk_app.specs.Outcomes.{is_unread};
ghost use Rattle.desk_app.specs.SwapOutcomes.{GoesThrough, IsInputsOutcome, IsMostOutcome, IsSwapOutcome};
ghost use Rattle.desk_app.specs.SwapOutcomes.{IsTableOutcome, IsWishOutcome};

use crate::files::{DeskFile, URGENT_FILE};
use crate::outcome::DeskOutcome;
use day_files::{Inputs, file_in, inputs_in};
use day_simulator::{SimulateRefusal, simulate};
use rail_base::limits::MAX_TABLE_BYTES;
use rail_io::{FileRefusal, Folder};
use std::alloc::Global;
use urgent_units::{UrgentRefusal, Wish, WishRefusal, urgent};

/// Swaps units of a folder's plan. The plan is simulated before the table of urgent units is read.
pub(crate) fn swapped<F: Folder>(alloc: Global, folder: &mut F, dir: &str) -> DeskOutcome
    ensures outcome { IsSwapOutcome dir.now (F.state folder.old) (F.state folder.new) result }
    ensures only_reads { OnlyReads (F.state folder.old) (F.state folder.new) }
    ensures fault_counted { CountsFault (is_unread result) (F.state folder.old) (F.state folder.new) }
{
    match inputs_in(alloc, folder, dir) {
        Ok(inputs) => swapped_plan(alloc, folder, dir, &inputs),
        Err(error) => DeskOutcome::from(error),
    }
}

/// Swaps units of a plan, where it runs.
fn swapped_plan<F: Folder>(alloc: Global, folder: &mut F, dir: &str, inputs: &Inputs) -> DeskOutcome
    requires plan { IsPlan inputs.now.instance inputs.now.plan }
    ensures outcome { IsInputsOutcome dir.now inputs.now (F.state folder.old) (F.state folder.new) result }
    ensures only_reads { OnlyReads (F.state folder.old) (F.state folder.new) }
    ensures fault_counted { CountsFault (is_unread result) (F.state folder.old) (F.state folder.new) }
{
    match simulate(alloc, &inputs.instance, &inputs.plan) {
        Ok(_) => swapped_as_wished(alloc, folder, dir, inputs),
        Err(SimulateRefusal::Stops(_)) => DeskOutcome::Stops,
        Err(SimulateRefusal::NoMemory) => DeskOutcome::NoMemory,
    }
}

/// Swaps units of a plan that runs, as the table of urgent units says.
fn swapped_as_wished<F: Folder>(
    alloc: Global,
    folder: &mut F,
    dir: &str,
    inputs: &Inputs,
) -> DeskOutcome
    requires plan { IsPlan inputs.now.instance inputs.now.plan }
    requires goes { GoesThrough inputs.now }
    ensures outcome { IsWishOutcome dir.now inputs.now (F.state folder.old) (F.state folder.new) result }
    ensures only_reads { OnlyReads (F.state folder.old) (F.state folder.new) }
    ensures fault_counted { CountsFault (is_unread result) (F.state folder.old) (F.state folder.new) }
{
    match file_in(alloc, folder, dir, URGENT_FILE, MAX_TABLE_BYTES) {
        Ok(bytes) => swapped_by_table(alloc, inputs, bytes.items()),
        Err(FileRefusal::ReadFault) => DeskOutcome::CannotRead(DeskFile::UrgentUnits),
        Err(FileRefusal::TooLong) => DeskOutcome::Refused(DeskFile::UrgentUnits),
        Err(FileRefusal::NoMemory) => DeskOutcome::NoMemory,
    }
}

/// Swaps units of a plan that runs, as these bytes say.
fn swapped_by_table(alloc: Global, inputs: &Inputs, bytes: &[u8]) -> DeskOutcome
    requires plan { IsPlan inputs.now.instance inputs.now.plan }
    requires goes { GoesThrough inputs.now }
    requires few { length bytes.now ≤ MAX_TABLE_BYTES }
    ensures outcome { IsTableOutcome inputs.now bytes.now result }
    ensures read { is_unread result ≡ false }
{
    match Wish::read(alloc, &inputs.instance, bytes) {
        Ok(wish) => swapped_for(alloc, inputs, &wish),
        Err(WishRefusal::NoMemory) => DeskOutcome::NoMemory,
        Err(_) => DeskOutcome::Refused(DeskFile::UrgentUnits),
    }
}

/// Swaps units of a plan that runs for a wish.
fn swapped_for(alloc: Global, inputs: &Inputs, wish: &Wish) -> DeskOutcome
    requires plan { IsPlan inputs.now.instance inputs.now.plan }
    requires goes { GoesThrough inputs.now }
    requires wish { IsWish inputs.now.instance wish.now }
    ensures outcome { IsMostOutcome inputs.now wish.now result }
    ensures read { is_unread result ≡ false }
{
    match urgent(alloc, &inputs.instance, &inputs.plan, wish) {
        Ok(swapped) => DeskOutcome::Swapped(swapped),
        // A plan that runs doesn't stop.
        Err(UrgentRefusal::Stops(_)) => unreachable!(),
        Err(UrgentRefusal::NoMemory) => DeskOutcome::NoMemory,
    }
}
