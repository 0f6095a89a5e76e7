//! A trial day: its tables, and the instance that they make.

ghost use Rattle.std.specs.Prelude.{◌≡◌, Ok, IfOk};
ghost use Rattle.timetable.specs.Build.{day_of};
ghost use Rattle.timetable.specs.Meaning.{IsDayOf};
ghost use Rattle.trial_day.specs.AcceptedTables.{MakeADay};
ghost use Rattle.trial_day.specs.Trial.{IsTrialSize, trial_tables_of};

use crate::rows;
use rail_base::NoMemory;
use rail_csv::WeightsRow;
use std::alloc::Global;
use timetable::{Instance, InstanceRefusal, Rows, Tables};

/// The tables of the trial day of a seed and a number of trips, which is even and from 2 to 400. They make a day. The
/// error is want of memory.
#[tactic(auto, unfolding(crate::specs::Trial::trial_tables_of))]
pub fn trial_tables(alloc: Global, seed: u32, trips: u32) -> Result<Tables, NoMemory>
    requires size { IsTrialSize trips }
    ensures value { IfOk result (λ tables. tables ≡ trial_tables_of seed trips) }
    ensures accepted { IfOk result (λ tables. MakeADay tables) }
{
    let pairs = trips / 2;
    Ok(Tables {
        types: Rows::of(rows::types(alloc)?),
        stations: Rows::of(rows::stations(alloc)?),
        stock: Rows::of(rows::stock(alloc, trips)?),
        trips: Rows::of(rows::trips(alloc, seed, pairs)?),
        links: Rows::of(rows::links(alloc, pairs)?),
        weights: WeightsRow {
            carriage: 1,
            shortage: 1,
            shunting: 60,
        },
    })
}

/// The trial day of a seed and a number of trips, which is even and from 2 to 400. No test refuses it; the error is
/// want of memory.
pub fn trial_instance(alloc: Global, seed: u32, trips: u32) -> Result<Instance, NoMemory>
    requires size { IsTrialSize trips }
    ensures value { IfOk result (λ instance. day_of (trial_tables_of seed trips) ≡ Ok instance) }
    ensures meaning { IfOk result (λ instance. IsDayOf (trial_tables_of seed trips) instance) }
{
    let tables = trial_tables(alloc, seed, trips)?;
    match Instance::build(alloc, tables) {
        Ok(instance) => Ok(instance),
        Err(refusal) => match refusal {
            InstanceRefusal::NoMemory => Err(NoMemory),
            _ => unreachable!(),
        },
    }
}
