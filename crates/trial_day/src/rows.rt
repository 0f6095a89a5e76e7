//! The rows of the tables of a trial day.

ghost use Rattle.std.specs.Prelude.{◌≡◌, ◌<◌, ◌≤◌, ◌+◌, ◌*◌, ◌++◌, codes, IfOk, IsTrue};
ghost use Rattle.std.specs.Fmt.{decimal};
ghost use Rattle.rail_base.specs.Names.{is_name};
ghost use Rattle.rail_base.specs.declared.limits.TheConstants.{MAX_TRIPS};
ghost use Rattle.trial_day.specs.Draws.{next_state, number_from};
ghost use Rattle.trial_day.specs.Trial.{back_name, back_row, begin_minute, out_name, out_row, trial_links};
ghost use Rattle.trial_day.specs.Trial.{trial_stations, trial_stock, trial_trips, trial_types, turn_row};

use crate::draws::Draws;
use rail_base::{Minute, Name, NoMemory};
use rail_csv::{End, KindWord, LinkRow, StationRow, StockRow, TripRow, TypeRow};
use std::alloc::Global;

/// The two types of units.
#[tactic(auto, unfolding(rail_base::specs::Names::is_name))]
pub(crate) fn types(alloc: Global) -> Result<Vec<TypeRow>, NoMemory>
    ensures { IfOk result (λ rows. rows.items ≡ trial_types) }
{
    let mut rows = Vec::new(alloc);
    rows.push(TypeRow {
        name: Name::copy(alloc, "A")?,
        carriages: 3,
        seats: 200,
        metres: 80,
        family: Name::copy(alloc, "regional")?,
        first: 0,
    })?;
    rows.push(TypeRow {
        name: Name::copy(alloc, "B")?,
        carriages: 2,
        seats: 120,
        metres: 60,
        family: Name::copy(alloc, "regional")?,
        first: 0,
    })?;
    Ok(rows)
}

/// The two stations.
#[tactic(auto, unfolding(rail_base::specs::Names::is_name))]
pub(crate) fn stations(alloc: Global) -> Result<Vec<StationRow>, NoMemory>
    ensures { IfOk result (λ rows. rows.items ≡ trial_stations) }
{
    let mut rows = Vec::new(alloc);
    rows.push(StationRow {
        name: Name::copy(alloc, "X")?,
        platform: 240,
        reallocation: 15,
    })?;
    rows.push(StationRow {
        name: Name::copy(alloc, "Y")?,
        platform: 240,
        reallocation: 15,
    })?;
    Ok(rows)
}

/// The units at X, at the start and at the end of the day: as many of A as trips, and half as many of B.
#[tactic(auto, unfolding(rail_base::specs::Names::is_name))]
pub(crate) fn stock(alloc: Global, trips: u32) -> Result<Vec<StockRow>, NoMemory>
    ensures { IfOk result (λ rows. rows.items ≡ trial_stock trips) }
{
    let mut rows = Vec::new(alloc);
    rows.push(StockRow {
        station: Name::copy(alloc, "X")?,
        unit_type: Name::copy(alloc, "A")?,
        start: trips,
        end: trips,
    })?;
    rows.push(StockRow {
        station: Name::copy(alloc, "X")?,
        unit_type: Name::copy(alloc, "B")?,
        start: trips / 2,
        end: trips / 2,
    })?;
    Ok(rows)
}

/// The trips of so many pairs: each trip out before its trip back.
pub(crate) fn trips(alloc: Global, seed: u32, pairs: u32) -> Result<Vec<TripRow>, NoMemory>
    requires { 2 * pairs ≤ MAX_TRIPS }
    ensures { IfOk result (λ rows. rows.items ≡ trial_trips seed pairs) }
{
    let mut draws = Draws::from_seed(seed);
    let mut rows = Vec::new(alloc);
    for pair in 0..pairs {
        let demand_out = demand(&mut draws);
        rows.push(out_row(alloc, pair, demand_out)?)?;
        let demand_back = demand(&mut draws);
        rows.push(back_row(alloc, pair, demand_back)?)?;
    }
    Ok(rows)
}

/// The turns of so many pairs.
pub(crate) fn links(alloc: Global, pairs: u32) -> Result<Vec<LinkRow>, NoMemory>
    requires { 2 * pairs ≤ MAX_TRIPS }
    ensures { IfOk result (λ rows. rows.items ≡ trial_links pairs) }
{
    let mut rows = Vec::new(alloc);
    for pair in 0..pairs {
        rows.push(turn_row(alloc, pair)?)?;
    }
    Ok(rows)
}

/// Draws the seats that are wanted on a trip, from 100 to 499.
fn demand(draws: &mut Draws) -> u32
    ensures state { draws.new ≡ next_state draws.old }
    ensures seats { result ≡ 100 + number_from draws.new 400 }
{
    100 + draws.below(400)
}

/// The name of the trip out of a pair.
#[tactic(auto, using(crate::proofs::Names::out_is_name))]
fn out_name(alloc: Global, pair: u32) -> Result<Name, NoMemory>
    ensures { IfOk result (λ name. name ≡ out_name pair) }
{
    let text = format!(in alloc; "F{pair}")?;
    Name::copy(alloc, text.as_str())
}

/// The name of the trip back of a pair.
#[tactic(auto, using(crate::proofs::Names::back_is_name))]
fn back_name(alloc: Global, pair: u32) -> Result<Name, NoMemory>
    ensures { IfOk result (λ name. name ≡ back_name pair) }
{
    let text = format!(in alloc; "R{pair}")?;
    Name::copy(alloc, text.as_str())
}

/// The minute at which a pair begins.
fn begin_minute(pair: u32) -> u16
    requires { 2 * pair < MAX_TRIPS }
    ensures { result ≡ begin_minute pair }
{
    (300 + 6 * pair) as u16
}

/// The trip out of a pair, from X to Y.
#[tactic(auto, unfolding(rail_base::specs::Names::is_name))]
fn out_row(alloc: Global, pair: u32, demand: u32) -> Result<TripRow, NoMemory>
    requires { 2 * pair < MAX_TRIPS }
    ensures { IfOk result (λ row. row ≡ out_row pair demand) }
{
    let begin = begin_minute(pair);
    Ok(TripRow {
        name: out_name(alloc, pair)?,
        from: Name::copy(alloc, "X")?,
        departure: Minute(begin),
        to: Name::copy(alloc, "Y")?,
        arrival: Minute(begin + 50),
        km: 40,
        demand,
        first: 0,
    })
}

/// The trip back of a pair, from Y to X, 10 minutes after the trip out has arrived.
#[tactic(auto, unfolding(rail_base::specs::Names::is_name))]
fn back_row(alloc: Global, pair: u32, demand: u32) -> Result<TripRow, NoMemory>
    requires { 2 * pair < MAX_TRIPS }
    ensures { IfOk result (λ row. row ≡ back_row pair demand) }
{
    let begin = begin_minute(pair) + 60;
    Ok(TripRow {
        name: back_name(alloc, pair)?,
        from: Name::copy(alloc, "Y")?,
        departure: Minute(begin),
        to: Name::copy(alloc, "X")?,
        arrival: Minute(begin + 50),
        km: 40,
        demand,
        first: 0,
    })
}

/// The turn at Y between the two trips of a pair: the train is reversed, and units may be uncoupled or coupled at its
/// rear.
fn turn_row(alloc: Global, pair: u32) -> Result<LinkRow, NoMemory>
    ensures { IfOk result (λ row. row ≡ turn_row pair) }
{
    Ok(LinkRow {
        kind: KindWord::Turn,
        arriving: out_name(alloc, pair)?,
        arriving2: None,
        departing: back_name(alloc, pair)?,
        departing2: None,
        reverse: true,
        uncouple: End::Rear,
        couple: End::Rear,
        exchange: false,
    })
}
