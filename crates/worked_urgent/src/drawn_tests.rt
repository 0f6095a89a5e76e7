//! Drawn days against all namings: what units are swapped for brings as many urgent ones to the depot as the best of
//! all ways to give the trips units.

ghost use Rattle.std.specs.Prelude.{◌<◌, IfOk};
ghost use Rattle.timetable.specs.Running.{IsPlan};
ghost use Rattle.urgent_units.specs.Wishes.{IsWish};

use day_simulator::simulate;
use rail_base::TripNo;
use sample_days::{TURN, Texts, day_of, plan_of, table};
use std::alloc::{AllocError, Global};
use std::test::Fail;
use timetable::{Instance, NamedPlan};
use urgent_units::{Legs, Swapped, Wish, urgent};

/// How many units a drawn day has, all of one type.
const UNITS: u32 = 4;

/// A trip of a drawn day, which one unit runs. The stations have the numbers 0, 1 and 2.
#[derive(Clone, Copy)]
struct Trip {
    from: u32,
    departs: u32,
    to: u32,
    arrives: u32,
}

/// Where a unit stands, and the minute from which it may be taken.
#[derive(Clone, Copy)]
struct Standing {
    station: u32,
    ready: u32,
}

/// Trips in the order in which they leave, and a naming of them that runs. A naming is a number: its last digit to the
/// base of 4 is the unit of the first trip, the digit before it that of the second trip, and so on.
#[derive(Drop)]
struct DrawnDay {
    /// The units below this number stand at the first station at the start.
    first: u32,
    /// The other units below this number stand at the second one, and the rest at the third one.
    second: u32,
    trips: Vec<Trip>,
    naming: u32,
}

/// The units that are wanted, as a set of bits, and the station where they are wanted.
#[derive(Clone, Copy)]
struct Wanted {
    units: u32,
    depot: u32,
}

/// A number below a bound by chance, the same ones each time.
fn draw(state: &mut u32, bound: u32) -> u32
    requires { 0 < bound }
    ensures { result < bound }
{
    *state = state.wrapping_mul(1_664_525).wrapping_add(1_013_904_223);
    (*state >> 8) % bound
}

/// The station where a unit stands at the start.
fn home_of(day: &DrawnDay, unit: u32) -> u32 {
    if unit < day.first {
        0
    } else if unit < day.second {
        1
    } else {
        2
    }
}

/// Where a unit stands after the trips that a naming gives it, or nothing where it isn't there and ready for one.
fn end_of(day: &DrawnDay, naming: u32, unit: u32) -> Option<Standing> {
    let mut stands = Standing {
        station: home_of(day, unit),
        ready: 0,
    };
    let mut rest = naming;
    for trip in &day.trips {
        if rest % UNITS == unit {
            if stands.station != trip.from || stands.ready > trip.departs {
                return None;
            }
            stands = Standing {
                station: trip.to,
                ready: trip.arrives.saturating_add(10),
            };
        }
        rest /= UNITS;
    }
    Some(stands)
}

/// Whether a unit is in a set of bits.
fn is_in(units: u32, unit: u32) -> bool {
    unit < 32 && (units >> unit) & 1 == 1
}

/// How many wanted units a naming brings, or nothing where it doesn't run.
fn brought(day: &DrawnDay, naming: u32, wanted: &Wanted) -> Option<u32> {
    let mut count = 0u32;
    for unit in 0..UNITS {
        let stands = end_of(day, naming, unit)?;
        if is_in(wanted.units, unit) && stands.station == wanted.depot {
            count = count.saturating_add(1);
        }
    }
    Some(count)
}

/// How many namings there are, whether they run or not.
fn namings(day: &DrawnDay) -> u32 {
    let mut count = 1u32;
    for _trip in &day.trips {
        count = count.saturating_mul(UNITS);
    }
    count
}

/// The most that a naming brings which runs.
fn most_brought(day: &DrawnDay, wanted: &Wanted) -> u32 {
    let mut most = 0u32;
    for naming in 0..namings(day) {
        if let Some(count) = brought(day, naming, wanted)
            && most < count
        {
            most = count;
        }
    }
    most
}

/// A trip by chance that a unit which stands so is ready for, if it is ready in time.
fn drawn_trip(state: &mut u32, stands: &Standing, earliest: u32) -> Option<Trip> {
    let departs = earliest.saturating_add(draw(state, 20));
    let to = stands.station.saturating_add(1 + draw(state, 2)) % 3;
    let arrives = departs.saturating_add(10 + draw(state, 40));
    if stands.ready > departs {
        return None;
    }
    Some(Trip {
        from: stands.station,
        departs,
        to,
        arrives,
    })
}

/// Adds a trip by chance that leaves within twenty minutes of a moment, where the unit that is drawn for it is ready.
fn add_trip(day: &mut DrawnDay, state: &mut u32, earliest: u32) -> Result<(), Fail> {
    let unit = draw(state, UNITS);
    let Some(stands) = end_of(day, day.naming, unit) else {
        return Ok(());
    };
    if let Some(trip) = drawn_trip(state, &stands, earliest) {
        let place = namings(day);
        day.trips.push(trip)?;
        day.naming = day.naming.saturating_add(unit.saturating_mul(place));
    }
    Ok(())
}

/// A day of six trips at most, one every half an hour or so.
fn drawn_day(alloc: Global, state: &mut u32) -> Result<DrawnDay, Fail> {
    let first = 1 + draw(state, 2);
    let mut day = DrawnDay {
        first,
        second: first.saturating_add(1 + draw(state, 2)),
        trips: Vec::new(alloc),
        naming: 0,
    };
    for trip in 0..6u32 {
        add_trip(
            &mut day,
            state,
            600u32.saturating_add(trip.saturating_mul(30)),
        )?;
    }
    Ok(day)
}

/// The name of a station.
fn name_of(station: u32) -> &'static str {
    match station {
        0 => "X",
        1 => "Y",
        _ => "Z",
    }
}

/// How many units stand at a station at the start.
fn units_at(day: &DrawnDay, station: u32) -> u32 {
    match station {
        0 => day.first,
        1 => day.second.saturating_sub(day.first),
        _ => UNITS.saturating_sub(day.second),
    }
}

/// Adds the row of a station: as many units are wanted there at the end as the naming of the day brings.
fn write_stock(text: &mut String, day: &DrawnDay, station: u32) -> Result<(), AllocError> {
    let all = Wanted {
        units: 15,
        depot: station,
    };
    let start = units_at(day, station);
    let end = brought(day, day.naming, &all).unwrap_or(0);
    write!(text, "{},A,{start},{end}\n", name_of(station))
}

/// The table of the stock.
fn stock_text(alloc: Global, day: &DrawnDay) -> Result<String, Fail> {
    let mut text = String::from_str(alloc, "station,type,start,end\n")?;
    for station in 0..3u32 {
        write_stock(&mut text, day, station)?;
    }
    Ok(text)
}

/// Adds the row of a trip. Minutes of the day are told as tables have them, from ten o'clock on.
fn write_trip(text: &mut String, number: u32, trip: &Trip) -> Result<(), AllocError> {
    let (departs, arrives) = (trip.departs, trip.arrives);
    write!(text, "T{number},{},", name_of(trip.from))?;
    write!(
        text,
        "{}:{}{},",
        departs / 60,
        departs % 60 / 10,
        departs % 10
    )?;
    write!(text, "{},", name_of(trip.to))?;
    write!(
        text,
        "{}:{}{},10,100\n",
        arrives / 60,
        arrives % 60 / 10,
        arrives % 10
    )
}

/// The table of the trips.
fn trips_text(alloc: Global, day: &DrawnDay) -> Result<String, Fail> {
    let mut text = String::from_str(alloc, "trip,from,departure,to,arrival,km,demand\n")?;
    let mut number = 0u32;
    for trip in &day.trips {
        write_trip(&mut text, number, trip)?;
        number = number.saturating_add(1);
    }
    Ok(text)
}

/// The table of the plan that a naming is.
fn plan_text(alloc: Global, day: &DrawnDay) -> Result<String, Fail> {
    let mut text = String::from_str(alloc, "trip,units\n")?;
    let mut rest = day.naming;
    let mut number = 0u32;
    for _trip in &day.trips {
        write!(text, "T{number},{}\n", rest % UNITS)?;
        rest /= UNITS;
        number = number.saturating_add(1);
    }
    Ok(text)
}

/// The table of the units that are wanted.
fn wish_text(alloc: Global, wanted: &Wanted) -> Result<String, Fail> {
    let mut text = String::from_str(alloc, "unit,depot\n")?;
    for unit in 0..UNITS {
        if is_in(wanted.units, unit) {
            write!(text, "{unit},{}\n", name_of(wanted.depot))?;
        }
    }
    Ok(text)
}

/// The stations of each drawn day.
const STATIONS: &[u8] = b"station,platform,reallocation\nX,200,10\nY,200,10\nZ,200,10\n";

/// No drawn day has links.
const NO_LINKS: &[u8] = b"kind,arriving,arriving2,departing,departing2,reverse,uncouple,couple\n";

/// The day of these tables of stock and trips.
fn day_of_tables<'a>(alloc: Global, stock: &'a [u8], trips: &'a [u8]) -> Result<Instance, Fail> {
    let texts = Texts {
        types: TURN.types,
        stations: STATIONS,
        stock,
        trips,
        links: NO_LINKS,
    };
    day_of(alloc, &texts)
}

/// The day of the tables.
fn instance_of(alloc: Global, day: &DrawnDay) -> Result<Instance, Fail> {
    let stock = stock_text(alloc, day)?;
    let trips = trips_text(alloc, day)?;
    day_of_tables(alloc, stock.as_bytes(), trips.as_bytes())
}

/// The naming that a plan is, or nothing where a trip hasn't one unit.
fn naming_of(plan: &NamedPlan) -> Option<u32> {
    let mut naming = 0u32;
    let mut place = 1u32;
    for trip in 0..plan.trips() {
        let units = plan.units(TripNo(trip));
        if units.len() != 1 {
            return None;
        }
        naming = naming.saturating_add(units.first()?.0.saturating_mul(place));
        place = place.saturating_mul(UNITS);
    }
    Some(naming)
}

/// The plan that the naming of a day is.
fn given_plan(alloc: Global, day: &DrawnDay, instance: &Instance) -> Result<NamedPlan, Fail>
    ensures { IfOk result (λ plan. IsPlan instance.now plan) }
{
    let text = plan_text(alloc, day)?;
    plan_of(alloc, instance, text.as_bytes())
}

/// The units that are wanted, as they are read.
fn given_wish(alloc: Global, wanted: &Wanted, instance: &Instance) -> Result<Wish, Fail>
    ensures { IfOk result (λ wish. IsWish instance.now wish) }
{
    let text = wish_text(alloc, wanted)?;
    Ok(Wish::read(alloc, instance, table(text.as_bytes())?)?)
}

/// How many wanted units a plan brings, or nothing where it doesn't run.
fn brought_by(day: &DrawnDay, plan: &NamedPlan, wanted: &Wanted) -> Option<u32> {
    brought(day, naming_of(plan)?, wanted)
}

/// Whether a swap says that it brings so many, and its plan does it.
fn brings(day: &DrawnDay, wanted: &Wanted, swapped: &Swapped, most: Option<u32>) -> bool {
    Some(swapped.count) == most && brought_by(day, &swapped.plan, wanted) == most
}

/// Whether a swap brings the most that any naming brings, its plan runs, and so much is its cut worth.
fn is_right_swap(
    alloc: Global,
    day: &DrawnDay,
    wanted: &Wanted,
    instance: &Instance,
    plan: &NamedPlan,
    wish: &Wish,
) -> Result<bool, Fail>
    requires plan { IsPlan instance.now plan.now }
    requires wish { IsWish instance.now wish.now }
{
    let most = Some(most_brought(day, wanted));
    let swapped = urgent(alloc, instance, plan, wish)?;
    let legs = Legs::build(alloc, instance, plan, wish.unit_type)?;
    let is_worth = legs.value(instance, wish, &swapped.cut) == most;
    let runs = simulate(alloc, instance, &swapped.plan).is_ok();
    Ok(runs && is_worth && brings(day, wanted, &swapped, most))
}

/// Whether what the units of a drawn day are swapped for is right, where its own naming is this plan.
fn is_right_plan(
    alloc: Global,
    day: &DrawnDay,
    wanted: &Wanted,
    instance: &Instance,
    plan: &NamedPlan,
) -> Result<bool, Fail>
    requires { IsPlan instance.now plan.now }
{
    let wish = given_wish(alloc, wanted, instance)?;
    is_right_swap(alloc, day, wanted, instance, plan, &wish)
}

/// Whether what the units of a drawn day are swapped for is right, where its tables make this day.
fn is_right_day(
    alloc: Global,
    day: &DrawnDay,
    wanted: &Wanted,
    instance: &Instance,
) -> Result<bool, Fail> {
    let plan = given_plan(alloc, day, instance)?;
    is_right_plan(alloc, day, wanted, instance, &plan)
}

/// Whether what a drawn day's units are swapped for is right.
fn is_right(alloc: Global, day: &DrawnDay, wanted: &Wanted) -> Result<bool, Fail> {
    let instance = instance_of(alloc, day)?;
    is_right_day(alloc, day, wanted, &instance)
}

/// Of the drawn days, how many bring more than their own naming does, and on how many not all wanted units are brought.
#[derive(Clone, Copy)]
struct Tally {
    better: u32,
    short: u32,
}

/// The tally with one more day.
fn counted(tally: Tally, day: &DrawnDay, wanted: &Wanted) -> Tally {
    let most = most_brought(day, wanted);
    let is_better = brought(day, day.naming, wanted) != Some(most);
    let is_short = most < wanted.units.count_ones();
    Tally {
        better: tally.better.saturating_add(u32::from(is_better)),
        short: tally.short.saturating_add(u32::from(is_short)),
    }
}

/// Draws a day and units that are wanted, counts them, and tells whether what the units are swapped for is right.
fn is_next_right(alloc: Global, state: &mut u32, tally: &mut Tally) -> Result<bool, Fail> {
    let day = drawn_day(alloc, state)?;
    let wanted = Wanted {
        units: 1 + draw(state, 15),
        depot: draw(state, 3),
    };
    *tally = counted(*tally, &day, &wanted);
    is_right(alloc, &day, &wanted)
}

#[test]
fn drawn_days_against_all_namings(rt: HostRuntime) -> Result<(), Fail> {
    let mut state = 1u32;
    let mut tally = Tally {
        better: 0,
        short: 0,
    };
    for number in 0..300u32 {
        assert!(rt;
            is_next_right(rt.alloc(), &mut state, &mut tally)?,
            "day {number}"
        );
    }
    let Tally { better, short } = tally;
    assert!(rt; better > 20 && short > 20, "{better} {short}");
    Ok(())
}
