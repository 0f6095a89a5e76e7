//! Worked days: what simulating them tells, and days step by step. The costs were counted by hand.

ghost use Rattle.std.specs.Prelude.{◌≡◌, ◌<◌, length};
ghost use Rattle.timetable.specs.Running.{IsPlan};
ghost use Rattle.day_simulator.specs.State.{trip_of};

use day_simulator::{Day, DayEvent, Ran, SimulateRefusal, StepFault, UnitLocation, simulate};
use rail_base::{TripNo, UnitNo};
use sample_days::{RING, TURN, TWO_TYPES, Texts, day_of, plan_of};
use std::alloc::{AllocError, Global};
use std::process::Abort;
use std::test::Fail;
use timetable::{Instance, NamedPlan};

/// The ring, where the split and the join turn their trains round.
const TURNING_ROUND: Texts<'static> = Texts {
    links: b"kind,arriving,arriving2,departing,departing2,reverse,uncouple,couple\n\
        split,T1,,T2,T3,yes,none,none\njoin,T3,T2,T4,,yes,none,none\n",
    ..RING
};

/// A turn that may couple in front, and one that may uncouple in front.
const FRONT_ENDS: Texts<'static> = Texts {
    stock: b"station,type,start,end\nX,A,1,1\nY,A,1,1\n",
    trips: b"trip,from,departure,to,arrival,km,demand\n\
        T1,X,08:00,Y,09:00,10,150\nT2,Y,09:10,X,10:10,10,150\nT3,X,10:20,Y,11:20,10,150\n",
    links: b"kind,arriving,arriving2,departing,departing2,reverse,uncouple,couple\n\
        turn,T1,,T2,,no,none,front\nturn,T2,,T3,,no,front,none\n",
    ..TURN
};

/// Days, plans of them, and what simulating these tells.
const SIMULATED: &[(Texts<'static>, &[u8], &str)] = &[
    (TWO_TYPES, b"trip,units\nT1,0 1\nT2,1\n", "runs 170"),
    (
        TWO_TYPES,
        b"trip,units\nT1,0 1\nT2,0\n",
        "Stops(LinkBroken(LinkNo(0)))",
    ),
    // The train of the third trip in front, and that of the second.
    (
        RING,
        b"trip,units\nT1,0 1 2\nT2,0 1\nT3,2\nT4,2 0 1\n",
        "runs 1270",
    ),
    (
        RING,
        b"trip,units\nT1,0 1 2\nT2,0 1\nT3,2\nT4,0 1 2\n",
        "Stops(LinkBroken(LinkNo(1)))",
    ),
    // Split, and then joined, as they arrive.
    (
        TURNING_ROUND,
        b"trip,units\nT1,0 1 2\nT2,2 1\nT3,0\nT4,0 1 2\n",
        "runs 1270",
    ),
    (
        TURNING_ROUND,
        b"trip,units\nT1,0 1 2\nT2,0 1\nT3,2\nT4,2 1 0\n",
        "Stops(LinkBroken(LinkNo(0)))",
    ),
    (
        TURNING_ROUND,
        b"trip,units\nT1,0 1 2\nT2,2 1\nT3,0\nT4,0 2 1\n",
        "Stops(LinkBroken(LinkNo(1)))",
    ),
    // Coupled in front, coupled behind, and with the unit in front left on.
    (FRONT_ENDS, b"trip,units\nT1,0\nT2,1 0\nT3,0\n", "runs 320"),
    (
        FRONT_ENDS,
        b"trip,units\nT1,0\nT2,0 1\nT3,0\n",
        "Stops(LinkBroken(LinkNo(0)))",
    ),
    (
        FRONT_ENDS,
        b"trip,units\nT1,0\nT2,1 0\nT3,1\n",
        "Stops(LinkBroken(LinkNo(1)))",
    ),
];

/// What simulating a plan of a day tells.
fn simulated(alloc: Global, texts: &Texts<'_>, plan: &[u8]) -> Result<String, Fail> {
    let day = day_of(alloc, texts)?;
    run_told(alloc, &day, plan)
}

/// What simulating the plan of a day tells that the bytes of a table make.
fn run_told(alloc: Global, day: &Instance, bytes: &[u8]) -> Result<String, Fail> {
    let plan = plan_of(alloc, day, bytes)?;
    let ran = simulate(alloc, day, &plan);
    Ok(told_of_run(alloc, ran)?)
}

/// What a run tells.
fn told_of_run(alloc: Global, ran: Result<Ran, SimulateRefusal>) -> Result<String, AllocError> {
    match ran {
        Ok(ran) => format!(in alloc; "runs {}", ran.cost.0),
        Err(why) => format!(in alloc; "{why:?}"),
    }
}

#[test]
fn days_are_simulated(rt: HostRuntime) -> Result<(), Fail> {
    for (texts, plan, wanted) in SIMULATED {
        let text = simulated(rt.alloc(), texts, *plan)?;
        assert!(rt; text.as_str() == *wanted, "{text}");
    }
    Ok(())
}

/// What is done with a day.
#[derive(Clone, Copy)]
enum Step {
    /// A trip leaves.
    Depart(u32),
    /// A trip arrives.
    Arrive(u32),
    /// The day ends.
    Finish,
}

/// A day and a plan of it, what is done with the day, and what is told of it: for each step `ok`, the cost or a fault,
/// and in the end where each unit is.
struct Steps {
    texts: Texts<'static>,
    plan: &'static [u8],
    steps: &'static [Step],
    told: &'static str,
}

/// Two trips that arrive in the minute in which two leave, without links.
const ONE_MINUTE: Texts<'static> = Texts {
    stations: b"station,platform,reallocation\nX,200,30\nY,200,0\nZ,200,20\n",
    stock: b"station,type,start,end\nX,A,1,1\nZ,A,1,1\n",
    trips: b"trip,from,departure,to,arrival,km,demand\n\
        T1,X,08:00,Y,09:00,10,150\nT2,Z,08:00,Y,09:00,10,150\n\
        T3,Y,09:00,X,10:00,10,150\nT4,Y,09:00,Z,10:00,10,150\n",
    links: b"kind,arriving,arriving2,departing,departing2,reverse,uncouple,couple\n",
    ..TURN
};

/// Two trips that arrive in the minute in which two leave, with a turn from each: one may uncouple, the other couple.
const TWO_TURNS: Texts<'static> = Texts {
    stock: b"station,type,start,end\nX,A,2,1\nZ,A,1,2\n",
    links: b"kind,arriving,arriving2,departing,departing2,reverse,uncouple,couple\n\
        turn,T1,,T3,,no,rear,none\nturn,T2,,T4,,no,none,rear\n",
    ..ONE_MINUTE
};

/// A trip there and a trip back in the minute of its arrival.
const TWO_TRIPS: Texts<'static> = Texts {
    stations: b"station,platform,reallocation\nX,200,30\nY,200,0\n",
    stock: b"station,type,start,end\nX,A,1,1\n",
    trips: b"trip,from,departure,to,arrival,km,demand\n\
        T1,X,08:00,Y,09:00,10,150\nT2,Y,09:00,X,10:00,10,150\n",
    ..ONE_MINUTE
};

/// A trip there and a trip back with its train, in the minute in which another leaves.
const THREE_TRIPS: Texts<'static> = Texts {
    stations: b"station,platform,reallocation\nX,200,0\nY,200,0\n",
    stock: b"station,type,start,end\nX,A,2,2\n",
    trips: b"trip,from,departure,to,arrival,km,demand\n\
        T1,X,08:00,Y,09:00,10,150\nT2,Y,09:00,X,10:00,10,150\nT3,X,09:00,Y,10:00,10,150\n",
    links: b"kind,arriving,arriving2,departing,departing2,reverse,uncouple,couple\n\
        turn,T1,,T2,,no,none,none\n",
    ..ONE_MINUTE
};

/// Steps that are made and steps that are out of turn.
const IN_TURN: &[Steps] = &[
    Steps {
        texts: TWO_TRIPS,
        plan: b"trip,units\nT1,0\nT2,0\n",
        steps: &[
            Step::Depart(0),
            Step::Depart(1),
            Step::Finish,
            Step::Arrive(0),
            Step::Depart(1),
            Step::Arrive(1),
            Step::Finish,
        ],
        told: "ok\nNotInYard { unit: UnitNo(0), trip: TripNo(1) }\nNotNow(Arrive(TripNo(0)))\n\
            ok\nok\nok\ncost 60\n0 from 630\n",
    },
    Steps {
        texts: THREE_TRIPS,
        plan: b"trip,units\nT1,0\nT2,0\nT3,1\n",
        steps: &[
            // It has not left.
            Step::Arrive(0),
            Step::Depart(0),
            // It has left.
            Step::Depart(0),
            // The trip whose train it goes on with has not arrived.
            Step::Depart(1),
            Step::Depart(2),
            // A departure of its minute was made.
            Step::Arrive(0),
            Step::Arrive(2),
            // Its minute has passed.
            Step::Depart(1),
        ],
        told: "NotNow(Arrive(TripNo(0)))\nok\nNotNow(Depart(TripNo(0)))\nNotNow(Depart(TripNo(1)))\n\
            ok\nNotNow(Arrive(TripNo(0)))\nok\nNotNow(Depart(TripNo(1)))\naboard 0\n1 from 600\n",
    },
];

/// The events of four trips, in pairs that may be exchanged: the first two trips leave in one minute, they arrive in
/// another, in which the last two leave, and these arrive in a third.
const PAIRS: &[(Step, Step)] = &[
    (Step::Depart(0), Step::Depart(1)),
    (Step::Arrive(0), Step::Arrive(1)),
    (Step::Depart(2), Step::Depart(3)),
    (Step::Arrive(2), Step::Arrive(3)),
];

/// Adds one step and then another.
fn add_pair(steps: &mut Vec<Step>, earlier: Step, later: Step) -> Result<(), AllocError> {
    steps.push(earlier)?;
    steps.push(later)?;
    Ok(())
}

/// Adds the steps of a pair, exchanged or not.
fn add_either(
    steps: &mut Vec<Step>,
    pair: &(Step, Step),
    is_exchanged: bool,
) -> Result<(), AllocError> {
    let (first, second) = *pair;
    if is_exchanged {
        add_pair(steps, second, first)
    } else {
        add_pair(steps, first, second)
    }
}

/// These events in one of their sixteen orders, and the end of the day. Each binary digit of the number, from the
/// lowest on, says whether a pair is exchanged.
fn order_of(alloc: Global, number: u32) -> Result<Vec<Step>, AllocError> {
    let mut steps = Vec::new(alloc);
    let mut digits = number;
    for pair in PAIRS {
        add_either(&mut steps, pair, digits % 2 == 1)?;
        digits /= 2;
    }
    steps.push(Step::Finish)?;
    Ok(steps)
}

/// Days and plans that end alike in each of these orders, and what is told of them.
const ALIKE: &[(Texts<'static>, &[u8], &str)] = &[
    (
        ONE_MINUTE,
        b"trip,units\nT1,0\nT2,1\nT3,1\nT4,0\n",
        "ok\nok\nok\nok\nok\nok\nok\nok\ncost 120\n2 from 620\n0 from 630\n",
    ),
    // A unit is uncoupled and coupled in one minute.
    (
        TWO_TURNS,
        b"trip,units\nT1,0 1\nT2,2\nT3,0\nT4,2 1\n",
        "ok\nok\nok\nok\nok\nok\nok\nok\ncost 380\n0 from 630\n2 from 620\n2 from 620\n",
    ),
];

/// Makes one step, after which the day is the same day.
fn make(day: &mut Day<'_>, event: DayEvent) -> Result<(), StepFault>
    requires { trip_of event < length day.old.day.trips }
    ensures { day.new.day ≡ day.old.day }
{
    day.step(event)
}

/// Makes a step of a day, where there is such a trip, and writes what it tells.
fn write_step(
    text: &mut String,
    day: &mut Day<'_>,
    instance: &Instance,
    taken: Step,
) -> Result<(), AllocError>
    requires { day.old.day ≡ instance.now }
    ensures { day.new.day ≡ instance.now }
{
    match taken {
        Step::Depart(trip) if trip < instance.trips() => {
            write_fault(text, make(day, DayEvent::Depart(TripNo(trip))))
        }
        Step::Arrive(trip) if trip < instance.trips() => {
            write_fault(text, make(day, DayEvent::Arrive(TripNo(trip))))
        }
        Step::Finish => match day.finish() {
            Ok(cost) => write!(text, "cost {}\n", cost.0),
            Err(fault) => write!(text, "{fault:?}\n"),
        },
        _ => text.push_str("no such trip\n"),
    }
}

/// Writes what a step tells.
fn write_fault(text: &mut String, made: Result<(), StepFault>) -> Result<(), AllocError> {
    match made {
        Ok(()) => text.push_str("ok\n"),
        Err(fault) => write!(text, "{fault:?}\n"),
    }
}

/// Writes where each unit is.
fn write_places(text: &mut String, day: &Day<'_>, instance: &Instance) -> Result<(), AllocError>
    requires { day.now.day ≡ instance.now }
{
    for unit in 0..instance.units() {
        write_place(text, day.location(UnitNo(unit)))?;
    }
    Ok(())
}

/// Writes where a unit is: at a station, and from when it is ready, or with a trip.
fn write_place(text: &mut String, place: UnitLocation) -> Result<(), AllocError> {
    match place {
        UnitLocation::Yard { station, ready } => write!(text, "{} from {ready}\n", station.0),
        UnitLocation::Aboard(trip) => write!(text, "aboard {}\n", trip.0),
        UnitLocation::Standing(trip) => write!(text, "standing as {}\n", trip.0),
    }
}

/// What is told of a day with a plan in these steps.
fn stepped(
    alloc: Global,
    instance: &Instance,
    plan: &NamedPlan,
    steps: &[Step],
) -> Result<String, Fail>
    requires { IsPlan instance.now plan.now }
{
    let mut text = String::new(alloc);
    let mut day = Day::new(alloc, instance, plan)?;
    for taken in steps {
        write_step(&mut text, &mut day, instance, *taken)?;
    }
    write_places(&mut text, &day, instance)?;
    Ok(text)
}

/// What is told of a day that is made of its tables, with a plan in these steps.
fn told(alloc: Global, texts: &Texts<'_>, plan: &[u8], steps: &[Step]) -> Result<String, Fail> {
    let day = day_of(alloc, texts)?;
    let plan = plan_of(alloc, &day, plan)?;
    stepped(alloc, &day, &plan, steps)
}

#[test]
fn events_come_in_turn(rt: HostRuntime) -> Result<(), Fail> {
    for row in IN_TURN {
        let text = told(rt.alloc(), &row.texts, row.plan, row.steps)?;
        assert!(rt; text.as_str() == row.told, "{text}");
    }
    Ok(())
}

/// Asserts how these days end in the order of a number, which these steps are.
fn all_end_alike(rt: &impl Abort, alloc: Global, number: u32, steps: &[Step]) -> Result<(), Fail> {
    for (texts, plan, wanted) in ALIKE {
        let text = told(alloc, texts, *plan, steps)?;
        assert!(rt; text.as_str() == *wanted, "order {number}: {text}");
    }
    Ok(())
}

#[test]
fn events_of_one_minute_come_in_any_order(rt: HostRuntime) -> Result<(), Fail> {
    for number in 0..16 {
        let steps = order_of(rt.alloc(), number)?;
        all_end_alike(&rt, rt.alloc(), number, steps.as_slice())?;
    }
    Ok(())
}
