//! Worked days: the first fault of the yards for picked compositions.

ghost use Rattle.std.specs.Prelude.{IfOk};
ghost use Rattle.timetable.specs.Picks.{ArePicks};
ghost use Rattle.unit_duties.specs.Broken.{AreAdmissible};

use crate::asking::picks_of;
use crate::drawn_yards_tests::first_fault;
use crate::exchange_days::{EARLY_EXCHANGE, EXCHANGE};
use inventory::StockFault;
use sample_days::{ONE_LEFT, Texts, day_of, may_run};
use std::alloc::Global;
use std::process::Abort;
use std::test::Fail;
use timetable::{Instance, Picks};

/// Days, what is picked for their two trips, and the first fault of the yards.
const FAULTS: &[(Texts<'static>, u32, u32, &str)] = &[
    // Both units come back, though one is wanted at the other station; or the second one comes back alone.
    (
        ONE_LEFT,
        1,
        1,
        "Some(Balance { station: StationNo(0), unit_type: TypeNo(0), count: 2 })",
    ),
    (ONE_LEFT, 1, 0, "None"),
    // The unit that is uncoupled is coupled again, and ready at 09:30. Compositions 2 and 3 are AB and BA.
    (EXCHANGE, 2, 3, "None"),
    (
        EARLY_EXCHANGE,
        2,
        3,
        "Some(Short { station: StationNo(1), unit_type: TypeNo(0), place: 0, count: -1 })",
    ),
];

/// Two picks for a day, which may run.
pub(crate) fn running_picks(
    rt: &impl Abort,
    alloc: Global,
    day: &Instance,
    first: u32,
    second: u32,
) -> Result<Picks, Fail>
    ensures picks { IfOk result (λ picks. ArePicks day.now picks) }
    ensures admissible { IfOk result (λ picks. AreAdmissible day.now picks) }
{
    let picks = picks_of(alloc, &[first, second])?;
    assert!(rt; may_run(day, &picks));
    Ok(picks)
}

/// The first fault for two picks, which may run, on a day.
fn fault_on(
    rt: &impl Abort,
    alloc: Global,
    day: &Instance,
    first: u32,
    second: u32,
) -> Result<Option<StockFault>, Fail> {
    let picks = running_picks(rt, alloc, day, first, second)?;
    first_fault(alloc, day, &picks)
}

/// The first fault for two picks, which may run.
pub(crate) fn fault_of(
    rt: &impl Abort,
    alloc: Global,
    texts: &Texts<'_>,
    first: u32,
    second: u32,
) -> Result<Option<StockFault>, Fail> {
    let day = day_of(alloc, texts)?;
    fault_on(rt, alloc, &day, first, second)
}

#[test]
fn first_faults(rt: HostRuntime) -> Result<(), Fail> {
    for (texts, first, second, wanted) in FAULTS {
        let fault = fault_of(&rt, rt.alloc(), texts, *first, *second)?;
        let text = format!(in rt.alloc(); "{fault:?}")?;
        assert!(rt; text.as_str() == *wanted, "{text}");
    }
    Ok(())
}
