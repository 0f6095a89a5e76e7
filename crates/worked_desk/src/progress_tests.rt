//! How far a search has come, as it is told and as it is written.

use crate::desk::{ample_sink, folder_of, words_of};
use advisors::Advisor;
use day_improver::{Progress, Watcher};
use desk_app::progress::progress_line;
use desk_app::raildesk_watched;
use rail_base::{Money, NoMemory, Words};
use sample_days::{ONE_LEFT, TURN, Texts};
use std::alloc::Global;
use std::process::Abort;
use std::test::Fail;

/// Seconds, a bound, the price of a plan, and the line that tells them.
const LINES: &[(u64, Option<i128>, Option<i128>, &str)] = &[
    (
        12,
        Some(31_200),
        Some(35_400),
        "12 s: bound 31200, plan 35400, gap 12 %",
    ),
    (0, Some(120), Some(120), "0 s: bound 120, plan 120, gap 0 %"),
    (1, Some(0), Some(7), "1 s: bound 0, plan 7, gap 100 %"),
    (
        2,
        Some(995),
        Some(1_000),
        "2 s: bound 995, plan 1000, gap 1 %",
    ),
    (
        2,
        Some(996),
        Some(1_000),
        "2 s: bound 996, plan 1000, gap 0 %",
    ),
    (3, Some(0), Some(0), "3 s: bound 0, plan 0"),
    (3, Some(-5), Some(9), "3 s: bound -5, plan 9"),
    (60, Some(8), None, "60 s: bound 8, plan none"),
    (60, None, Some(8), "60 s: bound none, plan 8"),
    (60, None, None, "60 s: bound none, plan none"),
];

#[test]
fn a_line_tells_bound_plan_and_gap(rt: HostRuntime) -> Result<(), Fail> {
    for &(seconds, bound, plan, text) in LINES {
        let line = progress_line(rt.alloc(), seconds, bound.map(Money), plan.map(Money))?;
        assert!(rt; line.as_str() == text);
    }
    Ok(())
}

/// Counts how often it is told.
#[derive(Drop)]
struct Count {
    times: u64,
}

impl Watcher for Count {
    fn watch(&mut self, _progress: &Progress) {
        self.times = self.times.saturating_add(1);
    }
}

/// Days, words, and whether progress is told.
const TOLD: &[(Texts<'static>, &[&str], bool)] = &[
    (ONE_LEFT, &["desk", "plan", "day", "--progress"], true),
    (ONE_LEFT, &["desk", "plan", "day"], false),
    (ONE_LEFT, &["desk", "plans", "day", "--progress"], false),
    // The first bound ends the search.
    (TURN, &["desk", "plan", "day", "--progress"], false),
];

/// Runs the desk on a day with no advisors, and counts how often progress is told.
fn count_told(
    rt: &impl Abort,
    alloc: Global,
    texts: &Texts<'_>,
    words: &Words,
    count: &mut Count,
) -> Result<(), NoMemory> {
    let mut folder = folder_of(rt, alloc, texts, &[])?;
    let mut out = ample_sink(alloc)?;
    let mut advisors: Vec<Box<dyn Advisor>> = Vec::new(alloc);
    raildesk_watched(alloc, words, &mut folder, &mut out, &mut advisors, count);
    Ok(())
}

/// Counts likewise, by words as they are given.
fn count_by(
    rt: &impl Abort,
    alloc: Global,
    texts: &Texts<'_>,
    words: &[&str],
    count: &mut Count,
) -> Result<(), NoMemory> {
    let words = words_of(rt, alloc, words)?;
    count_told(rt, alloc, texts, &words, count)
}

#[test]
fn progress_is_told_where_it_is_asked_for(rt: HostRuntime) -> Result<(), Fail> {
    for (texts, words, is_told) in TOLD {
        let mut count = Count { times: 0 };
        count_by(&rt, rt.alloc(), texts, *words, &mut count)?;
        assert!(rt; (count.times > 0) == *is_told);
    }
    Ok(())
}
