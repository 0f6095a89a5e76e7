//! The lines that tell how far a search has come, by a clock that is set by hand.

use day_improver::{Progress, Watcher};
use desk_app::ProgressLines;
use rail_base::Money;
use std::alloc::Global;
use std::cell::{Cell, RefCell};
use std::fmt::Display;
use std::io;
use std::io::Eprint;
use std::process::Abort;
use std::test::Fail;
use std::time::{Clock, Duration};

/// The number of an error of the system.
const FAULT: i32 = 5;

/// A clock that stands at so many thousandths of a second, or can't be read, and a standard error that keeps its text.
#[derive(Drop)]
struct Console {
    stands_at: Cell<Option<u64>>,
    text: RefCell<String>,
}

impl Clock for Console {
    fn monotonic(&self) -> io::Result<Duration> {
        match self.stands_at.get() {
            Some(millis) => Ok(Duration::from_millis(millis)),
            None => Err(io::Error::from_raw_os_error(FAULT)),
        }
    }

    fn since_1970(&self) -> io::Result<Duration> {
        self.monotonic()
    }
}

impl Eprint for Console {
    fn eprint<D: Display + Drop>(&self, value: D) -> io::Result<()> {
        let fault = Err(io::Error::from_raw_os_error(FAULT));
        let Ok(mut text) = self.text.try_borrow_mut() else {
            return fault;
        };
        if write!(text, "{value}").is_err() {
            return fault;
        }
        Ok(())
    }

    fn eprintln<D: Display + Drop>(&self, value: D) -> io::Result<()> {
        self.eprint(value)?;
        self.eprint("\n")
    }
}

impl Console {
    /// Whether this is written since the last such question.
    fn has_written(&self, wanted: &str) -> bool {
        let Ok(mut text) = self.text.try_borrow_mut() else {
            return false;
        };
        let is_wanted = text.as_str() == wanted;
        text.clear();
        is_wanted
    }
}

/// Where the clock stands when a watcher is told, the bound and the plan, and what is written then.
type Row = (Option<u64>, Option<i128>, Option<i128>, &'static str);

/// From 7.5 seconds on: what is new is told, but once a second, by whole seconds; where the clock can't be read nothing
/// is.
const TOLD: &[Row] = &[
    (Some(7_700), Some(100), None, "0 s: bound 100, plan none\n"),
    (Some(8_499), Some(110), None, ""),
    (Some(8_500), Some(110), None, "1 s: bound 110, plan none\n"),
    (Some(10_000), Some(110), None, ""),
    (
        Some(10_100),
        Some(110),
        Some(200),
        "2 s: bound 110, plan 200, gap 45 %\n",
    ),
    (Some(10_400), Some(120), Some(200), ""),
    (None, Some(120), Some(200), ""),
    (
        Some(132_600),
        Some(150),
        Some(200),
        "125 s: bound 150, plan 200, gap 25 %\n",
    ),
    (Some(133_600), Some(150), Some(200), ""),
];

/// Asserts that what a watcher is told is written as the rows say.
fn expect_told(rt: &impl Abort, alloc: Global, console: &Console) {
    let mut lines = ProgressLines::new(alloc, console);
    for (stands_at, bound, plan, wanted) in TOLD {
        console.stands_at.set(*stands_at);
        lines.watch(&Progress {
            node: 0,
            branchings: 0,
            evaluations: 0,
            bound: bound.map(Money),
            plan: plan.map(Money),
        });
        assert!(rt; console.has_written(*wanted), "{wanted}");
    }
}

#[test]
fn news_are_told_once_a_second(rt: HostRuntime) -> Result<(), Fail> {
    let console = Console {
        stands_at: Cell::new(Some(7_500)),
        text: RefCell::new(String::new(rt.alloc())),
    };
    expect_told(&rt, rt.alloc(), &console);
    Ok(())
}
