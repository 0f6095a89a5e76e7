//! How far a search has come, told in lines on the standard error.

ghost use Rattle.std.specs.Prelude.{◌≡◌, IfOk, IsTrue, int_le, int_lt, pos, string_bytes};
ghost use Rattle.answer_text.specs.declared.limits.TheConstants.{MAX_AMOUNT};
ghost use Rattle.desk_app.specs.ProgressTexts.{amount_text, gap_between, gap_of, gap_text, nearest_percent};
ghost use Rattle.desk_app.specs.ProgressTexts.{progress_line};

use answer_text::limits::MAX_AMOUNT;
use day_improver::{Progress, Watcher};
use rail_base::{Money, NoMemory};
use std::alloc::Global;
use std::io::Eprint;
use std::time::{Clock, Instant};

/// Writes a line on the standard error where the bound or the plan got better, at most once a second of the clock.
/// Where the clock cannot be read, the line cannot be written or memory runs out, it is left out, and nothing else
/// changes.
#[derive(Drop)]
pub struct ProgressLines<'a, R: Clock + Eprint> {
    alloc: Global,
    rt: &'a R,
    begun: Option<Instant>,
    told_at: Option<u64>,
    bound: Option<Money>,
    plan: Option<Money>,
}

impl<'a, R: Clock + Eprint> ProgressLines<'a, R> {
    /// Nothing is told yet. Seconds are counted from this call on.
    pub fn new(alloc: Global, rt: &'a R) -> ProgressLines<'a, R> {
        ProgressLines {
            alloc,
            rt,
            begun: Instant::now(rt).ok(),
            told_at: None,
            bound: None,
            plan: None,
        }
    }

    /// How many whole seconds have gone by, where the clock can be read.
    fn seconds(&self) -> Option<u64> {
        let begun = self.begun?;
        match begun.elapsed(self.rt) {
            Ok(gone) => Some(gone.as_secs()),
            Err(_) => None,
        }
    }

    /// Whether the bound or the plan is another one than was told last.
    fn is_news(&self, progress: &Progress) -> bool {
        self.bound != progress.bound || self.plan != progress.plan
    }
}

impl<'a, R: Clock + Eprint> Watcher for ProgressLines<'a, R> {
    fn watch(&mut self, progress: &Progress) {
        let Some(seconds) = self.seconds() else {
            return;
        };
        if self.told_at == Some(seconds) || !self.is_news(progress) {
            return;
        }
        self.told_at = Some(seconds);
        self.bound = progress.bound;
        self.plan = progress.plan;
        if let Ok(line) = progress_line(self.alloc, seconds, progress.bound, progress.plan) {
            let _told = self.rt.eprintln(line);
        }
    }
}

/// The line that tells which bound and which plan were found so many seconds after the start, and the gap between them,
/// without its line feed. The error is want of memory.
pub fn progress_line(
    alloc: Global,
    seconds: u64,
    bound: Option<Money>,
    plan: Option<Money>,
) -> Result<String, NoMemory>
    ensures { IfOk result (λ line. string_bytes line ≡ progress_line seconds bound plan) }
{
    let bound_said = amount_text(alloc, bound)?;
    let plan_said = amount_text(alloc, plan)?;
    let gap_said = gap_text(alloc, gap_of(bound, plan))?;
    Ok(format!(in alloc; "{seconds} s: bound {bound_said}, plan {plan_said}{gap_said}")?)
}

/// An amount, or that there is none.
fn amount_text(alloc: Global, amount: Option<Money>) -> Result<String, NoMemory>
    ensures { IfOk result (λ text. string_bytes text ≡ amount_text amount) }
{
    match amount {
        Some(money) => Ok(format!(in alloc; "{}", money.0)?),
        None => Ok(String::from_str(alloc, "none")?),
    }
}

/// The gap in whole percent of what the plan costs, where it can be told.
fn gap_of(bound: Option<Money>, plan: Option<Money>) -> Option<i128>
    ensures { result ≡ gap_of bound plan }
{
    let Some(bound) = bound else {
        return None;
    };
    let Some(plan) = plan else {
        return None;
    };
    gap_between(bound.0, plan.0)
}

/// The gap between a bound and what a plan costs.
fn gap_between(bound: i128, plan: i128) -> Option<i128>
    ensures { result ≡ gap_between bound plan }
{
    if 0 <= bound && bound <= plan && 0 < plan && plan <= MAX_AMOUNT as i128 {
        return Some(nearest_percent(plan - bound, plan));
    }
    None
}

/// A part in whole percent of a whole, the nearest, and a half upwards.
fn nearest_percent(part: i128, whole: i128) -> i128
    requires low { IsTrue (int_le (pos 0) part) }
    requires within { IsTrue (int_le part whole) }
    requires positive { IsTrue (int_lt (pos 0) whole) }
    requires limit { IsTrue (int_le whole (pos MAX_AMOUNT)) }
    ensures { result ≡ nearest_percent part whole }
{
    (part * 200 + whole) / (whole * 2)
}

/// What is said of the gap, where there is one.
fn gap_text(alloc: Global, gap: Option<i128>) -> Result<String, NoMemory>
    ensures { IfOk result (λ text. string_bytes text ≡ gap_text gap) }
{
    match gap {
        Some(percent) => Ok(format!(in alloc; ", gap {percent} %")?),
        None => Ok(String::new(alloc)),
    }
}
