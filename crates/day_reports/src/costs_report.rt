//! The report of costs.

ghost use Rattle.std.specs.Prelude.{◌≡◌, ◌++◌, ◌∷◌, [], IfOk, OnOk};
ghost use Rattle.timetable.specs.Picks.{ArePicks, picked};
ghost use Rattle.day_reports.specs.CostRows.{amount_row, amount_rows, costs_text};

use crate::report::Report;
use cost_model::{CostParts, cost, parts};
use rail_base::{Money, NoMemory};
use std::alloc::Global;
use timetable::{Instance, Picks};

/// The report of what picks cost, as a table of comma-separated values with the columns `part,amount`: the rows
/// `carriage`, `shortage` and `shunting` with the parts of the cost, and the row `total` with their sum. There is one
/// pick for each trip, and each is the number of a composition of the catalogue; they need not be those of a plan that
/// runs. The error is want of memory.
#[tactic(auto, unfolding(crate::specs::CostRows::costs_text))]
pub fn costs_table(alloc: Global, instance: &Instance, picks: &Picks) -> Result<Vec<u8>, NoMemory>
    requires { ArePicks instance.now picks.now }
    ensures { IfOk result (λ text. text.items ≡ costs_text instance.now (picked instance.now picks.now)) }
{
    let mut report = Report::new(alloc);
    report.push(&[b"part", b"amount"])?;
    push_parts(
        alloc,
        &mut report,
        &parts(instance, picks),
        cost(instance, picks),
    )?;
    report.text()
}

/// Adds the rows of the parts and of a total.
fn push_parts(
    alloc: Global,
    report: &mut Report,
    parts: &CostParts,
    total: Money,
) -> Result<(), NoMemory>
    ensures { OnOk result (report.new ≡ report.old ++ amount_rows parts.now total.0) }
{
    push_part(alloc, report, b"carriage", parts.carriage)?;
    push_part(alloc, report, b"shortage", parts.shortage)?;
    push_part(alloc, report, b"shunting", parts.shunting)?;
    push_part(alloc, report, b"total", total)
}

/// Adds the row of one amount.
fn push_part(alloc: Global, report: &mut Report, name: &[u8], amount: Money) -> Result<(), NoMemory>
    ensures { OnOk result (report.new ≡ report.old ++ amount_row name.now amount.0 ∷ []) }
{
    let digits = format!(in alloc; "{}", amount.0)?;
    report.push(&[name, digits.as_bytes()])
}
