//! The line of a check: what a valid answer says, or the first thing that is wrong with it.

ghost use Rattle.std.specs.Prelude.{◌≡◌, IfOk, string_bytes};
ghost use Rattle.run_documents.specs.CheckTexts.{below_text, bound_text, branchings_text, check_line, cost_text};
ghost use Rattle.run_documents.specs.CheckTexts.{found_text, invalid_line, least_text, ray_text, reason_text};
ghost use Rattle.run_documents.specs.CheckTexts.{runs_differ_text, unknown_unit_text};

use crate::document::fault_text;
use answer_check::AnswerVerdict;
use answer_text::{Head, write_head};
use cert_check::Reason;
use rail_base::{Money, NoMemory, NodeNo, TripNo};
use std::alloc::Global;

/// The line of a check of an answer that says this, with its line feed.
pub(crate) fn check_line(
    alloc: Global,
    head: &Head,
    verdict: &AnswerVerdict,
) -> Result<String, NoMemory>
    ensures { IfOk result (λ line. string_bytes line ≡ check_line head.now verdict.now) }
{
    match verdict {
        AnswerVerdict::Valid => valid_line(alloc, head),
        AnswerVerdict::RunsDiffer { said, found } => {
            invalid_line(alloc, runs_differ_text(alloc, *said, *found)?)
        }
        AnswerVerdict::UnknownUnit(trip) => invalid_line(alloc, unknown_unit_text(alloc, *trip)?),
        AnswerVerdict::Stops(fault) => invalid_line(alloc, fault_text(alloc, fault)?),
        AnswerVerdict::Claim(reason) => invalid_line(alloc, reason_text(alloc, reason)?),
    }
}

/// The line of a valid answer that says this.
fn valid_line(alloc: Global, head: &Head) -> Result<String, NoMemory>
    ensures { IfOk result (λ line. string_bytes line ≡ check_line head.now AnswerVerdict.Valid) }
{
    let mut line = String::from_str(alloc, "valid ")?;
    write_head(&mut line, head)?;
    Ok(line)
}

/// The line of an answer with which this is wrong.
fn invalid_line(alloc: Global, text: String) -> Result<String, NoMemory>
    ensures { IfOk result (λ line. string_bytes line ≡ invalid_line (string_bytes text)) }
{
    Ok(format!(in alloc; "invalid: {text}\n")?)
}

/// There are not as many runs as trips.
fn runs_differ_text(alloc: Global, said: u32, found: u32) -> Result<String, NoMemory>
    ensures { IfOk result (λ text. string_bytes text ≡ runs_differ_text said found) }
{
    Ok(format!(in alloc; "{said} runs for {found} trips")?)
}

/// The run of a trip names a unit that the day does not have.
fn unknown_unit_text(alloc: Global, trip: TripNo) -> Result<String, NoMemory>
    ensures { IfOk result (λ text. string_bytes text ≡ unknown_unit_text trip) }
{
    let trip = trip.0;
    Ok(format!(in alloc; "run {trip} names an unknown unit")?)
}

/// Why a tree does not prove what is said.
fn reason_text(alloc: Global, reason: &Reason) -> Result<String, NoMemory>
    ensures { IfOk result (λ text. string_bytes text ≡ reason_text reason.now) }
{
    match *reason {
        Reason::TreeShape(node) => Ok(format!(in alloc; "tree breaks at node {}", node.0)?),
        Reason::BranchingsDiffer { said, found } => branchings_text(alloc, said, found),
        Reason::NotProper(node) => Ok(format!(in alloc; "node {} cuts nothing", node.0)?),
        Reason::MultiplierIndex(node) => {
            Ok(format!(in alloc; "node {} has a wrong multiplier", node.0)?)
        }
        Reason::BoundDiffers { node, said, found } => bound_text(alloc, node, said, found),
        Reason::RayNotPositive { node, found } => ray_text(alloc, node, found),
        Reason::NotEmpty(node) => Ok(format!(in alloc; "node {} is not empty", node.0)?),
        Reason::PicksFail => Ok(String::from_str(alloc, "plan fails")?),
        Reason::CostDiffers { said, found } => cost_text(alloc, said, found),
        Reason::LeafBelowCost { node, bound, cost } => below_text(alloc, node, bound, cost),
        Reason::CostLeafLeft(node) => Ok(format!(in alloc; "node {} is a cost leaf", node.0)?),
        Reason::LeastBoundDiffers { said, found } => least_text(alloc, said, found),
    }
}

/// What was found, or that there is nothing.
fn found_text(alloc: Global, found: Option<Money>) -> Result<String, NoMemory>
    ensures { IfOk result (λ text. string_bytes text ≡ found_text found) }
{
    match found {
        Some(money) => Ok(format!(in alloc; "{}", money.0)?),
        None => Ok(String::from_str(alloc, "nothing")?),
    }
}

/// Another number of branchings is said than there are.
fn branchings_text(alloc: Global, said: u32, found: u32) -> Result<String, NoMemory>
    ensures { IfOk result (λ text. string_bytes text ≡ branchings_text said found) }
{
    Ok(format!(in alloc; "{said} branchings said, {found} found")?)
}

/// A cost leaf has another bound than is found.
fn bound_text(
    alloc: Global,
    node: NodeNo,
    said: Money,
    found: Option<Money>,
) -> Result<String, NoMemory>
    ensures { IfOk result (λ text. string_bytes text ≡ bound_text node said found) }
{
    let found = found_text(alloc, found)?;
    Ok(format!(in alloc; "node {} says {}, found {found}", node.0, said.0)?)
}

/// What is found for a ray leaf is not positive.
fn ray_text(alloc: Global, node: NodeNo, found: Option<Money>) -> Result<String, NoMemory>
    ensures { IfOk result (λ text. string_bytes text ≡ ray_text node found) }
{
    let found = found_text(alloc, found)?;
    Ok(format!(in alloc; "ray of node {} is {found}", node.0)?)
}

/// The plan has another cost than is said.
fn cost_text(alloc: Global, said: Money, found: Money) -> Result<String, NoMemory>
    ensures { IfOk result (λ text. string_bytes text ≡ cost_text said found) }
{
    Ok(format!(in alloc; "cost {} said, {} found", said.0, found.0)?)
}

/// The bound of a leaf is below the cost that is said.
fn below_text(alloc: Global, node: NodeNo, bound: Money, cost: Money) -> Result<String, NoMemory>
    ensures { IfOk result (λ text. string_bytes text ≡ below_text node bound cost) }
{
    Ok(format!(in alloc; "node {} has bound {} below {}", node.0, bound.0, cost.0)?)
}

/// Another bound is said than the least of the leaves.
fn least_text(alloc: Global, said: Money, found: Option<Money>) -> Result<String, NoMemory>
    ensures { IfOk result (λ text. string_bytes text ≡ least_text said found) }
{
    let found = found_text(alloc, found)?;
    Ok(format!(in alloc; "bound {} said, {found} found", said.0)?)
}
