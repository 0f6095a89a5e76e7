//! The answer that a text is.

ghost use Rattle.std.specs.Prelude.{◌≡◌, ◌≤◌, ◌<◌, ◌^◌, ◌-◌, [], length, IfErr, IfOk, MatchResult, Ok, Err};
ghost use Rattle.std.specs.Str.{bytes_eq};
ghost use Rattle.rail_base.specs.Answers.{Gives, Unless};
ghost use Rattle.answer_text.specs.declared.answer.Answer.{Answer};
ghost use Rattle.answer_text.specs.declared.refusal.AnswerRefusal.{AnswerRefusal};
ghost use Rattle.answer_text.specs.Grammar.{IsAnswerRefusal, IsText, is_memory};
ghost use Rattle.answer_text.specs.Lines.{line_feed};
ghost use Rattle.answer_text.specs.Pieces.{pieces};
ghost use Rattle.answer_text.specs.ReadStates.{at_branchings, at_head, at_nodes, at_runs, at_title, HasNone, IsNext};
ghost use Rattle.answer_text.specs.ReadStates.{most_runs, reading, whole};

use crate::answer::{Answer, Head, Runs};
use crate::lines::{branchings_in, head_in, run_in};
use crate::nodes::node_in;
use crate::pieces::first_piece;
use crate::refusal::AnswerRefusal;
use branch_tree::Tree;
use rail_base::limits::{MAX_NODES, MAX_TRIPS};
use rail_csv::UnitList;
use std::alloc::Global;

/// The answer that a text is. A text of `print` is read as the answer that was printed. A refusal names the first wrong
/// line: `BadLine` one that does not fit its place or has no line feed, `MissingEnd` that all lines are right and the
/// text ends before the line `end`, `Trailing` that something follows the line `end`, `TooManyNodes` the 8,002nd node
/// line. `NoMemory` is want of memory.
pub fn read(alloc: Global, bytes: &[u8]) -> Result<Answer, AnswerRefusal>
    // What is read is within the limits, and the bytes are its text.
    ensures found { IfOk result (λ answer. IsText bytes.now answer) }
    // The text of an answer within the limits is read as that answer, unless memory runs out.
    ensures accepted { (answer : Answer) → IsText bytes.now answer → Gives is_memory result (Ok answer) }
    // A refusal has its cause, and where there is a cause, the answer is that refusal, unless memory runs out.
    ensures refused { IfErr result (λ refusal. Unless (is_memory refusal) (IsAnswerRefusal bytes.now refusal)) }
    ensures exact { (refusal : AnswerRefusal) → IsAnswerRefusal bytes.now refusal
        → Gives is_memory result (Err refusal) }
{
    read_from_title(alloc, bytes)
}

/// The answer whose text these bytes are, line by line.
fn read_from_title(alloc: Global, bytes: &[u8]) -> Result<Answer, AnswerRefusal>
    ensures { Gives is_memory result (reading at_title (pieces line_feed bytes.now)) }
{
    let (line, rest) = cut_line(1, bytes)?;
    if !is_line(line, b"railplan answer 1") {
        return Err(AnswerRefusal::BadLine(1));
    }
    read_from_head(alloc, rest)
}

/// The answer whose text goes on with the head line.
fn read_from_head(alloc: Global, bytes: &[u8]) -> Result<Answer, AnswerRefusal>
    ensures { Gives is_memory result (reading at_head (pieces line_feed bytes.now)) }
{
    let (line, rest) = cut_line(2, bytes)?;
    let Some(head) = head_in(line) else {
        return Err(AnswerRefusal::BadLine(2));
    };
    read_from_branchings(alloc, head, rest)
}

/// The answer whose text goes on with the number of branchings.
fn read_from_branchings(alloc: Global, head: Head, bytes: &[u8]) -> Result<Answer, AnswerRefusal>
    ensures { Gives is_memory result (reading (at_branchings head) (pieces line_feed bytes.now)) }
{
    let (line, rest) = cut_line(3, bytes)?;
    let Some(branchings) = branchings_in(line) else {
        return Err(AnswerRefusal::BadLine(3));
    };
    read_from_runs(alloc, head, branchings, rest)
}

/// The answer whose text goes on with the run lines, if there are any, and the line `tree`.
fn read_from_runs(
    alloc: Global,
    head: Head,
    branchings: u32,
    bytes: &[u8],
) -> Result<Answer, AnswerRefusal>
    ensures { Gives is_memory result (reading (at_runs head branchings []) (pieces line_feed bytes.now)) }
{
    let most = most_runs(&head);
    let mut runs = Vec::new(alloc);
    let mut rest = bytes;
    loop {
        let count = runs.len();
        let number = 4 + count as u32;
        let (line, after) = cut_line(number, rest)?;
        if is_line(line, b"tree") {
            return read_from_nodes(alloc, head, branchings, runs, after);
        }
        if count == most {
            return Err(AnswerRefusal::BadLine(number));
        }
        let Some(units) = run_in(alloc, count, line)? else {
            return Err(AnswerRefusal::BadLine(number));
        };
        runs.push(units)?;
        rest = after;
    }
}

/// The answer whose text goes on with the node lines and the line `end`.
fn read_from_nodes(
    alloc: Global,
    head: Head,
    branchings: u32,
    runs: Vec<UnitList>,
    bytes: &[u8],
) -> Result<Answer, AnswerRefusal>
    requires { length runs.items ≤ MAX_TRIPS }
    ensures { Gives is_memory result (reading (at_nodes head branchings runs.items []) (pieces line_feed bytes.now)) }
{
    let trips = runs.len();
    let first = 5 + trips as u32;
    let mut tree = Tree::new(alloc)?;
    let mut rest = bytes;
    loop {
        let number = first + tree.len();
        let (line, after) = cut_line(number, rest)?;
        if is_line(line, b"end") {
            let answer = Answer {
                head,
                branchings,
                runs: Runs::of(runs),
                tree,
            };
            return whole(answer, number, after);
        }
        let Some(node) = node_in(alloc, line)? else {
            return Err(AnswerRefusal::BadLine(number));
        };
        if tree.len() == MAX_NODES {
            return Err(AnswerRefusal::TooManyNodes);
        }
        tree.push(node)?;
        rest = after;
    }
}

/// An answer, where its last line of this number has a node before it and nothing behind it.
fn whole(answer: Answer, number: u32, after: &[u8]) -> Result<Answer, AnswerRefusal>
    requires { number < 2 ^ 32 - 1 }
    ensures { result ≡ whole answer number after.now }
{
    if answer.tree.len() == 0 {
        return Err(AnswerRefusal::BadLine(number));
    }
    if !after.is_empty() {
        return Err(AnswerRefusal::Trailing(number + 1));
    }
    Ok(answer)
}

/// How many runs there may be after a head.
fn most_runs(head: &Head) -> usize
    ensures value { result ≡ most_runs head.now }
    ensures few { result ≤ MAX_TRIPS }
{
    if head.has_plan() { MAX_TRIPS } else { 0 }
}

/// The next line, which has this number, and what follows it.
fn cut_line(number: u32, bytes: &[u8]) -> Result<(&[u8], &[u8]), AnswerRefusal>
    ensures { MatchResult result (λ x. IsNext number bytes.now x.0.now x.1.now) (λ e. HasNone number bytes.now e) }
{
    if bytes.is_empty() {
        return Err(AnswerRefusal::MissingEnd);
    }
    let (line, rest) = first_piece(b'\n', bytes);
    if rest.is_empty() {
        return Err(AnswerRefusal::BadLine(number));
    }
    Ok((line, &rest[1..]))
}

/// Whether a line is this one.
fn is_line(line: &[u8], wanted: &[u8]) -> bool
    ensures { result ≡ bytes_eq line.now wanted.now }
{
    line == wanted
}
