//! Plans of a day with other advisors than those of the program: what they propose is used, and they may quit or lack
//! memory.

ghost use Rattle.std.specs.Prelude.{◌≡◌, ◌≤◌, ◌^◌, All};
ghost use Rattle.advisors.specs.Quits.{quit_after};
ghost use Rattle.advisors.specs.Proposals.{DoesFit, IsOverSame};

use crate::day::{AMPLE_ROOM, STAYING, ample_sink, folder_of, words_of};
use advisors::{Advisor, Look, Proposal, Subgradient, Word};
use branch_tree::{Cut, PutRefusal};
use planner_app::railplan;
use rail_base::{CompNo, NoMemory, TripNo, TypeNo, Words};
use rail_io::MemoryFolder;
use std::alloc::{AllocError, Global};
use std::process::Abort;
use std::test::Fail;

const WITHOUT_BRANCHINGS: &[&str] = &["railplan", "plan", "day", "--nodes", "0"];

const IN_SEVEN_ROUNDS: &[&str] = &["railplan", "plan", "day", "--nodes", "0", "--rounds", "7"];

const WITH_TWO_BRANCHINGS: &[&str] = &["railplan", "plan", "day", "--nodes", "2", "--rounds", "3"];

/// What is written with two branchings where no advice is used.
const UNADVISED: &str = "railplan answer 1\noptimal 190\nbranchings 2\nrun 0 0 1\nrun 1 1\ntree\n\
    only 0 1\nonly 1 1\nray 1 2:-1\ncost 190 0\nray 1 2:-1\nend\n";

/// What is written without branchings where no advice is used.
const FIRST_BOUND: &str = "railplan answer 1\nbounded 120\nbranchings 0\ntree\ncost 120 0\nend\n";

/// What an advisor proposes, the same at each call.
#[derive(Clone, Copy)]
enum Advice {
    Nothing,
    /// A multiplier at index 3.
    Multiplier(i64),
    /// Multipliers that are refused: at an index that is not there, below 0 where that may not be, and over the limit.
    RefusedMultipliers,
    /// The cut that leaves a trip one composition alone on the left side.
    Only { trip: u32, comp: u32 },
    /// The cut that leaves a trip so many units of type 0 at most on the left side.
    AtMost { trip: u32, count: u32 },
}

/// What an advisor answers.
#[derive(Clone, Copy)]
enum Reply {
    More,
    Quit,
    NoMemory,
}

/// An advisor that proposes the same each time, and has a reply for its first two calls; at every other one it answers
/// `More`. It quits where what it puts is not taken or refused as it is to be.
#[derive(Drop)]
struct Steady {
    advice: Advice,
    replies: [Reply; 2],
    asked: u64,
    has_quit: bool,
}

impl Steady {
    /// One that was not asked yet.
    fn new(advice: Advice, replies: [Reply; 2]) -> Steady
        ensures { result.asked ≡ 0 }
    {
        Steady {
            advice,
            replies,
            asked: 0,
            has_quit: false,
        }
    }
}

impl Advisor for Steady {
    ghost asked = { λ advisor. advisor.asked };

    ghost has_quit = { λ advisor. advisor.has_quit };

    fn advise(&mut self, _look: &Look<'_>, to: &mut Proposal) -> Result<Word, NoMemory> {
        let is_right = propose(to, self.advice);
        let answer = answer_to_call(self.asked, self.replies, is_right);
        self.asked += 1;
        self.has_quit = is_quit(&answer);
        answer
    }

    fn asked(&self) -> u64 {
        self.asked
    }

    fn has_quit(&self) -> bool {
        self.has_quit
    }
}

/// The answer to a call before which there were so many, by whether its proposal was taken or refused as it is to be.
fn answer_to_call(before: u64, replies: [Reply; 2], is_right: bool) -> Result<Word, NoMemory> {
    if !is_right {
        return Ok(Word::Quit);
    }
    let reply = match before {
        0 => replies[0],
        1 => replies[1],
        _ => Reply::More,
    };
    match reply {
        Reply::More => Ok(Word::More),
        Reply::Quit => Ok(Word::Quit),
        Reply::NoMemory => Err(NoMemory),
    }
}

/// Whether an answer is that an advisor quits.
fn is_quit(answer: &Result<Word, NoMemory>) -> bool
    ensures { result ≡ quit_after answer.now }
{
    match answer {
        Ok(Word::Quit) => true,
        Ok(Word::More) | Ok(Word::Enough) | Err(_) => false,
    }
}

/// Proposes what an advisor is to, and tells whether its multipliers were taken and refused as they are to be.
fn propose(to: &mut Proposal, advice: Advice) -> bool
    ensures over { IsOverSame to.old to.new }
    ensures fit { DoesFit to.new }
{
    to.multipliers();
    match advice {
        Advice::Nothing => true,
        Advice::Multiplier(value) => to.put(3, value).is_ok(),
        Advice::RefusedMultipliers => {
            is_refused(to, 4, 1, PutRefusal::NoIndex)
                && is_refused(to, 0, -1, PutRefusal::Negative)
                && is_refused(to, 3, 1_000_000_000_001, PutRefusal::TooLarge)
        }
        Advice::Only { trip, comp } => {
            to.cut(Cut::Only {
                trip: TripNo(trip),
                comp: CompNo(comp),
            });
            true
        }
        Advice::AtMost { trip, count } => {
            to.cut(Cut::AtMost {
                trip: TripNo(trip),
                unit_type: TypeNo(0),
                count,
            });
            true
        }
    }
}

/// Puts a multiplier, and tells whether it is refused for this reason.
fn is_refused(to: &mut Proposal, index: u32, value: i64, refusal: PutRefusal) -> bool
    ensures over { IsOverSame to.old to.new }
    ensures fit { DoesFit to.new }
{
    to.multipliers();
    to.put(index, value) == Err(refusal)
}

/// What words come to on the day on which one unit stays: the status, what is written, and of each advisor how often it
/// was asked, and whether it has quit.
fn planned(
    rt: &impl Abort,
    alloc: Global,
    words: &[&str],
    advisors: &mut Vec<Box<dyn Advisor>>,
) -> Result<String, Fail>
    requires asked { All (λ advisor. asked advisor ≤ 2 ^ 63) advisors.old.items }
{
    let mut folder = folder_of(rt, alloc, STAYING, Vec::new(alloc))?;
    let words = words_of(rt, alloc, words)?;
    planned_in(alloc, &mut folder, &words, advisors)
}

/// What words come to over a folder, told likewise.
fn planned_in(
    alloc: Global,
    folder: &mut MemoryFolder,
    words: &Words,
    advisors: &mut Vec<Box<dyn Advisor>>,
) -> Result<String, Fail>
    requires asked { All (λ advisor. asked advisor ≤ 2 ^ 63) advisors.old.items }
{
    let mut out = ample_sink(alloc, AMPLE_ROOM)?;
    let status = railplan(alloc, words, folder, &mut out, advisors);
    Ok(told(alloc, status, out.written(), advisors)?)
}

/// A status, what is written, and of each advisor how often it was asked, and whether it has quit.
fn told(
    alloc: Global,
    status: u8,
    written: &[u8],
    advisors: &[Box<dyn Advisor>],
) -> Result<String, AllocError> {
    let mut text = format!(in alloc; "status {status}\n")?;
    write_utf8(&mut text, written)?;
    write_asked(&mut text, advisors)?;
    Ok(text)
}

/// Writes the bytes of a text, or that they are none.
fn write_utf8(text: &mut String, bytes: &[u8]) -> Result<(), AllocError> {
    match str::from_utf8(bytes) {
        Ok(written) => text.push_str(written),
        Err(_) => text.push_str("no text\n"),
    }
}

/// Writes of each advisor how often it was asked, and whether it has quit.
fn write_asked(text: &mut String, advisors: &[Box<dyn Advisor>]) -> Result<(), AllocError> {
    for advisor in advisors {
        let quit = if advisor.has_quit() { ", quit" } else { "" };
        write!(text, "asked {}{quit}\n", advisor.asked())?;
    }
    Ok(())
}

/// The words of a plan, what its only advisor proposes and answers, and what comes of it: the status, the document, and
/// what is told of the advisor.
#[derive(Clone, Copy)]
struct Row {
    words: &'static [&'static str],
    advice: Advice,
    replies: [Reply; 2],
    status: u8,
    document: &'static str,
    asked: &'static str,
}

/// An advisor that proposes nothing, with two branchings.
const NO_PROPOSALS: Row = Row {
    words: WITH_TWO_BRANCHINGS,
    advice: Advice::Nothing,
    replies: [Reply::More, Reply::More],
    status: 0,
    document: UNADVISED,
    asked: "asked 6",
};

const ROWS: &[Row] = &[
    Row {
        advice: Advice::RefusedMultipliers,
        ..NO_PROPOSALS
    },
    Row {
        advice: Advice::Only { trip: 400, comp: 0 },
        ..NO_PROPOSALS
    },
    Row {
        advice: Advice::Only { trip: 0, comp: 5 },
        ..NO_PROPOSALS
    },
    // With one unit on the first trip no unit can stay; with two the cut is no longer proper.
    Row {
        advice: Advice::AtMost { trip: 0, count: 1 },
        document: "railplan answer 1\noptimal 190\nbranchings 2\nrun 0 0 1\nrun 1 1\ntree\n\
            most 0 0 1\nray 1 2:-1\nonly 1 1\nray 1 2:-1\ncost 190 0\nend\n",
        ..NO_PROPOSALS
    },
    Row {
        advice: Advice::Multiplier(-1_000_000_000_000),
        ..NO_PROPOSALS
    },
    // Under it the bound is that of the cheapest picks that leave a unit at Y.
    Row {
        advice: Advice::Multiplier(1_000_000_000_000),
        document: "railplan answer 1\noptimal 190\nbranchings 0\nrun 0 0 1\nrun 1 1\ntree\n\
            cost 190 1 3:1000000000000\nend\n",
        asked: "asked 1",
        ..NO_PROPOSALS
    },
    Row {
        replies: [Reply::Quit, Reply::More],
        asked: "asked 1, quit",
        ..NO_PROPOSALS
    },
    Row {
        replies: [Reply::More, Reply::NoMemory],
        status: 7,
        document: "",
        asked: "asked 2",
        ..NO_PROPOSALS
    },
    // Under 70 at index 3 no picks have a lower value than the plan.
    Row {
        words: WITHOUT_BRANCHINGS,
        advice: Advice::Multiplier(70),
        document: "railplan answer 1\noptimal 190\nbranchings 0\nrun 0 0 1\nrun 1 1\ntree\ncost 190 1 3:70\nend\n",
        asked: "asked 1",
        ..NO_PROPOSALS
    },
    // The first bound stays open, so that all rounds are made: 20 where no number of them is given.
    Row {
        words: WITHOUT_BRANCHINGS,
        status: 4,
        document: FIRST_BOUND,
        asked: "asked 20",
        ..NO_PROPOSALS
    },
    Row {
        words: IN_SEVEN_ROUNDS,
        status: 4,
        document: FIRST_BOUND,
        asked: "asked 7",
        ..NO_PROPOSALS
    },
];

/// Asserts that a text is the one that is wanted.
fn expect_text(rt: &impl Abort, text: &str, wanted: &str) {
    assert!(rt; text == wanted, "{text}");
}

/// Asserts that a text is what is told of a row.
fn expect_told(rt: &impl Abort, alloc: Global, row: &Row, text: &str) -> Result<(), AllocError> {
    let wanted = format!(in alloc; "status {}\n{}{}\n", row.status, row.document, row.asked)?;
    expect_text(rt, text, wanted.as_str());
    Ok(())
}

/// Asserts what comes of a row.
fn expect(rt: &impl Abort, alloc: Global, row: &Row) -> Result<(), Fail> {
    let mut advisors: Vec<Box<dyn Advisor>> = Vec::new(alloc);
    advisors.push(Box::new(alloc, Steady::new(row.advice, row.replies))?)?;
    let text = planned(rt, alloc, row.words, &mut advisors)?;
    expect_told(rt, alloc, row, text.as_str())?;
    Ok(())
}

#[test]
fn advice_of_one_advisor(rt: HostRuntime) -> Result<(), Fail> {
    for row in ROWS {
        expect(&rt, rt.alloc(), row)?;
    }
    Ok(())
}

#[test]
fn the_others_are_asked_after_one_has_quit(rt: HostRuntime) -> Result<(), Fail> {
    let alloc = rt.alloc();
    let quitting = Steady::new(Advice::Nothing, [Reply::More, Reply::Quit]);
    let mut advisors: Vec<Box<dyn Advisor>> = Vec::new(alloc);
    advisors.push(Box::new(alloc, quitting)?)?;
    advisors.push(Box::new(alloc, Subgradient::new())?)?;
    let text = planned(&rt, alloc, WITHOUT_BRANCHINGS, &mut advisors)?;
    let wanted =
        "status 0\nrailplan answer 1\noptimal 190\nbranchings 0\nrun 0 0 1\nrun 1 1\ntree\n\
        cost 190 2 2:-45 3:45\nend\nasked 2, quit\nasked 2\n";
    expect_text(&rt, text.as_str(), wanted);
    Ok(())
}
