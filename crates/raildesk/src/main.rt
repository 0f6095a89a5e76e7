//! The planner's desk as a program: the files of the system, the standard output and the standard error in place of a
//! folder, a sink and a watcher.
#![tactic(auto)]

use advisors::{Advisor, Diver, Subgradient};
use day_improver::Watcher;
use desk_app::{ProgressLines, raildesk_watched};
use plain_words::program_words;
use rail_base::{NoMemory, Words};
use rail_io::{DiskFolder, Folder, Sink, StdoutSink};
use statuses::NO_MEMORY;
use std::alloc::Global;
use std::env;
use std::process::ExitCode;

/// Runs the command of the words with the advisors that the program has, in the order in which they are asked. The
/// error is want of memory for their boxes.
fn run<F: Folder, K: Sink, W: Watcher>(
    alloc: Global,
    words: &Words,
    folder: &mut F,
    out: &mut K,
    watcher: &mut W,
) -> Result<u8, NoMemory> {
    let mut advisors: Vec<Box<dyn Advisor>> = Vec::new(alloc);
    advisors.push(Box::new(alloc, Subgradient::new())?)?;
    advisors.push(Box::new(alloc, Diver::new())?)?;
    Ok(raildesk_watched(alloc, words, folder, out, &mut advisors, watcher))
}

fn main(rt: HostRuntime) -> ExitCode {
    let alloc = rt.alloc();
    let Ok(words) = program_words(alloc, env::args(&rt), "raildesk") else {
        return ExitCode::from(NO_MEMORY);
    };
    let mut folder = DiskFolder::new(&rt);
    let mut out = StdoutSink::new(&rt);
    let mut watcher = ProgressLines::new(alloc, &rt);
    let status = run(alloc, &words, &mut folder, &mut out, &mut watcher);
    ExitCode::from(status.unwrap_or(NO_MEMORY))
}
