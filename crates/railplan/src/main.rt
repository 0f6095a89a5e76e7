//! The program: the files of the system and the standard output in place of a folder and a sink.
#![tactic(auto)]

use advisors::{Advisor, Diver, Subgradient};
use plain_words::program_words;
use planner_app::railplan;
use rail_base::{NoMemory, Words};
use rail_io::{DiskFolder, Folder, Sink, StdoutSink};
use statuses::NO_MEMORY;
use std::alloc::Global;
use std::env;
use std::process::ExitCode;

/// Runs the command of the words with the advisors that the program has, in the order in which they are asked. The
/// error is want of memory for their boxes.
fn run<F: Folder, K: Sink>(
    alloc: Global,
    words: &Words,
    folder: &mut F,
    out: &mut K,
) -> Result<u8, NoMemory> {
    let mut advisors: Vec<Box<dyn Advisor>> = Vec::new(alloc);
    advisors.push(Box::new(alloc, Subgradient::new())?)?;
    advisors.push(Box::new(alloc, Diver::new())?)?;
    Ok(railplan(alloc, words, folder, out, &mut advisors))
}

fn main(rt: HostRuntime) -> ExitCode {
    let alloc = rt.alloc();
    let Ok(words) = program_words(alloc, env::args(&rt), "railplan") else {
        return ExitCode::from(NO_MEMORY);
    };
    let status = run(
        alloc,
        &words,
        &mut DiskFolder::new(&rt),
        &mut StdoutSink::new(&rt),
    );
    ExitCode::from(status.unwrap_or(NO_MEMORY))
}
