//! Words after a command word, read as of one form, whose options are not those of any program here.

ghost use Rattle.std.specs.Prelude.{ℕ, List, ◌≤◌};
ghost use Rattle.plain_words.specs.Items.{times};

use plain_words::{Form, GivenWords, read_form};
use rail_base::limits::MAX_WORDS;
use rail_base::{NoMemory, Words};
use std::alloc::{AllocError, Global};
use std::process::Abort;
use std::test::Fail;

/// A folder, two numbers and a flag.
const FORM: Form<'static> = Form {
    places: 1,
    valued: &["--nodes", "--change"],
    flags: &["--progress"],
};

/// Words, and what they are read as: the positional word, the two numbers and whether the flag stands.
const ROWS: &[(&str, &str)] = &[
    ("DIR", "DIR 200 0 -"),
    ("DIR --nodes 5", "DIR 5 0 -"),
    ("--nodes 5 DIR", "DIR 5 0 -"),
    ("--nodes=5 DIR", "DIR 5 0 -"),
    (
        "--progress DIR --change=7 --nodes 0050",
        "DIR 50 7 progress",
    ),
    (
        "--change 1000000 --progress DIR",
        "DIR 200 1000000 progress",
    ),
    // Values that are no numbers up to the limit, and one that is not of ten digits at most.
    ("DIR --nodes=", "DIR ? 0 -"),
    ("DIR --nodes=-5", "DIR ? 0 -"),
    ("DIR --nodes five", "DIR ? 0 -"),
    ("DIR --nodes 4001", "DIR ? 0 -"),
    ("DIR --change 00000000007", "DIR 200 ? -"),
    // Words of another form.
    ("", "not read"),
    ("DIR DIR", "not read"),
    ("--progress", "not read"),
    ("DIR --nodes", "not read"),
    ("DIR --nodes -5", "not read"),
    ("DIR --nodes 5 --nodes=5", "not read"),
    ("DIR --progress --progress", "not read"),
    ("DIR --progress=yes", "not read"),
    ("DIR -nodes 5", "not read"),
    ("DIR --rounds 5", "not read"),
    ("DIR --nodes --progress", "not read"),
];

/// Writes the number of an option, where its value is one.
fn write_number(text: &mut String, number: Option<u32>) -> Result<(), AllocError> {
    match number {
        Some(number) => write!(text, " {number}"),
        None => text.push_str(" ?"),
    }
}

/// Writes the positional word of a form, its two numbers and whether its flag stands.
fn write_given(text: &mut String, given: &GivenWords<'_>) -> Result<(), AllocError>
    requires once { (name : List ℕ) → times name given.now ≤ 1 }
{
    text.push_str(given.positional(0).unwrap_or("none"))?;
    write_number(text, given.number("--nodes", 200, 4_000))?;
    write_number(text, given.number("--change", 0, 1_000_000))?;
    let flag = if given.has("--progress") {
        " progress"
    } else {
        " -"
    };
    text.push_str(flag)
}

/// Writes what words are read as.
fn write_reading(alloc: Global, text: &mut String, words: &[&str]) -> Result<(), Fail> {
    match read_form(alloc, &FORM, words)? {
        Some(given) => write_given(text, &given)?,
        None => text.push_str("not read")?,
    }
    Ok(())
}

/// The words as a list.
fn list_of(alloc: Global, words: &Words) -> Result<Vec<&str>, AllocError> {
    let mut list = Vec::new(alloc);
    for place in 0..words.len() {
        list.push(words.at(place))?;
    }
    Ok(list)
}

/// What words are read as.
fn reading(alloc: Global, words: &Words) -> Result<String, Fail> {
    let list = list_of(alloc, words)?;
    let mut text = String::new(alloc);
    write_reading(alloc, &mut text, list.as_slice())?;
    Ok(text)
}

/// The words of a line.
fn words_in(alloc: Global, line: &str) -> Result<Words, NoMemory> {
    let mut words = Words::new(alloc)?;
    for word in line.split_whitespace() {
        if words.len() as usize >= MAX_WORDS {
            break;
        }
        words.push(word)?;
    }
    Ok(words)
}

/// What the words of a line are read as.
fn line_reading(alloc: Global, line: &str) -> Result<String, Fail> {
    let words = words_in(alloc, line)?;
    reading(alloc, &words)
}

#[test]
fn words_of_a_form(rt: HostRuntime) -> Result<(), Fail> {
    for (line, wanted) in ROWS {
        let text = line_reading(rt.alloc(), *line)?;
        assert!(rt; text.as_str() == *wanted, "{text}");
    }
    Ok(())
}
