//! The test of the plain form.

ghost use Rattle.std.specs.Prelude.{◌≡◌, ◌↔◌, map, true};
ghost use Rattle.plain_words.specs.Items.{is_positional};
ghost use Rattle.command_line.specs.Forms.{ArePlain};
ghost use Rattle.command_line.specs.Parts.{HasRoom, counts_after, fits, kind_of, no_counts, parts_of, times};
ghost use Rattle.command_line.specs.Parts.{fitting, places, whole_kind_of, with_option};

use crate::form::{Form, Kind, OptionName};
use std::marker::Model;

/// How many words of each kind were seen.
#[derive(Drop)]
struct Seen {
    positional: usize,
    nodes: usize,
    rounds: usize,
    waiting: Option<OptionName>,
    has_others: bool,
}

impl Model for Seen {
    ghost use Rattle.command_line.specs.Parts.{Counts};

    ghost Value = { Counts };

    ghost view = { λ a. record {
      positional = a.positional;
      nodes = a.nodes;
      rounds = a.rounds;
      waiting = a.waiting;
      has_others = a.has_others;
    } };
}

/// Whether the words after a command word are of the form: as many positional words as the form has, which are not
/// empty and don't begin with `-`, and in any mixture with them each option of the form at most once, as one word
/// (`--nodes=5`) or as two (`--nodes 5`), of which the second is not empty and doesn't begin with `-`. It takes no
/// memory.
pub fn is_plain(form: Form, words: &[&str]) -> bool
    ensures meaning { (result ≡ true) ↔ ArePlain form (map (λ word. word.now) words.now) }
    ensures value { result ≡ fits form (parts_of (map (λ word. word.now) words.now)) }
{
    are_counted(form, words)
}

/// Whether there are as many words of each kind as the form has.
fn are_counted(form: Form, words: &[&str]) -> bool
    ensures { result ≡ fits form (parts_of (map (λ word. word.now) words.now)) }
{
    let mut seen = Seen::none();
    for place in 0..words.len() {
        seen.count_word(words[place]);
    }
    seen.fits(form)
}

impl Seen {
    /// Nothing was seen.
    fn none() -> Seen
        ensures { result ≡ no_counts }
    {
        Seen {
            positional: 0,
            nodes: 0,
            rounds: 0,
            waiting: None,
            has_others: false,
        }
    }

    /// Counts one more word.
    fn count_word(&mut self, word: &str)
        requires { HasRoom self.old }
        ensures { self.new ≡ counts_after self.old.waiting (kind_of word.now) self.old }
    {
        match (self.waiting, kind_of(word)) {
            (Some(name), Kind::Plain) => {
                self.waiting = None;
                self.count_value(name);
            }
            (None, Kind::Plain) => self.positional += 1,
            (None, Kind::Name(name)) => self.waiting = Some(name),
            (None, Kind::Whole(name)) => self.count_value(name),
            _ => self.has_others = true,
        }
    }

    /// Counts one more value of an option.
    fn count_value(&mut self, name: OptionName)
        requires { HasRoom self.old }
        ensures { self.new ≡ with_option name self.old }
    {
        match name {
            OptionName::Nodes => self.nodes += 1,
            OptionName::Rounds => self.rounds += 1,
        }
    }

    /// Whether what was seen is what the form wants.
    fn fits(&self, form: Form) -> bool
        ensures { result ≡ fitting form self.now }
    {
        if self.has_others {
            return false;
        }
        if self.waiting.is_some() {
            return false;
        }
        self.positional == places(form) && self.nodes <= times(form) && self.rounds <= times(form)
    }
}

/// How many positional words there are.
fn places(form: Form) -> usize
    ensures { result ≡ places form }
{
    match form {
        Form::Folder => 1,
        Form::FolderSearch => 1,
        Form::DaySearch => 2,
    }
}

/// How often an option may stand.
fn times(form: Form) -> usize
    ensures { result ≡ times form }
{
    match form {
        Form::Folder => 0,
        Form::FolderSearch => 1,
        Form::DaySearch => 1,
    }
}

/// What a word is.
fn kind_of(word: &str) -> Kind
    ensures { result ≡ kind_of word.now }
{
    if is_positional(word) {
        return Kind::Plain;
    }
    if word == "--nodes" {
        return Kind::Name(OptionName::Nodes);
    }
    if word == "--rounds" {
        return Kind::Name(OptionName::Rounds);
    }
    whole_kind_of(word)
}

/// What a word is that is neither plain nor an option's name.
fn whole_kind_of(word: &str) -> Kind
    ensures { result ≡ whole_kind_of word.now }
{
    if word.as_bytes().starts_with(b"--nodes=") {
        return Kind::Whole(OptionName::Nodes);
    }
    if word.as_bytes().starts_with(b"--rounds=") {
        return Kind::Whole(OptionName::Rounds);
    }
    Kind::Other
}

/// Whether a word is not empty and doesn't begin with `-`.
fn is_positional(word: &str) -> bool
    ensures { result ≡ is_positional word.now }
{
    match word.as_bytes() {
        [] => false,
        [first, ..] => *first != b'-',
    }
}
