//! The words after a command word: whether they are of a form, and what they say.

ghost use Rattle.std.specs.Prelude.{◌≡◌, IfOk, List, None, drop, map, option_map};
ghost use Rattle.plain_words.specs.Items.{ReadsForm, form_in, has, is_positional};
ghost use Rattle.plain_words.specs.Reading.{effect_in, effect_of, free_effect, items_from, option_effect, parted};

use crate::form::Form;
use crate::given::{GivenItem, GivenWords};
use rail_base::{NoMemory, Words};
use std::alloc::Global;

/// Takes apart the words after a command word, where they are of the form: in any mixture as many positional words as
/// it has, which are not empty and don't begin with `-`, and each of its options at most once, the ones that have a
/// value as two words (`--nodes 5`), of which the second is not empty and doesn't begin with `-`, or as one
/// (`--nodes=5`). There is nothing where they are not of the form. The error is want of memory.
pub fn read_form<'a>(
    alloc: Global,
    form: &Form<'_>,
    words: &[&'a str],
) -> Result<Option<GivenWords<'a>>, NoMemory>
    ensures { IfOk result (ReadsForm (form_in form.now) (map (λ word. word.now) words.now)) }
{
    let given = match read_items(alloc, form, words) {
        Ok(Some(given)) => given,
        Ok(None) => return Ok(None),
        Err(NoMemory) => return Err(NoMemory),
    };
    if !given.fits(form) {
        return Ok(None);
    }
    Ok(Some(given))
}

/// What a word does.
#[derive(Clone, Copy)]
enum Effect<'a> {
    /// It is the name of an option, whose value is the next word.
    Opens(&'a str),
    /// It gives an item, or the rest of one.
    Gives(GivenItem<'a>),
    /// The words are of no such form.
    Breaks,
}

/// The words taken apart, whatever their number. There is nothing where one of them is none of the form's.
fn read_items<'a>(
    alloc: Global,
    form: &Form<'_>,
    words: &[&'a str],
) -> Result<Option<GivenWords<'a>>, NoMemory>
    ensures { IfOk result (λ given. given ≡ items_from (form_in form.now) None (map (λ word. word.now) words.now)) }
{
    let mut items: Vec<GivenItem<'a>> = Vec::new(alloc);
    let mut waiting: Option<&'a str> = None;
    for place in 0..words.len() {
        match effect_of(form, waiting, words[place]) {
            Effect::Opens(name) => waiting = Some(name),
            Effect::Gives(item) => {
                items.push(item)?;
                waiting = None;
            }
            Effect::Breaks => return Ok(None),
        }
    }
    match waiting {
        Some(_) => Ok(None),
        None => Ok(Some(GivenWords::of(items))),
    }
}

/// What a word does, where an option may wait for its value.
fn effect_of<'a>(form: &Form<'_>, waiting: Option<&'a str>, word: &'a str) -> Effect<'a>
    ensures { effect_in result ≡ effect_of (form_in form.now) (option_map (λ name. name.now) waiting.entry) word.now }
{
    match waiting {
        Some(name) if is_positional(word) => Effect::Gives(GivenItem::TwoWords(name, word)),
        Some(_) => Effect::Breaks,
        None => free_effect(form, word),
    }
}

/// What a word does, where no option waits for its value.
fn free_effect<'a>(form: &Form<'_>, word: &'a str) -> Effect<'a>
    ensures { effect_in result ≡ free_effect (form_in form.now) word.now }
{
    match word.as_bytes() {
        [] => Effect::Breaks,
        [b'-', ..] => option_effect(form, word),
        _ => Effect::Gives(GivenItem::Positional(word)),
    }
}

/// What a word does that begins with `-`, where no option waits for its value.
fn option_effect<'a>(form: &Form<'_>, word: &'a str) -> Effect<'a>
    ensures { effect_in result ≡ option_effect (form_in form.now) (parted word.now).0 (parted word.now).1 }
{
    match word.split_once('=') {
        Some((name, value)) if is_among(name, form.valued) => {
            Effect::Gives(GivenItem::OneWord(name, value))
        }
        Some(_) => Effect::Breaks,
        None if is_among(word, form.valued) => Effect::Opens(word),
        None if is_among(word, form.flags) => Effect::Gives(GivenItem::Alone(word)),
        None => Effect::Breaks,
    }
}

/// Whether a name is one of these.
fn is_among(name: &str, names: &[&str]) -> bool
    ensures { result ≡ has name.now (map (λ other. other.now) names.now) }
{
    for at in 0..names.len() {
        if names[at] == name {
            return true;
        }
    }
    false
}

/// Whether a word is not empty and doesn't begin with `-`.
fn is_positional(word: &str) -> bool
    ensures { result ≡ is_positional word.now }
{
    match word.as_bytes() {
        [] => false,
        [first, ..] => *first != b'-',
    }
}

/// The words from a place on, counted from 0. The error is want of memory.
pub fn words_after<'a>(
    alloc: Global,
    words: &'a Words,
    place: u32,
) -> Result<Vec<&'a str>, NoMemory>
    ensures { IfOk result (λ rest. map (λ word. word.now) rest.items ≡ drop place words.now) }
{
    let mut rest = Vec::new(alloc);
    for next in place..words.len() {
        rest.push(words.at(next))?;
    }
    Ok(rest)
}
