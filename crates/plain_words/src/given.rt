//! The words after a command word, taken apart.

ghost use Rattle.std.specs.Prelude.{ℕ, ◌≡◌, ◌≤◌, ◌↔◌, [], ◌∷◌, Some, IfSome, length, map, nat_le};
ghost use Rattle.std.specs.Prelude.{option_map, slice_get};
ghost use Rattle.plain_words.specs.Items.{form_in, is_named, positional_in, times, values_in};
ghost use Rattle.plain_words.specs.Numbers.{IsOption};
ghost use Rattle.plain_words.specs.Reading.{are_once, is_fitting, item_in};

use crate::form::Form;
use crate::numbers::option_number;
use std::marker::Model;

/// A positional word, or an option.
#[derive(Clone, Copy)]
pub(crate) enum GivenItem<'a> {
    /// A positional word.
    Positional(&'a str),
    /// An option's name, and its value as a word of its own.
    TwoWords(&'a str, &'a str),
    /// An option's name and its value, as one word.
    OneWord(&'a str, &'a str),
    /// The name of an option that has no value.
    Alone(&'a str),
}

/// The words after a command word, taken apart: positional words and options, in their order. A contract sees the list
/// of these items.
#[derive(Drop)]
pub struct GivenWords<'a> {
    items: Vec<GivenItem<'a>>,
}

impl<'a> Model for GivenWords<'a> {
    ghost use Rattle.std.specs.Prelude.{List, map};
    ghost use Rattle.plain_words.specs.Items.{Item};
    ghost use Rattle.plain_words.specs.Reading.{item_in};

    ghost Value = { List Item };

    ghost view = { λ a. map item_in a.items.items };
}

impl<'a> GivenWords<'a> {
    /// These items.
    pub(crate) fn of(items: Vec<GivenItem<'a>>) -> GivenWords<'a>
        ensures { result ≡ map item_in items.entry.items }
    {
        GivenWords { items }
    }

    /// The positional word at a place, counted from 0, where there are so many. It takes no memory.
    pub fn positional(&self, place: usize) -> Option<&'a str>
        ensures { option_map (λ word. word.now) result ≡ slice_get (positional_in self.now) place }
    {
        let mut left = place;
        for at in 0..self.items.len() {
            if let GivenItem::Positional(word) = self.items[at] {
                if left == 0 {
                    return Some(word);
                }
                left -= 1;
            }
        }
        None
    }

    /// The first value that the option of this name is given, where there is one. The name is told with its dashes. It
    /// takes no memory.
    pub fn value(&self, name: &str) -> Option<&'a str>
        ensures { option_map (λ value. value.now) result ≡ slice_get (values_in name.now self.now) 0 }
    {
        for at in 0..self.items.len() {
            if let Some(value) = self.items[at].value_of(name) {
                return Some(value);
            }
        }
        None
    }

    /// The number that the option of this name is given, and its usual number where it is not given; there is nothing
    /// where its value is not 1 to `MAX_WORD_DIGITS` digits of a number that is at most `most`. The usual number is at
    /// most `most` too, and the option is given at most once, as it is where the words are of a form. It takes no
    /// memory.
    pub fn number(&self, name: &str, usual: u32, most: u32) -> Option<u32>
        requires once { times name.now self.now ≤ 1 }
        requires usual { usual ≤ most }
        ensures meaning { (given : ℕ)
            → (result ≡ Some given) ↔ IsOption usual most (values_in name.now self.now) given }
        ensures limit { IfSome result (λ number. number ≤ most) }
    {
        option_number(self.value(name), usual, most)
    }

    /// Whether the option of this name is given. The name is told with its dashes. It takes no memory.
    pub fn has(&self, name: &str) -> bool
        ensures { result ≡ nat_le 1 (times name.now self.now) }
    {
        self.times(name) >= 1
    }

    /// How often the option of this name is given.
    fn times(&self, name: &str) -> usize
        ensures { result ≡ times name.now self.now }
    {
        let mut count = 0;
        for at in 0..self.items.len() {
            if self.items[at].is_named(name) {
                count += 1;
            }
        }
        count
    }

    /// How many positional words there are.
    fn places(&self) -> usize
        ensures { result ≡ length (positional_in self.now) }
    {
        let mut count = 0;
        for at in 0..self.items.len() {
            if let GivenItem::Positional(_) = self.items[at] {
                count += 1;
            }
        }
        count
    }

    /// Whether each of these options is given at most once.
    fn are_once(&self, names: &[&str]) -> bool
        ensures { result ≡ are_once (map (λ name. name.now) names.now) self.now }
    {
        for at in 0..names.len() {
            if self.times(names[at]) > 1 {
                return false;
            }
        }
        true
    }

    /// Whether there are as many positional words as the form has, and each of its options at most once.
    pub(crate) fn fits(&self, form: &Form<'_>) -> bool
        ensures { result ≡ is_fitting (form_in form.now) self.now }
    {
        self.places() == form.places && self.are_once(form.valued) && self.are_once(form.flags)
    }
}

impl<'a> GivenItem<'a> {
    /// The value that the item gives to the option of this name.
    fn value_of(self, name: &str) -> Option<&'a str>
        ensures { option_map (λ value. value.now) result ≡ slice_get (values_in name.now (item_in self.entry ∷ [])) 0 }
    {
        match self {
            GivenItem::TwoWords(own, value) | GivenItem::OneWord(own, value) if own == name => {
                Some(value)
            }
            _ => None,
        }
    }

    /// Whether the item is the option of this name.
    fn is_named(self, name: &str) -> bool
        ensures { result ≡ is_named name.now (item_in self.entry) }
    {
        match self {
            GivenItem::Positional(_) => false,
            GivenItem::TwoWords(own, _) | GivenItem::OneWord(own, _) | GivenItem::Alone(own) => {
                own == name
            }
        }
    }
}
