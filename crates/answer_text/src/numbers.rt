//! The numbers of a document: no leading zeros, and no sign at 0.

ghost use Rattle.std.specs.Prelude.{◌≡◌, ◌≤◌, ◌==◌, length, Some, None, if◌then◌else◌, option_map, IfSome};
ghost use Rattle.std.specs.Str.{all_ascii_digits};
ghost use Rattle.std.specs.Str.Parse.{digits_value};
ghost use Rattle.answer_text.specs.Pieces.{words_after};
ghost use Rattle.answer_text.specs.Numbers.{has_leading_zero, next_number, next_signed, nonzero_in, number_in};
ghost use Rattle.answer_text.specs.Numbers.{signed_in, signed_of};

use crate::limits::{MAX_AMOUNT, MAX_ANSWER_DIGITS};
use crate::pieces::next_piece;
use rail_base::Money;
use rail_base::limits::MAX_MULTIPLIER;

/// The next word as a number up to a limit, and what follows it.
#[tactic(auto, unfolding(crate::specs::Numbers::next_number))]
pub(crate) fn next_number(rest: &[u8], most: u32) -> Option<(u32, &[u8])>
    ensures value { option_map (λ x. (x.0, words_after x.1.now)) result ≡ next_number most (words_after rest.now) }
    ensures within { IfSome result (λ x. x.0 ≤ most) }
{
    let (word, rest) = next_piece(b' ', rest)?;
    let number = number_in(word, u128::from(most))?;
    Some((number as u32, rest))
}

/// The next word as a bound or a cost, and what follows it.
#[tactic(auto, unfolding(crate::specs::Numbers::next_signed))]
pub(crate) fn next_amount(rest: &[u8]) -> Option<(Money, &[u8])>
    ensures { option_map (λ x. (x.0.0, words_after x.1.now)) result ≡ next_signed MAX_AMOUNT (words_after rest.now) }
{
    let (word, rest) = next_piece(b' ', rest)?;
    let amount = amount_in(word)?;
    Some((amount, rest))
}

/// The bound or the cost that a word spells.
#[tactic(auto, unfolding(crate::specs::Numbers::signed_in))]
fn amount_in(word: &[u8]) -> Option<Money>
    ensures { option_map (λ amount. amount.0) result ≡ signed_in MAX_AMOUNT word.now }
{
    match word {
        [] => None,
        [b'-', digits @ ..] => {
            let size = number_in(digits, MAX_AMOUNT)?;
            if size == 0 {
                return None;
            }
            Some(amount_of(true, size))
        }
        _ => {
            let size = number_in(word, MAX_AMOUNT)?;
            Some(amount_of(false, size))
        }
    }
}

/// The value of an entry that a word spells; it is not 0.
#[tactic(auto, unfolding(crate::specs::Numbers::nonzero_in))]
pub(crate) fn value_in(word: &[u8]) -> Option<i64>
    ensures { result ≡ nonzero_in MAX_MULTIPLIER word.now }
{
    match word {
        [] => None,
        [b'-', digits @ ..] => {
            let size = number_in(digits, u128::from(MAX_MULTIPLIER))?;
            if size == 0 {
                return None;
            }
            Some(value_of(true, size))
        }
        _ => {
            let size = number_in(word, u128::from(MAX_MULTIPLIER))?;
            if size == 0 {
                return None;
            }
            Some(value_of(false, size))
        }
    }
}

/// The amount of a size and a sign.
fn amount_of(negative: bool, size: u128) -> Money
    requires { size ≤ MAX_AMOUNT }
    ensures { result.0 ≡ signed_of negative size }
{
    let amount = size as i128;
    if negative {
        Money(-amount)
    } else {
        Money(amount)
    }
}

/// The value of a size and a sign.
fn value_of(negative: bool, size: u128) -> i64
    requires { size ≤ MAX_MULTIPLIER }
    ensures { result ≡ signed_of negative size }
{
    let value = size as i64;
    if negative { -value } else { value }
}

/// The number without a sign that a word spells, up to a limit.
#[tactic(auto, unfolding(crate::specs::Numbers::number_in))]
pub(crate) fn number_in(word: &[u8], most: u128) -> Option<u128>
    ensures value { result ≡ number_in most word.now }
    ensures within { IfSome result (λ number. number ≤ most) }
{
    if word.is_empty() {
        return None;
    }
    if word.len() > MAX_ANSWER_DIGITS {
        return None;
    }
    if has_leading_zero(word) {
        return None;
    }
    let number = digits_value(word)?;
    if number > most {
        return None;
    }
    Some(number)
}

/// Whether a word begins with 0 and goes on.
fn has_leading_zero(word: &[u8]) -> bool
    requires { 1 ≤ length word.now }
    ensures { result ≡ has_leading_zero word.now }
{
    word[0] == b'0' && word.len() > 1
}

/// The number that a word of at most 21 digits spells, where it has digits alone.
fn digits_value(word: &[u8]) -> Option<u128>
    requires { length word.now ≤ MAX_ANSWER_DIGITS }
    ensures { result ≡ if all_ascii_digits word.now then Some (digits_value 10 word.now) else None }
{
    let mut value = 0u128;
    for byte in word {
        if !byte.is_ascii_digit() {
            return None;
        }
        value = value * 10 + u128::from(*byte - b'0');
    }
    Some(value)
}
