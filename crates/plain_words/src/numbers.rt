//! Numbers on the command line.

ghost use Rattle.std.specs.Prelude.{ℕ, ◌≡◌, ◌≤◌, ◌↔◌, Some, option_map, IfSome};
ghost use Rattle.plain_words.specs.Numbers.{IsNumber, IsNumberOr, number_up_to, option_number};

use rail_csv::digits_value;

/// The most digits that a number on the command line may have.
pub const MAX_WORD_DIGITS: usize = 10;

/// The number of an option's value, and its usual number where it has none; there is nothing where the value is not 1
/// to `MAX_WORD_DIGITS` digits of a number that is at most `most`. The usual number is at most `most` too. It takes no
/// memory.
#[tactic(auto, using(crate::proofs::Spelled::or_means))]
pub fn option_number(text: Option<&str>, usual: u32, most: u32) -> Option<u32>
    requires { usual ≤ most }
    ensures meaning { (given : ℕ)
        → (result ≡ Some given) ↔ IsNumberOr usual most (option_map (λ text. text.now) text.entry) given }
    ensures value { result ≡ option_number usual most (option_map (λ text. text.now) text.entry) }
    ensures limit { IfSome result (λ number. number ≤ most) }
{
    match text {
        Some(text) => number(text.as_bytes(), most),
        None => Some(usual),
    }
}

/// The number that a text spells, where it is 1 to `MAX_WORD_DIGITS` digits and at most `most`. It takes no memory.
#[tactic(auto, using(crate::proofs::Spelled::means))]
pub fn number(text: &[u8], most: u32) -> Option<u32>
    ensures meaning { (spelled : ℕ) → (result ≡ Some spelled) ↔ IsNumber most text.now spelled }
    ensures value { result ≡ number_up_to most text.now }
    ensures limit { IfSome result (λ number. number ≤ most) }
{
    if text.is_empty() {
        return None;
    }
    if text.len() > MAX_WORD_DIGITS {
        return None;
    }
    let Some(value) = digits_value(text) else {
        return None;
    };
    if value > u64::from(most) {
        return None;
    }
    Some(value as u32)
}
