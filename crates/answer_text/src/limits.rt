//! The limits of an answer document that no other part of the product has.

/// Size of a bound and of a cost, whatever its sign.
pub const MAX_AMOUNT: u128 = 100_000_000_000_000_000_000;
/// The most digits of a number in an answer: those of the greatest bound or cost.
pub const MAX_ANSWER_DIGITS: usize = 21;
/// The greatest index of an entry.
pub const MAX_INDEX: u32 = 999_999;
