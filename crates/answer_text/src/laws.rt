//! What holds of the text of every answer.
//!
//! Each law is the contract of a function that does nothing.

ghost use Rattle.answer_text.specs.Laws.{BytesAreTextsOrRefused, RefusalsAreOne};
ghost use Rattle.answer_text.specs.Laws.{TextsAreNotRefused, TextsAreOfOneAnswer, TextsFitFiles};

/// The text of an answer within the limits is the text of no other such answer, and is refused for nothing.
pub fn texts_are_of_one_answer()
    ensures one { TextsAreOfOneAnswer }
    ensures right { TextsAreNotRefused }
{}

/// Bytes that are no text of an answer within the limits are refused for one thing.
pub fn other_bytes_are_refused()
    ensures total { BytesAreTextsOrRefused }
    ensures one { RefusalsAreOne }
{}

/// The text of an answer within the limits, whose tree is whole, is no longer than a file may be: such a tree has at
/// most 4,001 leaves, of at most 1,000 entries each.
pub fn texts_fit_files()
    ensures law { TextsFitFiles }
{}
