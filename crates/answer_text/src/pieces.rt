//! Texts that are cut at marks: a document at its line feeds, a line at its spaces.

ghost use Rattle.std.specs.Prelude.{◌≡◌, ◌==◌, [], length, MatchOption};
ghost use Rattle.answer_text.specs.Pieces.{IsFirst, pieces, pieces_after};

/// What stands before the first mark of a text, and the text from that mark on: nothing where there is no mark.
pub(crate) fn first_piece(mark: u8, text: &[u8]) -> (&[u8], &[u8])
    ensures { IsFirst mark (pieces mark text.now) result.0.now result.1.now }
{
    for end in 0..text.len() {
        if text[end] == mark {
            return text.split_at(end);
        }
    }
    text.split_at(text.len())
}

/// The piece behind a mark, and the text from the next mark on; nothing at the end of the text.
pub(crate) fn next_piece(mark: u8, rest: &[u8]) -> Option<(&[u8], &[u8])>
    ensures { let left = pieces_after mark rest.now in
        MatchOption result (left ≡ []) (λ x. IsFirst mark left x.0.now x.1.now) }
{
    if rest.is_empty() {
        return None;
    }
    Some(first_piece(mark, &rest[1..]))
}

/// Whether no piece follows.
pub(crate) fn is_end(mark: u8, rest: &[u8]) -> bool
    ensures { result ≡ (length (pieces_after mark rest.now) == 0) }
{
    rest.is_empty()
}
