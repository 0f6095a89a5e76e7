//! How evaluations and moves are shared out.

/// The shares of the evaluations and moves that are granted.
#[derive(Clone, Copy)]
pub(crate) struct Shares {
    /// Evaluations before the first pass of moves.
    pub first: u32,
    /// Evaluations before each later one.
    pub block: u32,
    /// Moves of each pass.
    pub moves: u32,
}

/// Evaluations between two passes of moves.
const BLOCK: u32 = 20;

/// The shares of so many evaluations and moves.
pub(crate) fn shares_of(evaluations: u32, moves: u32) -> Shares {
    let first = evaluations / 4;
    let blocks = (evaluations.saturating_sub(first) / BLOCK).max(1);
    Shares {
        first,
        block: BLOCK,
        moves: moves.checked_div(blocks).unwrap_or(0),
    }
}

/// How many steps in turn may gain too little, of an ascent of so many evaluations.
pub(crate) fn patience_of(evaluations: u32) -> u32 {
    (evaluations / 12).clamp(20, 80)
}

/// Evaluations at a node that is not the root.
pub(crate) const NODE_STEPS: u32 = 30;
/// Evaluations there between two passes of moves.
pub(crate) const PASS: u32 = 10;
/// How many steps in turn may gain too little there.
pub(crate) const PATIENCE_BELOW: u32 = 6;
/// Evaluations whose picks are not counted for a cut.
pub(crate) const SETTLING: u32 = 10;
