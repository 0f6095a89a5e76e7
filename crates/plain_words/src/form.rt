//! What a command has after its command word.

/// What stands after a command word: so many positional words, and options, each at most once and in any order. The
/// name of an option is told as it is written, with its dashes. One that doesn't begin with `-` or has a `=` can't be
/// given, and one that is in both lists has a value.
#[derive(Clone, Copy)]
pub struct Form<'a> {
    /// How many positional words there are.
    pub places: usize,
    /// The names of the options that have a value, as `--nodes` of `--nodes 5` or `--nodes=5`.
    pub valued: &'a [&'a str],
    /// The names of the options that have none, as `--progress`.
    pub flags: &'a [&'a str],
}
