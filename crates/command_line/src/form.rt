//! What stands after a command word.

/// The name of an option, which has one value.
#[derive(Clone, Copy)]
pub enum OptionName {
    /// `--nodes`: the branchings that are granted.
    Nodes,
    /// `--rounds`: the rounds of advice at each node.
    Rounds,
}

/// What a command has after its command word.
#[derive(Clone, Copy)]
pub enum Form {
    /// `DIR`.
    Folder,
    /// `DIR [--nodes N] [--rounds K]`.
    FolderSearch,
    /// `SEED TRIPS [--nodes N] [--rounds K]`.
    DaySearch,
}

/// What a word is, where no option waits for its value.
#[derive(Clone, Copy)]
pub enum Kind {
    /// A word that is not empty and doesn't begin with `-`.
    Plain,
    /// An option's name, whose value is the next word.
    Name(OptionName),
    /// An option's name and its value, as `--nodes=5`.
    Whole(OptionName),
    /// None of these.
    Other,
}
