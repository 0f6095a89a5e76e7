//! An answer as a value: what it says of the day, the plan that it offers, and the tree that proves it.

ghost use Rattle.std.specs.Prelude.{◌≡◌};

use branch_tree::Tree;
use rail_csv::UnitList;
pub use rules::Head;
use std::marker::Model;

/// Which units run on each trip, in the order of the trips. A contract sees the list of the trips' lists of units.
#[derive(Drop)]
pub struct Runs {
    runs: Vec<UnitList>,
}

impl Model for Runs {
    ghost use Rattle.std.specs.Prelude.{List, ℕ};

    ghost Value = { List (List ℕ) };

    ghost view = { λ a. a.runs.items };
}

impl Runs {
    /// The runs of these lists of units, one a trip. It takes no memory.
    pub fn of(items: Vec<UnitList>) -> Runs
        ensures { result ≡ items.items }
    {
        Runs { runs: items }
    }

    /// The lists of units, one a trip. It takes no memory.
    pub fn items(&self) -> &[UnitList]
        ensures { result.now ≡ self.now }
    {
        self.runs.as_slice()
    }

    /// The lists of units themselves, one a trip, as a plan takes them. It takes no memory.
    pub fn into_items(self) -> Vec<UnitList>
        ensures { result.items ≡ self }
    {
        self.runs
    }
}

/// An answer: what it says of a day, and what proves it.
#[derive(Drop)]
pub struct Answer {
    /// What it says.
    pub head: Head,
    /// How many branchings the search made.
    pub branchings: u32,
    /// The units of each trip, where the head has a plan; else no runs.
    pub runs: Runs,
    /// The tree that proves it.
    pub tree: Tree,
}
