//! Improvers, what they are shown of a node, and what they propose.

ghost use Rattle.std.specs.Prelude.{◌≡◌, [], false, None, Ok};

use branch_tree::{Cut, Multipliers, Region, Slacks};
use rail_base::{Money, NoMemory};
use std::alloc::Global;
use timetable::Picks;

/// The best solution that is known, of the whole problem.
#[derive(Drop)]
pub struct Incumbent<'a> {
    /// A composition for each trip.
    pub picks: &'a Picks,
    /// Their cost.
    pub cost: Money,
}

/// What an improver is shown of an open node.
#[derive(Drop)]
pub struct Seen<'a> {
    /// How many nodes were made before this one: 0 at the root.
    pub node: u32,
    /// How often the improver was asked about this node before.
    pub attempt: u32,
    /// The compositions that each trip may have in the node.
    pub region: &'a Region,
    /// The greatest least priced value that was found for the node, which bounds the cost of its solutions.
    pub kept: Money,
    /// The multipliers that gave it.
    pub multipliers: &'a Multipliers,
    /// The picks that were chosen under them, one for each trip.
    pub picks: &'a Picks,
    /// The slacks of these picks.
    pub slacks: &'a Slacks,
    /// The best solution so far, where there is one. It need not lie in the node's region.
    pub best: Option<Incumbent<'a>>,
    /// The index from which on a multiplier may be negative.
    pub free_from: u32,
}

/// What an improver proposes for a node. None of it is checked yet.
#[derive(Drop)]
pub struct Improvement {
    /// Multipliers under which the node is to be evaluated, if any.
    pub multipliers: Option<Multipliers>,
    /// Picks that may be solutions, of the node's region or not.
    pub picks: Vec<Picks>,
    /// A cut by which the node is to be branched, if any.
    pub cut: Option<Cut>,
}

impl Improvement {
    /// Nothing proposed yet.
    pub fn new(alloc: Global) -> Improvement
        ensures multipliers { result.multipliers ≡ None }
        ensures picks { result.picks.items ≡ [] }
        ensures cut { result.cut ≡ None }
    {
        Improvement {
            multipliers: None,
            picks: Vec::new(alloc),
            cut: None,
        }
    }

    /// Takes all out that was proposed.
    pub fn clear(&mut self)
        ensures multipliers { self.new.multipliers ≡ None }
        ensures picks { self.new.picks.items ≡ [] }
        ensures cut { self.new.cut ≡ None }
    {
        self.multipliers = None;
        self.picks.clear();
        self.cut = None;
    }
}

/// Proposes multipliers, picks and a cut for an open node of a search, in whatever way. Nothing is promised of them:
/// whoever asks has to test that the multipliers fit, that picks are a solution and that the cut is proper.
pub trait Improver {
    /// Asks for an improvement of a node, which is put into `to`, where nothing is proposed yet. The answer is whether
    /// it may be asked again about this node, after what it proposed was used. The error is want of memory.
    fn improve(&mut self, seen: &Seen<'_>, to: &mut Improvement) -> Result<bool, NoMemory>;
}

/// Proposes nothing.
#[derive(Drop)]
pub struct NoImprover;

impl Improver for NoImprover {
    /// Leaves what is proposed as it is, and need not be asked again.
    fn improve(&mut self, _seen: &Seen<'_>, to: &mut Improvement) -> Result<bool, NoMemory>
        ensures answer { result ≡ Ok false }
        ensures unchanged { to.new ≡ to.old }
    {
        Ok(false)
    }
}
