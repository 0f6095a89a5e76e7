//! The way down a tree, whose root region is cut in place: the sides that were taken, each with the mark that puts its
//! trip's set back.

ghost use Rattle.std.specs.Prelude.{◌≡◌, ◌<◌, ◌≤◌, ◌+◌, ◌++◌, ◌∷◌, [], All, length, vec_capacity, MatchOption, ⊤};
ghost use Rattle.branch_tree.specs.Cuts.{IsProper, side_of};
ghost use Rattle.branch_tree.specs.Trees.{regions_below};
ghost use Rattle.cert_check.specs.Paths.{left_in, other_side, root_from, AreTaken, IsAtFirst};

use branch_tree::{Cut, Mark, Region, Side};
use compositions::Catalogue;

/// A side of a cut that was taken.
#[derive(Drop)]
pub struct TakenSide {
    /// The cut.
    pub cut: Cut,
    /// The side.
    pub side: Side,
    /// What the set of the cut's trip was before.
    pub mark: Mark,
}

/// Goes on after a node: to the left side of its cut, or after a leaf to the nearest right side that was not taken yet.
/// Where there is none, the region is the root again, and no side is taken.
pub fn go_on(
    taken: &mut Vec<TakenSide>,
    catalogue: &Catalogue,
    region: &mut Region,
    cut: Option<Cut>,
)
    requires taken { AreTaken catalogue.now taken.old.items region.old }
    requires proper { MatchOption cut ⊤ (IsProper catalogue.now region.old) }
    requires room { length taken.old.items < vec_capacity taken.old }
    // The region is the first of those below the node and those that were left before.
    ensures first { IsAtFirst catalogue.now
        (regions_below catalogue.now region.old cut ++ left_in catalogue.now taken.old.items region.old)
        taken.new.items region.new }
    // The marks lead back to the same root.
    ensures root { root_from taken.new.items region.new ≡ root_from taken.old.items region.old }
    ensures taken { AreTaken catalogue.now taken.new.items region.new }
    // At most one side more, and the room stays.
    ensures length { length taken.new.items ≤ length taken.old.items + 1 }
    ensures room { vec_capacity taken.old ≤ vec_capacity taken.new }
{
    match cut {
        Some(cut) => take(taken, catalogue, region, cut, Side::Left),
        None => take_right(taken, catalogue, region),
    }
}

/// Puts back every set, so that the region is the root again.
pub fn go_back(taken: &mut Vec<TakenSide>, region: &mut Region)
    requires { All (λ one. one.mark.trip < length region.old) taken.old.items }
    ensures root { region.new ≡ root_from taken.old.items region.old }
    ensures none { taken.new.items ≡ [] }
    ensures room { vec_capacity taken.old ≤ vec_capacity taken.new }
{
    while let Some(one) = taken.pop() {
        region.put_back(one.mark);
    }
}

/// Takes a side of a cut.
fn take(
    taken: &mut Vec<TakenSide>,
    catalogue: &Catalogue,
    region: &mut Region,
    cut: Cut,
    side: Side,
)
    requires taken { AreTaken catalogue.now taken.old.items region.old }
    requires proper { IsProper catalogue.now region.old cut }
    requires room { length taken.old.items < vec_capacity taken.old }
    ensures region { region.new ≡ side_of catalogue.now cut side region.old }
    ensures left { left_in catalogue.now taken.new.items region.new ≡
        other_side catalogue.now cut side region.old ++ left_in catalogue.now taken.old.items region.old }
    // The marks lead back to the same root.
    ensures root { root_from taken.new.items region.new ≡ root_from taken.old.items region.old }
    ensures taken { AreTaken catalogue.now taken.new.items region.new }
    // At most one side more, and the room stays.
    ensures length { length taken.new.items ≡ length taken.old.items + 1 }
    ensures room { vec_capacity taken.old ≤ vec_capacity taken.new }
{
    let mark = region.cut(catalogue, &cut, side);
    add(taken, TakenSide { cut, side, mark });
}

/// Adds a side at the end, where there is room for one more.
fn add(taken: &mut Vec<TakenSide>, one: TakenSide)
    requires { length taken.old.items < vec_capacity taken.old }
    ensures items { taken.new.items ≡ taken.old.items ++ one ∷ [] }
    ensures room { vec_capacity taken.old ≤ vec_capacity taken.new }
{
    let pushed = taken.push(one);
    prove!(pushed.is_ok());
}

/// Puts back the sets of right sides up to the nearest left one, and takes its right side.
fn take_right(taken: &mut Vec<TakenSide>, catalogue: &Catalogue, region: &mut Region)
    requires { AreTaken catalogue.now taken.old.items region.old }
    // The region is the first of those that were left.
    ensures first { IsAtFirst catalogue.now (left_in catalogue.now taken.old.items region.old)
        taken.new.items region.new }
    // The marks lead back to the same root.
    ensures root { root_from taken.new.items region.new ≡ root_from taken.old.items region.old }
    ensures taken { AreTaken catalogue.now taken.new.items region.new }
    // The room stays.
    ensures length { length taken.new.items ≤ length taken.old.items }
    ensures room { vec_capacity taken.old ≤ vec_capacity taken.new }
{
    while let Some(last) = taken.pop() {
        region.put_back(last.mark);
        if let Side::Left = last.side {
            take(taken, catalogue, region, last.cut, Side::Right);
            return;
        }
    }
}
