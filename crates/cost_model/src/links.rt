//! What a link costs: the shunting of a turn.

ghost use Rattle.std.specs.Prelude.{◌≡◌, ◌<◌, ◌≤◌, List, ℕ, length};
ghost use Rattle.timetable.specs.Cost.{link_cost};
ghost use Rattle.cost_model.specs.LinkedTrains.{LeadsBetween};

use rail_base::limits::{MAX_COMPOSITION_UNITS, MAX_WEIGHT};
use rail_base::{LinkNo, TypeNo};
use timetable::Instance;

/// The most that a link costs, in the unit of the weights: the most weight.
pub const MAX_LINK_COST: u64 = MAX_WEIGHT as u64;

/// What a link costs that leads from a train of units of these types to one of those, at most six each: the weight of
/// shunting for a turn that does not keep all units of both, once, whether it uncouples, couples or does both, and
/// nothing for every other link. The link is below `links`; the trains need not follow its rule. It takes no memory.
#[tactic(auto, unfolding(rules::specs::Cost::link_cost))]
pub fn link_cost(
    instance: &Instance,
    number: LinkNo,
    arriving: &[TypeNo],
    departing: &[TypeNo],
) -> u64
    requires link { number < length instance.now.links }
    requires arriving { length arriving.now ≤ MAX_COMPOSITION_UNITS }
    requires departing { length departing.now ≤ MAX_COMPOSITION_UNITS }
    // Whatever the types on the other trips are.
    ensures cost { (lists : List (List ℕ)) → LeadsBetween instance.now number lists arriving.now departing.now
        → result ≡ link_cost instance.now number lists }
    ensures range { result ≤ MAX_LINK_COST }
{
    if instance.link(number).is_shunted(arriving, departing) {
        u64::from(instance.weights().shunting)
    } else {
        0
    }
}
