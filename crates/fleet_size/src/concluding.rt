//! What is found at the end of a search.

ghost use Rattle.std.specs.Prelude.{All, ◌≡◌, map, option_map, IfOk};
ghost use Rattle.branch_tree.specs.Trees.{IsLeastOf};
ghost use Rattle.fleet_size.specs.Slots.{head_found, price_in};
ghost use Rattle.fleet_size.specs.Values.{CanBeValued, IsConclusion, lower_of, values_at};

use crate::choosing::value_of;
use crate::offers::Best;
use crate::searching::Search;
use crate::slots::Slot;
use answer_text::Head;
use fleet_boxes::{BoxNode, Boxes, Prices};
use fleet_check::{Chosen, Fleet};
use rail_base::{Money, NoMemory};
use std::alloc::Global;

/// What is found at the end of a search. The error is want of memory.
pub(crate) fn concluded(alloc: Global, prices: &Prices, search: Search) -> Result<Fleet, NoMemory>
    requires { All (CanBeValued prices.now) search.slots.items }
    ensures { IfOk result (IsConclusion prices.now search) }
{
    let least = least_value(prices, &search.slots);
    let head = head_of(least, &search.best);
    let Search {
        slots,
        splits,
        best,
    } = search;
    let nodes = nodes_of(alloc, slots)?;
    Ok(Fleet {
        head,
        splits,
        boxes: Boxes::of(nodes),
        chosen: chosen_of(best),
    })
}

/// The least value of the leaves, if there is one with a bound.
fn least_value(prices: &Prices, slots: &[Slot]) -> Option<Money>
    requires { All (CanBeValued prices.now) slots.now }
    ensures { IsLeastOf (values_at prices.now slots.now) result }
{
    let mut least: Option<Money> = None;
    for place in 0..slots.len() {
        least = lower_of(least, value_of(prices, &slots[place]));
    }
    least
}

/// The lower one of two values, where both are there, and else the one that is there.
fn lower_of(least: Option<Money>, value: Option<Money>) -> Option<Money>
    ensures { result ≡ lower_of least value }
{
    let Some(other) = least else {
        return value;
    };
    let Some(one) = value else {
        return least;
    };
    if one.0 < other.0 { value } else { least }
}

/// What is said by the least value of the leaves and the best.
fn head_of(least: Option<Money>, best: &Option<Best>) -> Head
    ensures { result ≡ head_found least (price_in best.now) }
{
    match (best, least) {
        (Some(best), Some(bound)) => {
            if bound.0 < best.price.0 {
                Head::BoundedPlan {
                    bound,
                    cost: best.price,
                }
            } else {
                Head::Optimal { cost: best.price }
            }
        }
        (Some(best), None) => Head::Optimal { cost: best.price },
        (None, Some(bound)) => Head::Bounded { bound },
        (None, None) => Head::Infeasible,
    }
}

/// The fleet and the plan of the best.
fn chosen_of(best: Option<Best>) -> Option<Chosen>
    ensures { result ≡ option_map (λ best. best.chosen) best }
{
    match best {
        Some(best) => Some(best.chosen),
        None => None,
    }
}

/// The nodes of slots. The error is want of memory.
fn nodes_of(alloc: Global, mut slots: Vec<Slot>) -> Result<Vec<BoxNode>, NoMemory>
    ensures { IfOk result (λ nodes. nodes.items ≡ map (λ slot. slot.node) slots.items) }
{
    // The slots leave from the end, so the first one is put there.
    slots.reverse();
    let mut nodes = Vec::new(alloc);
    while let Some(slot) = slots.pop() {
        nodes.push(slot.node)?;
    }
    Ok(nodes)
}
