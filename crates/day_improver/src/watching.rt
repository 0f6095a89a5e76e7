//! Watchers: who is told how far the improver of a day has come.

use improvers::Seen;
use rail_base::Money;

/// How far a search has come, as the improver of a day sees it.
#[derive(Clone, Copy)]
pub struct Progress {
    /// The node that is worked on: how many nodes were made before it.
    pub node: u32,
    /// How many branchings were made.
    pub branchings: u32,
    /// How many bounds of the cost the improver took, at all nodes together.
    pub evaluations: u64,
    /// The greatest bound that is known of the cost of all plans that are better than the best one, where there is one.
    /// It never falls.
    pub bound: Option<Money>,
    /// The least cost of a plan that was found, where there is one. It never rises.
    pub plan: Option<Money>,
}

/// Is told how far the improver of a day has come. Nothing is promised of what it is told, nor asked of what it does.
pub trait Watcher: Drop {
    /// Takes note of how far the improver has come.
    fn watch(&mut self, progress: &Progress);
}

/// Takes note of nothing.
#[derive(Drop)]
pub struct NoWatcher;

impl Watcher for NoWatcher {
    /// Does nothing.
    fn watch(&mut self, _progress: &Progress) {}
}

/// A watcher that is lent is told as the watcher itself.
impl<W: Watcher> Watcher for &mut W {
    fn watch(&mut self, progress: &Progress) {
        (**self).watch(progress);
    }
}

/// How far a search has come, as far as an improver has seen it.
#[derive(Drop)]
pub(crate) struct Sight {
    progress: Progress,
    /// Whether the day has hand-overs. Then a side of a cut may leave out what its node still has.
    has_handovers: bool,
    /// The left side that was shown last: the number of its branching and its bound. Its right side may follow.
    left: Option<Side>,
}

/// A side of a branching.
#[derive(Clone, Copy)]
struct Side {
    branching: u32,
    bound: Money,
}

impl Sight {
    /// Nothing seen yet of a day with hand-overs, or without any.
    pub(crate) fn new(has_handovers: bool) -> Sight {
        Sight {
            progress: Progress {
                node: 0,
                branchings: 0,
                evaluations: 0,
                bound: None,
                plan: None,
            },
            has_handovers,
            left: None,
        }
    }

    /// How far the search has come.
    pub(crate) fn progress(&self) -> &Progress {
        &self.progress
    }

    /// Takes note of a node that is shown for the first time.
    pub(crate) fn see(&mut self, seen: &Seen<'_>) {
        self.progress.node = seen.node;
        self.progress.branchings = seen.node.saturating_add(1) / 2;
        if let Some(best) = &seen.best {
            self.lower_plan(best.cost);
        }
        if seen.node == 0 {
            self.raise_bound(seen.kept);
        } else if !self.has_handovers {
            self.see_side(seen);
        }
    }

    /// Takes note of a side of a branching, on a day without hand-overs.
    ///
    /// A search branches the open node of the least bound, and makes its left side and then its right one, each under
    /// that node's multipliers. Under these the node's bound is the lower one of its sides, so where both are shown
    /// with their bounds under multipliers, the lower one bounds all plans that are better than the best.
    fn see_side(&mut self, seen: &Seen<'_>) {
        let left = self.left;
        self.left = None;
        if seen.multipliers.len() == 0 {
            return;
        }
        let branching = self.progress.branchings;
        if seen.node % 2 != 0 {
            self.left = Some(Side {
                branching,
                bound: seen.kept,
            });
        } else if let Some(left) = left
            && left.branching == branching
        {
            self.raise_bound(lower(left.bound, seen.kept));
        }
    }

    /// Counts an evaluation.
    pub(crate) fn count(&mut self) {
        self.progress.evaluations = self.progress.evaluations.saturating_add(1);
    }

    /// Takes note of a bound of all plans.
    pub(crate) fn raise_bound(&mut self, bound: Money) {
        match self.progress.bound {
            Some(known) if bound.0 <= known.0 => {}
            _ => self.progress.bound = Some(bound),
        }
    }

    /// Takes note of what a plan costs.
    pub(crate) fn lower_plan(&mut self, cost: Money) {
        match self.progress.plan {
            Some(known) if known.0 <= cost.0 => {}
            _ => self.progress.plan = Some(cost),
        }
    }
}

/// The lower of two amounts.
fn lower(amount: Money, other: Money) -> Money {
    if amount.0 <= other.0 { amount } else { other }
}
