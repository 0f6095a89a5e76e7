//! Candidates of an event, of which the best with different keys are kept.

use rail_base::{CompNo, NoMemory};
use std::alloc::Global;

/// What a label may go on with.
#[derive(Clone, Copy)]
pub(crate) struct Candidate {
    /// The reduced cost with a price for each violation.
    pub total: i64,
    /// The reduced cost of what was set.
    pub score: i64,
    /// The violations that were seen.
    pub violations: i64,
    /// The place of the label.
    pub parent: usize,
    /// The composition of the first departing trip.
    pub comp: CompNo,
    /// The place of the edge, where the event is a link.
    pub edge: usize,
    /// What two candidates share that may go on alike.
    pub key: u64,
}

/// A candidate of nothing.
const NONE: Candidate = Candidate {
    total: i64::MAX,
    score: 0,
    violations: 0,
    parent: 0,
    comp: CompNo(0),
    edge: 0,
    key: 0,
};

impl Candidate {
    /// Whether it comes before another one.
    fn is_before(&self, other: &Candidate) -> bool {
        if self.total != other.total {
            return self.total < other.total;
        }
        if self.parent != other.parent {
            return self.parent < other.parent;
        }
        self.comp.0 < other.comp.0
    }
}

/// The best candidates so far, one of each key.
#[derive(Drop)]
pub(crate) struct Kept {
    items: Vec<Candidate>,
    len: usize,
    width: usize,
}

impl Kept {
    /// Room for so many. The error is want of memory.
    pub(crate) fn new(alloc: Global, most: usize) -> Result<Kept, NoMemory> {
        Ok(Kept {
            items: vec![in alloc; NONE; most]?,
            len: 0,
            width: most,
        })
    }

    /// Takes all out, and sets how many are kept.
    pub(crate) fn begin(&mut self, width: usize) {
        self.len = 0;
        self.width = width.min(self.items.len());
    }

    /// How many there are.
    pub(crate) fn len(&self) -> usize {
        self.len.min(self.items.len())
    }

    /// The one at a place.
    pub(crate) fn at(&self, place: usize) -> Candidate {
        match self.items.get(place) {
            Some(candidate) => *candidate,
            None => NONE,
        }
    }

    /// Whether a candidate that is as good as this one may still be kept.
    pub(crate) fn may_take(&self, candidate: &Candidate) -> bool {
        if self.width == 0 {
            return false;
        }
        if self.len < self.width {
            return true;
        }
        candidate.is_before(&self.at(self.width - 1))
    }

    /// Keeps a candidate, where it is among the best: in place of one of the same key, or of the last.
    pub(crate) fn offer(&mut self, candidate: Candidate) {
        if !self.may_take(&candidate) {
            return;
        }
        let mut hole = self.len().min(self.width.saturating_sub(1));
        for place in 0..self.len() {
            let other = self.at(place);
            if other.key == candidate.key {
                if !candidate.is_before(&other) {
                    return;
                }
                hole = place;
                break;
            }
        }
        if hole >= self.len() {
            self.len = hole.saturating_add(1);
        }
        self.fill(hole, candidate);
    }

    /// Puts a candidate at its place among those before a hole, which move up by one.
    fn fill(&mut self, hole: usize, candidate: Candidate) {
        let mut place = hole;
        for earlier in (0..hole).rev() {
            let before = self.at(earlier);
            if !candidate.is_before(&before) {
                break;
            }
            self.put(place, before);
            place = earlier;
        }
        self.put(place, candidate);
    }

    /// Puts a candidate at a place.
    fn put(&mut self, place: usize, candidate: Candidate) {
        if place < self.items.len() {
            self.items[place] = candidate;
        }
    }
}
