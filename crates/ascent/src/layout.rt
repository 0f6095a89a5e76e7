//! Where the multipliers of a day stand among the indices.

ghost use Rattle.std.specs.Prelude.{◌≡◌, ◌+◌, [], length, IfOk, OnOk};

use rail_base::NoMemory;
use std::alloc::Global;

/// Where the multipliers of one station and type stand.
#[derive(Clone, Copy)]
pub struct YardIndices {
    /// The index of the first departure minute of the station.
    pub first: usize,
    /// How many departure minutes the station has.
    pub places: usize,
    /// The index of the station and type.
    pub end: usize,
}

/// Where the multipliers of a day stand: first those of departure minutes by station, type and minute, then those of
/// stations and types, then those of hand-overs and compositions.
#[derive(Drop)]
pub struct Layout {
    /// For each station and type, by station and then by type.
    pub yards: Vec<YardIndices>,
    /// For each index of a departure minute the place of its station and type among `yards`.
    pub yard_of: Vec<usize>,
    /// For each index of a departure minute whether a unit may become ready after it and up to the next one of its
    /// station, or, at the last, after it.
    pub may_rise: Vec<bool>,
    /// How many indices belong to departure minutes.
    pub free_from: usize,
    /// The first index of a hand-over.
    pub parts_from: usize,
    /// How many indices there are.
    pub indices: usize,
}

impl Layout {
    /// A layout without yards, of so many indices, of which the first ones belong to departure minutes and the next
    /// ones to so many stations and types. The error is want of memory.
    pub fn new(
        alloc: Global,
        free_from: usize,
        yards: usize,
        indices: usize,
    ) -> Result<Layout, NoMemory>
        ensures yards { IfOk result (λ layout. layout.yards.items ≡ []) }
        ensures yard_of { IfOk result (λ layout. length layout.yard_of.items ≡ free_from) }
        ensures may_rise { IfOk result (λ layout. length layout.may_rise.items ≡ free_from) }
        ensures free_from { IfOk result (λ layout. layout.free_from ≡ free_from) }
        ensures indices { IfOk result (λ layout. layout.indices ≡ indices) }
    {
        Ok(Layout {
            yards: Vec::new(alloc),
            yard_of: vec![in alloc; 0; free_from]?,
            may_rise: vec![in alloc; false; free_from]?,
            free_from,
            parts_from: free_from.saturating_add(yards),
            indices,
        })
    }

    /// Adds the next station and type, with so many departure minutes. The error is want of memory.
    pub fn add_yard(&mut self, places: usize) -> Result<(), NoMemory>
        ensures one_more { OnOk result (length self.new.yards.items ≡ length self.old.yards.items + 1) }
        ensures yard_of { length self.new.yard_of.items ≡ length self.old.yard_of.items }
    {
        let yard = self.yards.len();
        let first = match self.yards.last() {
            Some(last) => last.first.saturating_add(last.places),
            None => 0,
        };
        self.yards.push(YardIndices {
            first,
            places,
            end: self.free_from.saturating_add(yard),
        })?;
        for index in first..first.saturating_add(places).min(self.yard_of.len()) {
            self.yard_of[index] = yard;
        }
        Ok(())
    }

    /// Marks the departure minute before a place of a station and type: a unit may become ready after it.
    pub fn mark_before(&mut self, yard: usize, place: usize)
        ensures may_rise { length self.new.may_rise.items ≡ length self.old.may_rise.items }
        ensures yards { self.new.yards.items ≡ self.old.yards.items }
    {
        if place == 0 || yard >= self.yards.len() {
            return;
        }
        let index = self.yards[yard].first.saturating_add(place - 1);
        if index < self.may_rise.len() {
            self.may_rise[index] = true;
        }
    }
}
