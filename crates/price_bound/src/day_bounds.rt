//! A day as a relaxation.

ghost use Rattle.std.specs.Prelude.{◌≡◌, IfOk, length};
ghost use Rattle.branch_tree.specs.Meanings.{DoFitFor, IsRelaxation};
ghost use Rattle.transitions.specs.Edges.{AreGraphs};
ghost use Rattle.price_bound.specs.ChangedDays.{AreChanges, changed_day, changed_meanings, unchanged};

use crate::changes::Change;
use crate::following::follow;
use crate::guide::put_prices;
use crate::priced::Asked;
use crate::settling::settle;
use crate::slacks::put_slacks;
use crate::workspaces::Workspace;
use branch_tree::{BoundAnswer, Multipliers, Region, Relaxation, Settled, Slacks, Weight};
use compositions::Catalogue;
use inventory::Ledger;
use price_guide::PriceGuide;
use rail_base::NoMemory;
use std::alloc::Global;
use std::marker::Model;
use timetable::{Instance, Picks};
use transitions::Graphs;

/// A day under changes with its edges, and the room in which its bounds are found and its yards are counted. A contract
/// sees the day and the changes.
#[derive(Drop)]
pub struct DayBounds<'a> {
    instance: &'a Instance,
    graphs: &'a Graphs,
    changes: &'a [Change],
    ledger: Ledger<'a>,
    room: Workspace,
}

impl<'a> Model for DayBounds<'a> {
    ghost use Rattle.price_bound.specs.ChangedDays.{ChangedDay, changed_day};
    ghost use Rattle.price_bound.specs.Rooms.{IsReady};

    ghost Value = { ChangedDay };

    ghost view = { λ a. changed_day a.instance.now a.changes.now };

    ghost invariant = { λ a. IsReady a.instance.now a.graphs.now a.changes.now a.ledger a.room };
}

impl<'a> DayBounds<'a> {
    /// The relaxation of a day that nothing is changed on; the graphs are those of the day. The error is want of
    /// memory.
    pub fn new(
        alloc: Global,
        instance: &'a Instance,
        graphs: &'a Graphs,
    ) -> Result<DayBounds<'a>, NoMemory>
        requires { AreGraphs instance.now graphs.now }
        ensures { IfOk result (λ bounds. bounds ≡ unchanged instance.now) }
    {
        let none: &'a [Change] = &[];
        DayBounds::with_changes(alloc, instance, graphs, none)
    }

    /// The relaxation of a day under changes: picks cost what their compositions cost, and the cost of each change
    /// whose trip has another composition than its base. The graphs are those of the day. The trips of the changes rise
    /// and are the day's, each base is in the catalogue, and each cost is at most 1,000,000. The error is want of
    /// memory.
    pub fn with_changes(
        alloc: Global,
        instance: &'a Instance,
        graphs: &'a Graphs,
        changes: &'a [Change],
    ) -> Result<DayBounds<'a>, NoMemory>
        requires graphs { AreGraphs instance.now graphs.now }
        requires changes { AreChanges instance.now changes.now }
        ensures { IfOk result (λ bounds. bounds ≡ changed_day instance.now changes.now) }
    {
        instance.is_sound();
        let ledger = Ledger::new(alloc, instance)?;
        let room = Workspace::new(alloc, instance, changes)?;
        Ok(DayBounds {
            instance,
            graphs,
            changes,
            ledger,
            room,
        })
    }

    /// Puts into a guide what compositions and edges are priced under multipliers that fit, in a region that has a set
    /// for each trip, and what the best ways on from compositions are priced. A composition that the region doesn't
    /// have has no price, and its best way on has none where the region has no way on; an edge of a turn has one in any
    /// region. Prices for which the guide has no place are left out. No clause says what the guide has then. It takes
    /// no memory.
    pub fn put_prices(
        &mut self,
        region: &Region,
        multipliers: &Multipliers,
        weight: Weight,
        guide: &mut PriceGuide,
    )
        requires fit { DoFitFor (changed_meanings self.old) multipliers.now }
        requires region { length region.now ≡ (changed_meanings self.old).trips }
        ensures same { self.new ≡ self.old }
    {
        let asked = Asked {
            instance: self.instance,
            graphs: self.graphs,
            changes: self.changes,
            region,
            multipliers,
            weight,
        };
        put_prices(&mut self.room, &asked, guide);
    }
}

impl<'a> Relaxation for DayBounds<'a> {
    type Problem = DayBounds<'a>;

    ghost problem = { λ bounds. bounds };

    ghost meanings = { changed_meanings };

    ghost IsWellPosed = { λ changed. IsRelaxation (changed_meanings changed) };

    fn trips(&self) -> u32 {
        self.instance.trips()
    }

    fn indices(&self) -> u32 {
        self.instance.indices()
    }

    fn free_from(&self) -> u32 {
        self.instance.free_from()
    }

    fn catalogue(&self) -> &Catalogue {
        self.instance.catalogue()
    }

    fn bound(
        &mut self,
        region: &Region,
        multipliers: &Multipliers,
        weight: Weight,
        best: &mut Picks,
    ) -> BoundAnswer {
        let asked = Asked {
            instance: self.instance,
            graphs: self.graphs,
            changes: self.changes,
            region,
            multipliers,
            weight,
        };
        self.room.bound(&asked, best)
    }

    fn follows(&self, picks: &Picks) -> bool {
        follow(self.instance, self.graphs, picks)
    }

    fn settle(&mut self, picks: &Picks) -> Settled {
        settle(
            self.instance,
            self.graphs,
            self.changes,
            &mut self.ledger,
            picks,
        )
    }

    fn slacks(&mut self, picks: &Picks, into: &mut Slacks) {
        put_slacks(self.instance, self.graphs, &mut self.ledger, picks, into)
    }

    ghost relaxes = { λ day relaxed. relaxed };
}
