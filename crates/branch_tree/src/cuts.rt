//! Cuts: a cut divides the set of one trip into the compositions that meet it and the others.

ghost use Rattle.std.specs.Prelude.{◌≡◌, ◌<◌, ◌↔◌, IsTrue};
ghost use Rattle.rail_base.specs.declared.limits.TheConstants.{MAX_COMPOSITIONS};
ghost use Rattle.branch_tree.specs.Cuts.{trip_of, units_of_type, is_met, is_on};
ghost use Rattle.branch_tree.specs.Sets.{HasMember, is_member, restricted};

use crate::sets::CompositionSet;
use compositions::Catalogue;
use rail_base::{CompNo, TripNo, TypeNo};

/// What divides the compositions of one trip.
#[derive(Clone, Copy, Debug)]
pub enum Cut {
    /// Met by this composition alone.
    Only {
        /// The trip whose compositions are divided.
        trip: TripNo,
        /// The composition.
        comp: CompNo,
    },
    /// Met by the compositions with at most so many units of a type.
    AtMost {
        /// The trip whose compositions are divided.
        trip: TripNo,
        /// The unit type that is counted.
        unit_type: TypeNo,
        /// The most units of that type.
        count: u32,
    },
}

/// A side of a cut.
#[derive(Clone, Copy)]
pub enum Side {
    /// The compositions that meet the cut.
    Left,
    /// The others.
    Right,
}

/// What one trip's set was before a cut.
#[derive(Drop)]
pub struct Mark {
    /// The trip whose set was cut.
    pub trip: TripNo,
    /// The set of that trip before the cut.
    pub before: CompositionSet,
}

impl Mark {
    /// Whether a composition was in the trip's set before the cut.
    pub fn has(&self, comp: CompNo) -> bool
        ensures { result ≡ is_member self.now.before comp }
    {
        self.before.contains(comp)
    }
}

impl Cut {
    /// The trip whose compositions are divided.
    pub fn trip(&self) -> TripNo
        ensures { result ≡ trip_of self.now }
    {
        match self {
            Cut::Only { trip, .. } | Cut::AtMost { trip, .. } => *trip,
        }
    }

    /// Whether a composition meets the cut. One that is not in the catalogue has no units.
    pub fn is_met(&self, catalogue: &Catalogue, comp: CompNo) -> bool
        ensures { result ≡ is_met catalogue.now self.now comp }
    {
        match self {
            Cut::Only { comp: only, .. } => comp == *only,
            Cut::AtMost {
                unit_type,
                count,
                ..
            } => units_of_type(catalogue, comp, *unit_type) <= *count,
        }
    }

    /// Whether a composition is on this side of the cut.
    pub fn has_on(&self, catalogue: &Catalogue, side: Side, comp: CompNo) -> bool
        ensures { result ≡ is_on catalogue.now self.now side comp }
    {
        match side {
            Side::Left => self.is_met(catalogue, comp),
            Side::Right => !self.is_met(catalogue, comp),
        }
    }
}

/// How many units of a type a composition has, and none where it is not in the catalogue.
fn units_of_type(catalogue: &Catalogue, comp: CompNo, unit_type: TypeNo) -> u32
    ensures { result ≡ units_of_type catalogue.now comp unit_type }
{
    if comp.0 < catalogue.len() {
        catalogue.get(comp).count(unit_type)
    } else {
        0
    }
}

impl CompositionSet {
    /// Whether some member is on a side of a cut.
    pub(crate) fn has_some_on(&self, catalogue: &Catalogue, cut: &Cut, side: Side) -> bool
        ensures { IsTrue result ↔ HasMember (restricted (is_on catalogue.now cut.now side) self.now) }
    {
        for comp in 0..self.numbers() {
            if self.has(CompNo(comp)) && cut.has_on(catalogue, side, CompNo(comp)) {
                return true;
            }
        }
        false
    }

    /// Keeps the members on a side of a cut.
    pub(crate) fn keep(&mut self, catalogue: &Catalogue, cut: &Cut, side: Side)
        ensures { self.new ≡ restricted (is_on catalogue.now cut.now side) self.old }
    {
        for comp in 0..self.numbers() {
            if self.has(CompNo(comp)) && !cut.has_on(catalogue, side, CompNo(comp)) {
                self.remove(CompNo(comp));
            }
        }
    }
}
