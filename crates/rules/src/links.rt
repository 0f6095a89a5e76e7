//! The trips that a link leads on from and to, what of a list of types a turn keeps, and whether it is shunted.

ghost use Rattle.std.specs.Prelude.{ℕ, ◌≡◌, ◌<◌, ◌≤◌, ◌&&◌, length, IfSome, IsTrue};
ghost use Rattle.rules.specs.Cost.{shunts};
ghost use Rattle.rules.specs.Links.{turned, arriving_in, departing_in, trip_list};
ghost use Rattle.rules.specs.Lists.{has};
ghost use Rattle.rules.specs.NamedTrips.{leads_from, leads_to, second_of, AreBelow, NamesBelow};
ghost use Rattle.rules.specs.Turns.{kept_of, IsKept, uncoupling_end, coupling_end};

use crate::records::{End, Link, LinkKind, LinkTrips};
use crate::turns::kept_length;
use arrayvec::ArrayVec;
use rail_base::limits::MAX_COMPOSITION_UNITS;
use rail_base::{TripNo, TypeNo};

impl LinkTrips {
    /// Whether a trip is one of them.
    pub fn has(&self, trip: TripNo) -> bool
        ensures { result ≡ has trip (trip_list self.now) }
    {
        if trip == self.first {
            return true;
        }
        match self.second {
            Some(second) => trip == second,
            None => false,
        }
    }
}

impl LinkKind {
    /// The trips that arrive for the link, the train in front first.
    pub fn arriving(&self) -> LinkTrips
        ensures trips { trip_list result ≡ arriving_in self.now }
        ensures first { result.first ≡ leads_from self.now }
        ensures below { (bound : ℕ) → NamesBelow bound self.now → AreBelow bound result }
    {
        match *self {
            LinkKind::Turn { arriving, .. } => LinkTrips {
                first: arriving,
                second: None,
            },
            LinkKind::Join { first, second, .. } => LinkTrips {
                first,
                second: Some(second),
            },
            LinkKind::Split { arriving, .. } => LinkTrips {
                first: arriving,
                second: None,
            },
        }
    }

    /// The trips that leave by the link, the train in front first.
    pub fn departing(&self) -> LinkTrips
        ensures trips { trip_list result ≡ departing_in self.now }
        ensures first { result.first ≡ leads_to self.now }
        ensures below { (bound : ℕ) → NamesBelow bound self.now → AreBelow bound result }
    {
        match *self {
            LinkKind::Turn { departing, .. } => LinkTrips {
                first: departing,
                second: None,
            },
            LinkKind::Join { departing, .. } => LinkTrips {
                first: departing,
                second: None,
            },
            LinkKind::Split { first, second, .. } => LinkTrips {
                first,
                second: Some(second),
            },
        }
    }

    /// Whether the link leads from one trip to another: the one arrives for it, and the other leaves by it.
    pub fn leads(&self, from: TripNo, to: TripNo) -> bool
        ensures named { result ≡ has from (arriving_in self.now) && has to (departing_in self.now) }
        ensures below { (bound : ℕ) → NamesBelow bound self.now → IsTrue result → (from < bound) × (to < bound) }
    {
        self.arriving().has(from) && self.departing().has(to)
    }

    /// The trip that a link leads a chain from: its first arriving trip, the train in front.
    pub fn leads_from(&self) -> TripNo
        ensures { result ≡ leads_from self.now }
    {
        self.arriving().first
    }

    /// The trip that a link leads a chain to: its first departing trip, the train in front.
    pub fn leads_to(&self) -> TripNo
        ensures { result ≡ leads_to self.now }
    {
        self.departing().first
    }

    /// The second arriving trip of a join or the second departing trip of a split; a turn has none.
    pub fn second(&self) -> Option<TripNo>
        ensures { result ≡ second_of self.now }
    {
        match *self {
            LinkKind::Turn { .. } => None,
            LinkKind::Join { second, .. } => Some(second),
            LinkKind::Split { second, .. } => Some(second),
        }
    }

    /// The end of the arriving train, after a reversal, at which a turn uncouples units; none at a join or a split.
    pub fn uncoupling_end(&self) -> End
        ensures { result ≡ uncoupling_end self.now }
    {
        match *self {
            LinkKind::Turn { uncouple, .. } => uncouple,
            LinkKind::Join { .. } | LinkKind::Split { .. } => End::None,
        }
    }

    /// The end of the departing train at which a turn couples units; none at a join or a split.
    pub fn coupling_end(&self) -> End
        ensures { result ≡ coupling_end self.now }
    {
        match *self {
            LinkKind::Turn { couple, .. } => couple,
            LinkKind::Join { .. } | LinkKind::Split { .. } => End::None,
        }
    }

    /// How many units a turn keeps, by the types of the arriving list after a reversal and of the departing list: the
    /// length of the longest list of types that fits both of its ends. Nothing where no list fits, and at a join or a
    /// split.
    pub fn kept(&self, arriving: &[TypeNo], departing: &[TypeNo]) -> Option<usize>
        ensures number { result ≡ kept_of self.now arriving.now departing.now }
        ensures meaning { IsKept self.now arriving.now departing.now result }
        ensures arriving { IfSome result (λ n. n ≤ length arriving.now) }
        ensures departing { IfSome result (λ n. n ≤ length departing.now) }
    {
        match *self {
            LinkKind::Turn {
                uncouple,
                couple,
                ..
            } => kept_length(uncouple, couple, arriving, departing),
            LinkKind::Join { .. } | LinkKind::Split { .. } => None,
        }
    }
}

/// The same entries, which are at most six, in the same order.
pub fn copy_of<T: Copy + Default + Drop>(list: &[T]) -> ArrayVec<T, MAX_COMPOSITION_UNITS>
    requires { length list.now ≤ MAX_COMPOSITION_UNITS }
    ensures { result.items ≡ list.now }
{
    let mut copy = ArrayVec::new();
    for entry in list {
        copy.push(*entry);
    }
    copy
}

/// An arriving list of at most six as it stands after the train has turned round, or not.
pub fn turned<T: Copy + Default + Drop>(
    reversed: bool,
    list: &[T],
) -> ArrayVec<T, MAX_COMPOSITION_UNITS>
    requires { length list.now ≤ MAX_COMPOSITION_UNITS }
    ensures { result.items ≡ turned reversed list.now }
{
    let mut list = copy_of(list);
    if reversed {
        list.reverse();
    }
    list
}

impl Link {
    /// Whether the link is shunted between a train of units of these types, which arrives, and one of those: whether a
    /// turn does not keep all units of both. No join or split is shunted.
    pub fn is_shunted(&self, arriving: &[TypeNo], departing: &[TypeNo]) -> bool
        requires { length arriving.now ≤ MAX_COMPOSITION_UNITS }
        ensures { result ≡ shunts self.now.kind (turned self.now.reverse arriving.now) departing.now }
    {
        if self.kind.second().is_some() {
            return false;
        }
        let arriving = turned(self.reverse, arriving);
        let kept = self.kind.kept(arriving.as_slice(), departing).unwrap_or(0);
        !(kept == arriving.len() && kept == departing.len())
    }
}
