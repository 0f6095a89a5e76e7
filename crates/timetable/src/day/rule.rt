//! The rule of a link on a day: which units may go on by it, and which units stay in the train, go to the yard and
//! come from it.

ghost use Rattle.std.specs.Prelude.{◌≡◌, ◌<◌, ◌≤◌, ◌++◌, ◌&&◌, [], length, map, IfSome, IsTrue, unwrap_or};
ghost use Rattle.std.specs.Prelude.{option_map};
ghost use Rattle.compositions.specs.Composition.{are_types};
ghost use Rattle.timetable.specs.Day.{type_of, types_of};
ghost use Rattle.timetable.specs.Chains.{leads_from, leads_to};
ghost use Rattle.timetable.specs.LinkRows.{NamesBelow};
ghost use Rattle.timetable.specs.Links.{list_of, turned, link_holds, split_holds};
ghost use Rattle.timetable.specs.Links.{link_out, link_into, given, taken, kept_by, given_by, taken_by};
ghost use Rattle.timetable.specs.Links.{given_with, taken_with};
ghost use Rattle.timetable.specs.Running.{IsPlan, AreUnits};
ghost use Rattle.timetable.specs.Turns.{same, staying, beyond, kept_of};
ghost use Rattle.timetable.specs.Beside.{AreBeside};

use crate::day::instance::Instance;
use crate::day::plan::NamedPlan;
use crate::day::records::{Link, LinkKind};
use crate::day::trip_entry::TripEntry;
use crate::day::turns::staying_at;
use arrayvec::ArrayVec;
use rail_base::limits::MAX_COMPOSITION_UNITS;
use rail_base::{TripNo, TypeNo, UnitNo};
use rules::{End, beyond, copy_of, staying, turned};

/// What goes of a list at this end when so many stay, and all of it where none do.
fn going<T: Copy + Default + Drop>(
    end: End,
    whole: &[T],
    staying: Option<usize>,
) -> ArrayVec<T, MAX_COMPOSITION_UNITS>
    requires few { length whole.now ≤ MAX_COMPOSITION_UNITS }
    requires staying { IfSome staying (λ n. n ≤ length whole.now) }
    ensures { result.items ≡ unwrap_or (option_map (beyond end whole.now) staying) whole.now }
{
    match staying {
        Some(stay) => copy_of(beyond(end, whole, stay)),
        None => copy_of(whole),
    }
}

/// What stays of a list, where so many stay and the others go at this end, and nothing where none do.
fn left<T: Copy + Default + Drop>(
    end: End,
    whole: &[T],
    kept: Option<usize>,
) -> ArrayVec<T, MAX_COMPOSITION_UNITS>
    requires few { length whole.now ≤ MAX_COMPOSITION_UNITS }
    requires kept { IfSome kept (λ n. n ≤ length whole.now) }
    ensures { result.items ≡ unwrap_or (option_map (staying end whole.now) kept) [] }
{
    match kept {
        Some(stay) => copy_of(staying(end, whole, stay)),
        None => ArrayVec::new(),
    }
}

/// Whether the whole is the first list and then the second.
fn is_joined(first: &[UnitNo], second: &[UnitNo], whole: &[UnitNo]) -> bool
    ensures { result ≡ same (first.now ++ second.now) whole.now }
{
    match whole.strip_prefix(first) {
        Some(behind) => behind == second,
        None => false,
    }
}

/// Whether the whole is the first list and then the second, and neither is empty.
#[tactic(auto, unfolding(rules::specs::Links::split_holds))]
fn is_split(first: &[UnitNo], second: &[UnitNo], whole: &[UnitNo]) -> bool
    ensures { result ≡ split_holds whole.now first.now second.now }
{
    is_joined(first, second, whole) && !first.is_empty() && !second.is_empty()
}

// The link's trips are trips of the day of which the plan or the lists are. What a link gives and takes is coded once,
// for units and for types.

/// How many units a turn keeps in the train, by their types.
fn kept_on<E: TripEntry>(link: &Link, instance: &Instance, lists: &E::Lists) -> Option<usize>
    requires trips { NamesBelow (length instance.now.trips) link.now.kind }
    requires lists { E.AreOf instance.now lists.now }
    ensures number { result ≡ kept_of link.now.kind
        (map (E.type_of instance.now)
        (turned link.now.reverse (list_of (E.lists_of instance.now lists.now) (leads_from link.now.kind))))
        (map (E.type_of instance.now) (list_of (E.lists_of instance.now lists.now) (leads_to link.now.kind))) }
    ensures arriving { IfSome result
        (λ n. n ≤ length (list_of (E.lists_of instance.now lists.now) (leads_from link.now.kind))) }
    ensures departing { IfSome result
        (λ n. n ≤ length (list_of (E.lists_of instance.now lists.now) (leads_to link.now.kind))) }
{
    let arriving = E::list_types(lists, instance, link.kind.leads_from());
    let arriving = turned(link.reverse, arriving.as_slice());
    let departing = E::list_types(lists, instance, link.kind.leads_to());
    link.kind.kept(arriving.as_slice(), departing.as_slice())
}

/// How many entries of the arriving list, after a reversal, stay in the train at a turn: nothing where its rule is
/// broken, and at a join or a split.
fn staying_on<E: TripEntry>(
    link: &Link,
    instance: &Instance,
    lists: &E::Lists,
    arriving: &[E],
) -> Option<usize>
    requires trips { NamesBelow (length instance.now.trips) link.now.kind }
    requires lists { E.AreOf instance.now lists.now }
    requires arriving { map E.number arriving.now
        ≡ turned link.now.reverse (list_of (E.lists_of instance.now lists.now) (leads_from link.now.kind)) }
    ensures parts { AreBeside (E.type_of instance.now) link.now.kind link.now.reverse
        (E.lists_of instance.now lists.now) result }
    ensures arriving { IfSome result
        (λ n. n ≤ length (list_of (E.lists_of instance.now lists.now) (leads_from link.now.kind))) }
    ensures departing { IfSome result
        (λ n. n ≤ length (list_of (E.lists_of instance.now lists.now) (leads_to link.now.kind))) }
{
    let LinkKind::Turn {
        departing,
        uncouple,
        couple,
        exchange,
        ..
    } = link.kind
    else {
        return None;
    };
    let kept = kept_on::<E>(link, instance, lists);
    let departing = E::list(lists, instance, departing);
    staying_at::<E>(uncouple, couple, exchange, kept, arriving, departing)
}

/// The list of a trip that arrives for the link, after a reversal.
fn arriving_list<E: TripEntry>(
    link: &Link,
    instance: &Instance,
    lists: &E::Lists,
    trip: TripNo,
) -> ArrayVec<E, MAX_COMPOSITION_UNITS>
    requires lists { E.AreOf instance.now lists.now }
    requires trip { trip < length instance.now.trips }
    ensures numbers { map E.number result.items
        ≡ turned link.now.reverse (list_of (E.lists_of instance.now lists.now) trip) }
    ensures few { length result.items ≤ MAX_COMPOSITION_UNITS }
{
    turned(link.reverse, E::list(lists, instance, trip))
}

/// Whether a plan keeps the link's rule.
#[tactic(auto, unfolding(rules::specs::Links::link_holds, rules::specs::Links::join_holds))]
pub fn link_holds(link: &Link, instance: &Instance, plan: &NamedPlan) -> bool
    requires trips { NamesBelow (length instance.now.trips) link.now.kind }
    requires plan { IsPlan instance.now plan.now }
    ensures { result ≡ link_holds (type_of instance.now) link.now plan.now }
{
    match link.kind {
        LinkKind::Turn { arriving, .. } => {
            let arriving = turned(link.reverse, plan.units(arriving));
            let staying = staying_on::<UnitNo>(link, instance, plan, arriving.as_slice());
            staying.is_some()
        }
        LinkKind::Join {
            first,
            second,
            departing,
        } => {
            let first = turned(link.reverse, plan.units(first));
            let second = turned(link.reverse, plan.units(second));
            is_joined(first.as_slice(), second.as_slice(), plan.units(departing))
        }
        LinkKind::Split {
            arriving,
            first,
            second,
        } => {
            let arriving = turned(link.reverse, plan.units(arriving));
            is_split(plan.units(first), plan.units(second), arriving.as_slice())
        }
    }
}

/// What stays in the train from a trip that arrives for the link to one that leaves by it, front to rear after a
/// reversal: at a turn what stands at the kept places, and nothing where its rule is broken; at a join the list of
/// the arriving trip; at a split the list of the departing trip. Nothing between other trips.
pub fn kept_by<E: TripEntry>(
    link: &Link,
    instance: &Instance,
    lists: &E::Lists,
    from: TripNo,
    to: TripNo,
) -> ArrayVec<E, MAX_COMPOSITION_UNITS>
    requires trips { NamesBelow (length instance.now.trips) link.now.kind }
    requires lists { E.AreOf instance.now lists.now }
    ensures { map E.number result.items ≡ kept_by (E.type_of instance.now) link.now.kind link.now.reverse
        (E.lists_of instance.now lists.now) from to }
{
    if !link.kind.leads(from, to) {
        return ArrayVec::new();
    }
    match link.kind {
        LinkKind::Turn {
            arriving,
            uncouple,
            ..
        } => {
            let arriving = arriving_list::<E>(link, instance, lists, arriving);
            let staying = staying_on::<E>(link, instance, lists, arriving.as_slice());
            left(uncouple, arriving.as_slice(), staying)
        }
        LinkKind::Join { .. } => arriving_list::<E>(link, instance, lists, from),
        LinkKind::Split { .. } => copy_of(E::list(lists, instance, to)),
    }
}

/// What the link gives to the yard, front to rear after a reversal: what a turn uncouples, all that arrives where
/// the rule of the turn is broken, and nothing at a join or a split.
fn given_by<E: TripEntry>(
    link: &Link,
    instance: &Instance,
    lists: &E::Lists,
) -> ArrayVec<E, MAX_COMPOSITION_UNITS>
    requires trips { NamesBelow (length instance.now.trips) link.now.kind }
    requires lists { E.AreOf instance.now lists.now }
    ensures { map E.number result.items
        ≡ given_by (E.type_of instance.now) link.now.kind link.now.reverse (E.lists_of instance.now lists.now) }
{
    let LinkKind::Turn {
        arriving,
        uncouple,
        ..
    } = link.kind
    else {
        return ArrayVec::new();
    };
    let arriving = turned(link.reverse, E::list(lists, instance, arriving));
    let staying = staying_on::<E>(link, instance, lists, arriving.as_slice());
    going(uncouple, arriving.as_slice(), staying)
}

/// What the link takes from the yard, front to rear: what a turn couples, all that departs where the rule of the
/// turn is broken, and nothing at a join or a split.
fn taken_by<E: TripEntry>(
    link: &Link,
    instance: &Instance,
    lists: &E::Lists,
) -> ArrayVec<E, MAX_COMPOSITION_UNITS>
    requires trips { NamesBelow (length instance.now.trips) link.now.kind }
    requires lists { E.AreOf instance.now lists.now }
    ensures { map E.number result.items
        ≡ taken_by (E.type_of instance.now) link.now.kind link.now.reverse (E.lists_of instance.now lists.now) }
{
    let LinkKind::Turn {
        arriving,
        departing,
        couple,
        ..
    } = link.kind
    else {
        return ArrayVec::new();
    };
    let arriving = turned(link.reverse, E::list(lists, instance, arriving));
    let staying = staying_on::<E>(link, instance, lists, arriving.as_slice());
    going(couple, E::list(lists, instance, departing), staying)
}

impl Instance {
    /// The types of units of the day, front to rear: at most six. It takes no memory.
    pub fn types_of(&self, units: &[UnitNo]) -> ArrayVec<TypeNo, MAX_COMPOSITION_UNITS>
        requires known { AreUnits self.now units.now }
        requires few { length units.now ≤ MAX_COMPOSITION_UNITS }
        ensures types { result.items ≡ types_of self.now units.now }
        ensures known { IsTrue (are_types self.now.types result.items) }
    {
        let mut types = ArrayVec::new();
        for unit in units {
            types.push(self.unit(*unit).unit_type);
        }
        types
    }

    /// The link that leads on from a trip, which is below `trips`, if any does.
    pub fn link_out(&self, trip: TripNo) -> Option<Link>
        requires { trip < length self.now.trips }
        ensures link { result ≡ link_out self.now trip }
        ensures trips { IfSome result (λ link. NamesBelow (length self.now.trips) link.kind) }
    {
        let number = self.outgoing(trip)?;
        Some(*self.link(number))
    }

    /// The link that leads into a trip, which is below `trips`, if any does.
    pub fn link_into(&self, trip: TripNo) -> Option<Link>
        requires { trip < length self.now.trips }
        ensures link { result ≡ link_into self.now trip }
        ensures trips { IfSome result (λ link. NamesBelow (length self.now.trips) link.kind) }
    {
        let number = self.incoming(trip)?;
        Some(*self.link(number))
    }

    /// What a trip gives to the yard where it arrives, front to rear after a reversal: what a turn uncouples, all of
    /// its list where no link leads on or the rule of the turn is broken, and nothing at a join or a split. The trip
    /// is below `trips`.
    #[tactic(auto, unfolding(rules::specs::Links::given_with))]
    pub fn given<E: TripEntry>(
        &self,
        lists: &E::Lists,
        trip: TripNo,
    ) -> ArrayVec<E, MAX_COMPOSITION_UNITS>
        requires trip { trip < length self.now.trips }
        requires lists { E.AreOf self.now lists.now }
        ensures { map E.number result.items
            ≡ given_with (E.type_of self.now) self.now (E.lists_of self.now lists.now) trip }
    {
        match self.link_out(trip) {
            Some(link) => given_by::<E>(&link, self, lists),
            None => copy_of(E::list(lists, self, trip)),
        }
    }

    /// What a trip takes from the yard where it leaves, front to rear: what a turn couples, all of its list where no
    /// link leads into it or the rule of the turn is broken, and nothing at a join or a split. The trip is below
    /// `trips`.
    #[tactic(auto, unfolding(rules::specs::Links::taken_with))]
    pub fn taken<E: TripEntry>(
        &self,
        lists: &E::Lists,
        trip: TripNo,
    ) -> ArrayVec<E, MAX_COMPOSITION_UNITS>
        requires trip { trip < length self.now.trips }
        requires lists { E.AreOf self.now lists.now }
        ensures { map E.number result.items
            ≡ taken_with (E.type_of self.now) self.now (E.lists_of self.now lists.now) trip }
    {
        match self.link_into(trip) {
            Some(link) => taken_by::<E>(&link, self, lists),
            None => copy_of(E::list(lists, self, trip)),
        }
    }
}

impl NamedPlan {
    /// The types of the units of a trip of the plan's day, front to rear: at most six. It takes no memory.
    pub fn types(
        &self,
        instance: &Instance,
        trip: TripNo,
    ) -> ArrayVec<TypeNo, MAX_COMPOSITION_UNITS>
        requires trip { trip < length instance.now.trips }
        requires plan { IsPlan instance.now self.now }
        ensures types { result.items ≡ types_of instance.now (list_of self.now trip) }
        ensures known { IsTrue (are_types instance.now.types result.items) }
    {
        instance.types_of(self.units(trip))
    }

    /// The units that a trip of the plan's day gives to the yard where it arrives, front to rear after a reversal:
    /// those that a turn uncouples, all of them where no link leads on or the rule of the turn is broken, and none at
    /// a join or a split.
    pub fn given(
        &self,
        instance: &Instance,
        trip: TripNo,
    ) -> ArrayVec<UnitNo, MAX_COMPOSITION_UNITS>
        requires trip { trip < length instance.now.trips }
        requires plan { IsPlan instance.now self.now }
        ensures { result.items ≡ given instance.now self.now trip }
    {
        instance.given::<UnitNo>(self, trip)
    }

    /// The units that a trip of the plan's day takes from the yard where it leaves, front to rear: those that a turn
    /// couples, all of them where no link leads into it or the rule of the turn is broken, and none at a join or a
    /// split.
    pub fn taken(
        &self,
        instance: &Instance,
        trip: TripNo,
    ) -> ArrayVec<UnitNo, MAX_COMPOSITION_UNITS>
        requires trip { trip < length instance.now.trips }
        requires plan { IsPlan instance.now self.now }
        ensures { result.items ≡ taken instance.now self.now trip }
    {
        instance.taken::<UnitNo>(self, trip)
    }
}
