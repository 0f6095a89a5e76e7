//! A move: some clusters are freed, and built anew in the order of time by a beam.

use crate::candidates::{Candidate, Kept};
use crate::events::{Event, EventKind};
use crate::labels::{Label, mark, mark_of_lists};
use crate::missing::{Lows, Moved};
use crate::network::{EdgeRow, LinkRow, NO_UNITS, Network};
use crate::plans::{MISSED, Plan};
use crate::reaches::{Later, NO_REACHES, Reaches, UNTOUCHED, note, reaches_of};
use price_guide::PriceGuide;
use rail_base::{CompNo, LinkNo, NoMemory, TripNo};
use std::alloc::Global;
use std::mem;

/// How many labels are kept at most.
pub const WIDTH: usize = 16;
/// What a violation counts in the order of candidates.
const VIOLATION: i64 = 1_000_000;

/// Which clusters a move frees, how many labels it keeps, and how it tells them apart.
#[derive(Clone, Copy)]
pub struct Freedom<'a> {
    /// For each cluster whether it is freed.
    pub freed: &'a [bool],
    /// How many labels are kept.
    pub width: usize,
    /// Whether labels are told apart by their ends and by the lists that were given and taken, too.
    pub by_lists: bool,
}

/// A link that was set, and the one before it.
#[derive(Clone, Copy)]
struct Choice {
    before: Option<usize>,
    link: LinkNo,
    edge: usize,
}

/// The room in which moves are made.
#[derive(Drop)]
pub struct Beam {
    labels: Vec<Label>,
    next: Vec<Label>,
    count: usize,
    kept: Kept,
    choices: Vec<Choice>,
    chosen: usize,
    order: Vec<usize>,
    reaches: Vec<Reaches>,
    later: Vec<Later>,
}

/// What the candidates of an event are made of.
#[derive(Drop)]
struct Pass<'a> {
    network: &'a Network,
    guide: &'a PriceGuide,
    event: &'a Event,
    by_lists: bool,
}

/// What the candidates of a label share.
#[derive(Drop)]
struct Origin<'a> {
    label: &'a Label,
    parent: usize,
    lows: Lows,
}

impl Beam {
    /// The room for moves of a day. The error is want of memory.
    pub fn new(alloc: Global, network: &Network) -> Result<Beam, NoMemory> {
        let events = network.events.len();
        let none = Choice {
            before: None,
            link: LinkNo(0),
            edge: 0,
        };
        Ok(Beam {
            labels: labels_of(alloc, network)?,
            next: labels_of(alloc, network)?,
            count: 0,
            kept: Kept::new(alloc, WIDTH)?,
            choices: vec![in alloc; none; events.saturating_mul(WIDTH)]?,
            chosen: 0,
            order: vec![in alloc; 0; events]?,
            reaches: vec![in alloc; NO_REACHES; events]?,
            later: vec![in alloc; UNTOUCHED; network.places.len()]?,
        })
    }

    /// Frees clusters of a plan and builds them anew under prices, and tells whether there is a way. The plan that
    /// comes of it stands in `after`, which is of no meaning where there is none.
    pub fn rebuild(
        &mut self,
        network: &Network,
        guide: &PriceGuide,
        plan: &Plan,
        freedom: Freedom<'_>,
        after: &mut Plan,
    ) -> bool {
        let events = self.choose_events(network, freedom.freed);
        after.copy_from(plan);
        self.take_out(network, events, after);
        self.begin(after);
        for place in 0..events.min(self.order.len()) {
            let number = self.order.get(place).copied().unwrap_or(usize::MAX);
            let Some(event) = network.events.get(number) else {
                return false;
            };
            let reaches = match self.reaches.get(place) {
                Some(reaches) => *reaches,
                None => NO_REACHES,
            };
            let pass = Pass {
                network,
                guide,
                event,
                by_lists: freedom.by_lists,
            };
            self.offer_all(&pass, &reaches, freedom.width);
            if self.kept.len() == 0 {
                return false;
            }
            self.go_on(network, event);
        }
        self.finish(network, after)
    }

    /// Finds the events of the freed clusters with their reaches, and tells how many they are.
    fn choose_events(&mut self, network: &Network, freed: &[bool]) -> usize {
        let mut count: usize = 0;
        for place in 0..network.events.len() {
            let cluster = network.events[place].cluster;
            if freed.get(cluster).copied().unwrap_or(false) && count < self.order.len() {
                self.order[count] = place;
                count = count.saturating_add(1);
            }
        }
        for station in 0..self.later.len() {
            self.later[station] = UNTOUCHED;
        }
        for place in (0..count.min(self.order.len()).min(self.reaches.len())).rev() {
            if let Some(event) = network.events.get(self.order[place]) {
                self.reaches[place] = reaches_of(network, event, &self.later);
                note(event, &mut self.later);
            }
        }
        count
    }

    /// Takes what the events set out of a plan's cost and counts.
    fn take_out(&self, network: &Network, events: usize, plan: &mut Plan) {
        for place in 0..events.min(self.order.len()) {
            let Some(event) = network.events.get(self.order[place]) else {
                continue;
            };
            match event.kind {
                EventKind::Start(trip) => plan.add_trip(network, trip, -1),
                EventKind::Link(number) => {
                    plan.add_link(network, number, -1);
                    if let Some(link) = network.link(number) {
                        plan.add_trip(network, link.departing, -1);
                        if let Some(second) = link.second_departing {
                            plan.add_trip(network, second, -1);
                        }
                    }
                }
            }
        }
    }

    /// Begins with one label, of what is left of a plan.
    fn begin(&mut self, plan: &Plan) {
        self.chosen = 0;
        self.count = self.labels.len().min(1);
        if self.labels.len() > 0 {
            self.labels[0].begin(plan);
        }
    }

    /// Keeps the best candidates of all labels.
    fn offer_all(&mut self, pass: &Pass<'_>, reaches: &Reaches, width: usize) {
        self.kept.begin(width);
        for parent in 0..self.count.min(self.labels.len()) {
            let Some(label) = self.labels.get(parent) else {
                continue;
            };
            let origin = Origin {
                label,
                parent,
                lows: Lows::new(pass.network, pass.event, reaches, &label.counts),
            };
            match pass.event.kind {
                EventKind::Start(trip) => offer_starts(pass, &origin, trip, &mut self.kept),
                EventKind::Link(number) => offer_edges(pass, &origin, number, &mut self.kept),
            }
        }
    }

    /// Makes the labels of the kept candidates.
    fn go_on(&mut self, network: &Network, event: &Event) {
        for place in 0..self.kept.len() {
            let candidate = self.kept.at(place);
            if place < self.next.len() && candidate.parent < self.labels.len() {
                self.next[place].copy_from(&self.labels[candidate.parent]);
                self.next[place].score = candidate.score;
                self.next[place].violations = candidate.violations;
                match event.kind {
                    EventKind::Start(trip) => self.next[place].start(
                        network,
                        event,
                        trip,
                        candidate.comp,
                    ),
                    EventKind::Link(number) => {
                        self.next[place].follow(network, event, number, candidate.edge);
                        self.note_choice(place, number, candidate.edge);
                    }
                }
            }
        }
        self.count = self.kept.len().min(self.next.len());
        mem::swap(&mut self.labels, &mut self.next);
    }

    /// Notes the link that a label of the next event has set.
    fn note_choice(&mut self, place: usize, link: LinkNo, edge: usize) {
        if self.chosen < self.choices.len() && place < self.next.len() {
            self.choices[self.chosen] = Choice {
                before: self.next[place].step,
                link,
                edge,
            };
            self.next[place].step = Some(self.chosen);
            self.chosen += 1;
        }
    }

    /// Puts the best label, whole, in place of what is left of the plan.
    fn finish(&self, network: &Network, after: &mut Plan) -> bool {
        let mut found = None;
        let mut least: (i64, i64) = (0, 0);
        for place in 0..self.count.min(self.labels.len()) {
            let label = &self.labels[place];
            let yards = label.counts.violations(network);
            let violations = yards.saturating_add(label.missed.saturating_mul(MISSED));
            let is_less = violations < least.0 || (violations == least.0 && label.cost < least.1);
            if found.is_none() || is_less {
                found = Some(place);
                least = (violations, label.cost);
            }
        }
        let Some(place) = found else {
            return false;
        };
        if place < self.labels.len() {
            self.put(&self.labels[place], after);
        }
        after.violations = least.0;
        true
    }

    /// Puts a label into a plan.
    fn put(&self, label: &Label, after: &mut Plan) {
        after.cost = label.cost;
        after.missed = label.missed;
        if after.picks.len() == label.picks.len() {
            after.picks.copy_from_slice(&label.picks);
        }
        after.counts.copy_from(&label.counts);
        let mut step = label.step;
        for _ in 0..self.choices.len() {
            let Some(place) = step else {
                break;
            };
            let Some(choice) = self.choices.get(place) else {
                break;
            };
            if choice.link.place() < after.edges.len() {
                after.edges[choice.link.place()] = choice.edge;
            }
            step = choice.before;
        }
    }
}

/// Room for as many labels as are kept at most.
fn labels_of(alloc: Global, network: &Network) -> Result<Vec<Label>, NoMemory> {
    let mut labels = Vec::new(alloc);
    for _ in 0..WIDTH {
        labels.push(Label::new(alloc, network)?)?;
    }
    Ok(labels)
}

/// Offers each composition of a trip that starts.
fn offer_starts(pass: &Pass<'_>, origin: &Origin<'_>, trip: TripNo, kept: &mut Kept) {
    let Some(least) = pass.guide.least(trip) else {
        return;
    };
    for comp in 0..pass.network.comps {
        let comp = CompNo(comp);
        if let Some(cell) = pass.guide.cell(trip, comp) {
            let units = pass.network.units(comp);
            let moved = Moved {
                given: NO_UNITS,
                taken: units,
                first: units,
                second: NO_UNITS,
            };
            let mut candidate = candidate_of(origin, comp, cell.saturating_sub(least));
            if !kept.may_take(&candidate) {
                continue;
            }
            add_violations(&mut candidate, origin.lows.missing(&moved));
            if kept.may_take(&candidate) {
                candidate.key = key_of(
                    pass,
                    origin.label,
                    origin.label.under_way.wrapping_add(mark(trip, comp)),
                    0,
                );
                kept.offer(candidate);
            }
        }
    }
}

/// Offers each edge of a link from the composition that a label has for the first arriving trip.
fn offer_edges(pass: &Pass<'_>, origin: &Origin<'_>, number: LinkNo, kept: &mut Kept) {
    let Some(link) = pass.network.link(number) else {
        return;
    };
    let from = origin.label.pick(link.arriving);
    let rest = pass.guide.rest(link.arriving, from);
    let range = pass.network.edges_from(number, from);
    let part = match link.second_arriving {
        Some(second) => Some(origin.label.pick(second)),
        None => None,
    };
    let is_met = part.is_none() || is_some_met(pass, &link, range.begin, range.end, part);
    for place in range.begin..range.end {
        if let Some(edge) = pass.network.edge(place)
            && (part.is_none() || !is_met || edge.part == part)
        {
            let missed = if is_met { 0 } else { MISSED };
            offer_edge(
                pass,
                origin,
                &link,
                &edge,
                Offer {
                    place,
                    rest,
                    missed,
                },
                kept,
            );
        }
    }
}

/// Whether some edge of a join has this part and leads on.
fn is_some_met(
    pass: &Pass<'_>,
    link: &LinkRow,
    begin: usize,
    end: usize,
    part: Option<CompNo>,
) -> bool {
    for place in begin..end {
        if let Some(edge) = pass.network.edge(place)
            && edge.part == part
            && pass.guide.cell(link.departing, edge.to).is_some()
        {
            return true;
        }
    }
    false
}

/// What an edge is offered with.
#[derive(Clone, Copy)]
struct Offer {
    /// The place of the edge.
    place: usize,
    /// The price of the best way on from the composition that it goes from.
    rest: i64,
    /// The violations of a part that the second arriving trip has not.
    missed: i64,
}

/// Offers an edge, where its departing trips have ways on.
fn offer_edge(
    pass: &Pass<'_>,
    origin: &Origin<'_>,
    link: &LinkRow,
    edge: &EdgeRow,
    offer: Offer,
    kept: &mut Kept,
) {
    let Some(score) = reduced_cost(pass, link, edge, offer) else {
        return;
    };
    let mut candidate = candidate_of(origin, edge.to, score);
    candidate.edge = offer.place;
    add_violations(&mut candidate, offer.missed);
    if !kept.may_take(&candidate) {
        return;
    }
    let second = if link.second_departing.is_some() {
        edge.part
    } else {
        None
    };
    let moved = Moved {
        given: pass.network.units_in(edge.given),
        taken: pass.network.units_in(edge.taken),
        first: pass.network.units(edge.to),
        second: pass.network.units_in(second),
    };
    add_violations(&mut candidate, origin.lows.missing(&moved));
    if kept.may_take(&candidate) {
        candidate.key = key_of_edge(pass, origin.label, link, edge);
        kept.offer(candidate);
    }
}

/// What an edge adds to the reduced cost of what is set; nothing where a departing trip has no way on.
fn reduced_cost(pass: &Pass<'_>, link: &LinkRow, edge: &EdgeRow, offer: Offer) -> Option<i64> {
    let price = pass.guide.edge(offer.place)?;
    let cell = pass.guide.cell(link.departing, edge.to)?;
    let score = price.saturating_add(cell).saturating_sub(offer.rest);
    let Some(second) = link.second_departing else {
        return Some(score);
    };
    let part = edge.part?;
    let cell = pass.guide.cell(second, part)?;
    let least = pass.guide.least(second)?;
    Some(score.saturating_add(cell).saturating_sub(least))
}

/// A candidate of a label, before its violations and its key are known.
fn candidate_of(origin: &Origin<'_>, comp: CompNo, more: i64) -> Candidate {
    let score = origin.label.score.saturating_add(more);
    Candidate {
        total: score.saturating_add(origin.label.violations.saturating_mul(VIOLATION)),
        score,
        violations: origin.label.violations,
        parent: origin.parent,
        comp,
        edge: 0,
        key: 0,
    }
}

/// Adds violations to a candidate.
fn add_violations(candidate: &mut Candidate, more: i64) {
    candidate.violations = candidate.violations.saturating_add(more);
    candidate.total = candidate
        .score
        .saturating_add(candidate.violations.saturating_mul(VIOLATION));
}

/// The key of a label that goes on by an edge.
fn key_of_edge(pass: &Pass<'_>, label: &Label, link: &LinkRow, edge: &EdgeRow) -> u64 {
    let mut under_way = label
        .under_way
        .wrapping_sub(mark(link.arriving, label.pick(link.arriving)));
    if let Some(second) = link.second_arriving {
        under_way = under_way.wrapping_sub(mark(second, label.pick(second)));
    }
    under_way = under_way.wrapping_add(mark(link.departing, edge.to));
    if let Some(second) = link.second_departing
        && let Some(part) = edge.part
    {
        under_way = under_way.wrapping_add(mark(second, part));
    }
    key_of(
        pass,
        label,
        under_way,
        mark_of_lists(edge.given, edge.taken),
    )
}

/// The key of a label that goes on with such trips under way, and gave and took such lists.
fn key_of(pass: &Pass<'_>, label: &Label, under_way: u64, lists: u64) -> u64 {
    if !pass.by_lists {
        return under_way;
    }
    under_way
        .wrapping_add(label.ends.wrapping_mul(0x2545_f491_4f6c_dd1d))
        .wrapping_add(lists)
}
