//! The network of a day: its flat tables, made once.

ghost use Rattle.std.specs.Prelude.{◌<◌, length};
ghost use Rattle.transitions.specs.Edges.{AreGraphs};

use compositions::{Catalogue, Composition};
use inventory::place_of;
use moves::Network;
use moves::clusters::Clusters;
use moves::events::{Arrival, Event, EventKind};
use moves::network::{EdgeRow, LinkRow, TripRow, Units, YardRow};
use price_guide::PriceGuide;
use rail_base::limits::MAX_TYPES;
use rail_base::{CompNo, LinkNo, Minute, NoMemory, StationNo, TripNo, TypeNo};
use std::alloc::Global;
use timetable::{Instance, Link, beyond, turned};
use transitions::{Edge, Graphs, Shunt};

/// What stands in the room for trips before they are put there.
const NO_TRIP: TripRow = TripRow {
    from: StationNo(0),
    to: StationNo(0),
    take_place: 0,
    give_place: 0,
    incoming: None,
    outgoing: None,
    cluster: 0,
};

/// What stands in the room for links before they are put there.
const NO_LINK: LinkRow = LinkRow {
    arriving: TripNo(0),
    second_arriving: None,
    departing: TripNo(0),
    second_departing: None,
    uncouples: false,
};

/// What stands in the room for edges before they are put there.
const NO_EDGE: EdgeRow = EdgeRow {
    to: CompNo(0),
    given: None,
    taken: None,
    part: None,
    cost: 0,
};

/// What stands in the room for events before they are put there.
const NO_EVENT: Event = Event {
    kind: EventKind::Start(TripNo(0)),
    cluster: 0,
    station: StationNo(0),
    give_place: 0,
    take_place: 0,
    gives: false,
    touches: false,
    first: None,
    second: None,
};

/// The network of a day with its edges, at the costs of a guide that has no multipliers. The graphs are those of the
/// day. The error is want of memory.
pub(crate) fn network_of(
    alloc: Global,
    instance: &Instance,
    graphs: &Graphs,
    guide: &PriceGuide,
) -> Result<Network, NoMemory>
    requires { AreGraphs instance.now graphs.now }
{
    let mut network = empty_network(alloc, instance);
    add_tables(alloc, &mut network, instance, guide)?;
    add_yards(&mut network, instance)?;
    make_room(alloc, &mut network, instance, graphs)?;
    add_links(&mut network, instance, graphs, guide)?;
    add_clusters(alloc, &mut network, instance)?;
    add_events(alloc, &mut network, instance)?;
    Ok(network)
}

/// The network of a day without its tables.
fn empty_network(alloc: Global, instance: &Instance) -> Network {
    Network {
        types: instance.types().len() as usize,
        comps: instance.catalogue().len(),
        clusters: 0,
        trips: Vec::new(alloc),
        links: Vec::new(alloc),
        edges: Vec::new(alloc),
        edge_begins: Vec::new(alloc),
        units: Vec::new(alloc),
        places: Vec::new(alloc),
        yards: Vec::new(alloc),
        costs: Vec::new(alloc),
        events: Vec::new(alloc),
        stations: Vec::new(alloc),
    }
}

/// Adds the trips without their clusters, the units of the compositions, and the costs. The error is want of memory.
fn add_tables(
    alloc: Global,
    network: &mut Network,
    instance: &Instance,
    guide: &PriceGuide,
) -> Result<(), NoMemory> {
    network.trips = trips_of(alloc, instance)?;
    network.units = units_of(alloc, instance)?;
    network.costs = costs_of(alloc, instance, guide)?;
    Ok(())
}

/// Makes room for the links, their edges and the events. The error is want of memory.
fn make_room(
    alloc: Global,
    network: &mut Network,
    instance: &Instance,
    graphs: &Graphs,
) -> Result<(), NoMemory>
    requires { AreGraphs instance.now graphs.now }
{
    network.links = vec![in alloc; NO_LINK; instance.links() as usize]?;
    network.edges = vec![in alloc; NO_EDGE; edge_count(instance, graphs)]?;
    network.events = vec![in alloc; NO_EVENT; event_count(instance)]?;
    Ok(())
}

/// Adds the clusters of the trips, and their stations. The error is want of memory.
fn add_clusters(alloc: Global, network: &mut Network, instance: &Instance) -> Result<(), NoMemory> {
    let clusters = clusters_of(alloc, instance)?;
    network.clusters = clusters.count;
    network.stations = vec![in alloc; 0; clusters.count]?;
    set_clusters(network, instance, &clusters);
    Ok(())
}

/// The clusters of the chains: hand-overs join those of their two trains. The error is want of memory.
fn clusters_of(alloc: Global, instance: &Instance) -> Result<Clusters, NoMemory> {
    let chain_of = chains_of_trips(alloc, instance)?;
    let mut clusters = Clusters::new(alloc, instance.chains() as usize)?;
    join_handovers(&mut clusters, instance, &chain_of);
    clusters.number();
    Ok(clusters)
}

/// The chain of each trip. The error is want of memory.
fn chains_of_trips(alloc: Global, instance: &Instance) -> Result<Vec<usize>, NoMemory> {
    let mut chain_of = vec![in alloc; 0; instance.trips() as usize]?;
    for chain in 0..instance.chains() {
        put_chain(&mut chain_of, instance.chain(chain), chain as usize);
    }
    Ok(chain_of)
}

/// Sets the chain of the trips of one.
fn put_chain(chain_of: &mut [usize], trips: &[TripNo], chain: usize) {
    for trip in trips {
        if trip.place() < chain_of.len() {
            chain_of[trip.place()] = chain;
        }
    }
}

/// Joins the clusters of the two trains of each hand-over.
fn join_handovers(clusters: &mut Clusters, instance: &Instance, chain_of: &[usize]) {
    for number in 0..instance.handovers() {
        let handover = instance.handover(number);
        if handover.link.0 < instance.links() {
            let first = instance.link(handover.link).kind.leads_from();
            let chain = chain_of.get(first.place()).copied().unwrap_or(0);
            let other = chain_of.get(handover.second.place()).copied().unwrap_or(0);
            clusters.join(chain, other);
        }
    }
}

/// The rows of the trips, without their clusters. The error is want of memory.
fn trips_of(alloc: Global, instance: &Instance) -> Result<Vec<TripRow>, NoMemory> {
    let mut rows = vec![in alloc; NO_TRIP; instance.trips() as usize]?;
    for trip in 0..instance.trips() {
        put_trip(&mut rows, TripNo(trip), trip_row(instance, TripNo(trip)));
    }
    Ok(rows)
}

/// Puts the row of a trip.
fn put_trip(rows: &mut [TripRow], trip: TripNo, row: TripRow) {
    if trip.place() < rows.len() {
        rows[trip.place()] = row;
    }
}

/// The row of a trip, without its cluster.
fn trip_row(instance: &Instance, trip: TripNo) -> TripRow
    requires { trip < length instance.now.trips }
{
    let run = instance.trip(trip);
    TripRow {
        from: run.from,
        to: run.to,
        take_place: place_of(instance.minutes(run.from), run.departure),
        give_place: place_of(instance.minutes(run.to), instance.ready_at(trip)),
        incoming: instance.incoming(trip),
        outgoing: instance.outgoing(trip),
        cluster: 0,
    }
}

/// The units of each composition by type. The error is want of memory.
fn units_of(alloc: Global, instance: &Instance) -> Result<Vec<Units>, NoMemory> {
    let mut rows = Vec::new(alloc);
    for comp in 0..instance.catalogue().len() {
        rows.push(units_of_types(instance.catalogue().get(CompNo(comp)).units()))?;
    }
    Ok(rows)
}

/// How many units of each type there are in a list.
fn units_of_types(types: &[TypeNo]) -> Units {
    let mut units = Units {
        by_type: [0; MAX_TYPES],
    };
    for unit_type in types {
        let place = unit_type.place();
        if place < MAX_TYPES {
            units.by_type[place] = units.by_type[place].saturating_add(1);
        }
    }
    units
}

/// What each trip costs with each composition, and 0 with one that may not run on it. The error is want of memory.
fn costs_of(alloc: Global, instance: &Instance, guide: &PriceGuide) -> Result<Vec<i64>, NoMemory> {
    let mut costs = Vec::new(alloc);
    for trip in 0..instance.trips() {
        for comp in 0..instance.catalogue().len() {
            costs.push(guide.own(TripNo(trip), CompNo(comp)).unwrap_or(0))?;
        }
    }
    Ok(costs)
}

/// Adds the yards of all stations, with the places of their counts. The error is want of memory.
fn add_yards(network: &mut Network, instance: &Instance) -> Result<(), NoMemory> {
    let mut first: usize = 0;
    for station in 0..instance.stations() {
        let places = instance.minutes(StationNo(station)).len();
        network.places.push(places)?;
        for unit_type in 0..instance.types().len() {
            network.yards.push(YardRow {
                first,
                start: number_of(instance.start(StationNo(station), TypeNo(unit_type))),
                wanted: number_of(instance.end(StationNo(station), TypeNo(unit_type))),
            })?;
            first = first.saturating_add(places);
        }
    }
    Ok(())
}

/// A number of units with a sign.
fn number_of(units: u32) -> i32 {
    i32::try_from(units).unwrap_or(i32::MAX)
}

/// How many edges all links have.
pub(crate) fn edge_count(instance: &Instance, graphs: &Graphs) -> usize
    requires { AreGraphs instance.now graphs.now }
{
    let mut edges: usize = 0;
    for link in 0..instance.links() {
        edges = edges.saturating_add(graphs.edges(LinkNo(link)).len());
    }
    edges
}

/// How many events there are: a start for each trip without an incoming link, and the links.
fn event_count(instance: &Instance) -> usize {
    let mut events = instance.links() as usize;
    for trip in 0..instance.trips() {
        if instance.incoming(TripNo(trip)).is_none() {
            events = events.saturating_add(1);
        }
    }
    events
}

/// Adds all links with their edges. The error is want of memory.
fn add_links(
    network: &mut Network,
    instance: &Instance,
    graphs: &Graphs,
    guide: &PriceGuide,
) -> Result<(), NoMemory>
    requires graphs { AreGraphs instance.now graphs.now }
{
    let mut begin = 0;
    for link in 0..instance.links() {
        let number = LinkNo(link);
        let edges = graphs.edges(number);
        let uncouples = put_edges(network, instance, guide, number, edges, begin);
        put_link(
            &mut network.links,
            number,
            link_row(instance.link(number), uncouples),
        );
        add_begins(network, edges, begin)?;
        begin = begin.saturating_add(edges.len());
    }
    Ok(())
}

/// Puts the row of a link.
fn put_link(rows: &mut [LinkRow], link: LinkNo, row: LinkRow) {
    if link.place() < rows.len() {
        rows[link.place()] = row;
    }
}

/// Puts the edges of a link, from a place on, and tells whether one of them gives units to the yard.
fn put_edges(
    network: &mut Network,
    instance: &Instance,
    guide: &PriceGuide,
    number: LinkNo,
    edges: &[Edge],
    begin: usize,
) -> bool
    requires { number < length instance.now.links }
{
    let link = instance.link(number);
    let mut uncouples = false;
    let mut place = begin;
    for edge in edges {
        let row = edge_row(instance, link, edge, guide.edge(place).unwrap_or(0));
        uncouples = uncouples || row.given.is_some();
        put_edge(&mut network.edges, place, row);
        place = place.saturating_add(1);
    }
    uncouples
}

/// Puts the row of an edge.
fn put_edge(rows: &mut [EdgeRow], place: usize, row: EdgeRow) {
    if place < rows.len() {
        rows[place] = row;
    }
}

/// Adds for each composition the place of the first edge of a link from there on, and for one more the place after the
/// last: the edges stand from a place on, by the composition that they go from. The error is want of memory.
fn add_begins(network: &mut Network, edges: &[Edge], begin: usize) -> Result<(), NoMemory> {
    let mut passed: usize = 0;
    for comp in 0..network.comps {
        for _ in passed..edges.len() {
            if !leads_from_before(edges, passed, comp) {
                break;
            }
            passed = passed.saturating_add(1);
        }
        network.edge_begins.push(begin.saturating_add(passed))?;
    }
    network.edge_begins.push(begin.saturating_add(edges.len()))?;
    Ok(())
}

/// Whether the edge at a place leads from a composition before another one.
fn leads_from_before(edges: &[Edge], place: usize, comp: u32) -> bool {
    match edges.get(place) {
        Some(edge) => edge.from.0 < comp,
        None => false,
    }
}

/// The row of a link.
fn link_row(link: &Link, uncouples: bool) -> LinkRow {
    LinkRow {
        arriving: link.kind.arriving().first,
        second_arriving: link.kind.arriving().second,
        departing: link.kind.departing().first,
        second_departing: link.kind.departing().second,
        uncouples,
    }
}

/// The row of an edge of a link, with its cost.
fn edge_row(instance: &Instance, link: &Link, edge: &Edge, cost: i64) -> EdgeRow {
    let catalogue = instance.catalogue();
    let (uncoupled, coupled) = shunted(edge.shunt);
    EdgeRow {
        to: edge.to,
        given: given_list(catalogue, link, edge.from, uncoupled),
        taken: taken_list(catalogue, link, edge.to, coupled),
        part: edge.part,
        cost,
    }
}

/// How many units a shunt uncouples, and how many it couples.
fn shunted(shunt: Shunt) -> (usize, usize) {
    match shunt {
        Shunt::Keep => (0, 0),
        Shunt::Uncouple { units } => (units as usize, 0),
        Shunt::Couple { units } => (0, units as usize),
        Shunt::Exchange { uncouple, couple } => (uncouple as usize, couple as usize),
    }
}

/// The list of so many units that a turn uncouples from an arriving composition.
fn given_list(catalogue: &Catalogue, link: &Link, from: CompNo, units: usize) -> Option<CompNo> {
    if units == 0 || from.0 >= catalogue.len() {
        return None;
    }
    let arriving = turned(link.reverse, catalogue.get(from).units());
    let staying = arriving.len().saturating_sub(units);
    let list = beyond(link.kind.uncoupling_end(), arriving.as_slice(), staying);
    number_of_list(catalogue, list)
}

/// The list of so many units that a turn couples to a departing composition.
fn taken_list(catalogue: &Catalogue, link: &Link, to: CompNo, units: usize) -> Option<CompNo> {
    if units == 0 || to.0 >= catalogue.len() {
        return None;
    }
    let departing = catalogue.get(to).units();
    let staying = departing.len().saturating_sub(units);
    number_of_list(
        catalogue,
        beyond(link.kind.coupling_end(), departing, staying),
    )
}

/// The number of a list in the catalogue.
fn number_of_list(catalogue: &Catalogue, list: &[TypeNo]) -> Option<CompNo> {
    let composition = Composition::of(list)?;
    catalogue.find(&composition)
}

/// Sets the cluster of all trips, and notes their stations.
fn set_clusters(network: &mut Network, instance: &Instance, clusters: &Clusters) {
    for chain in 0..instance.chains() {
        let cluster = clusters.of_chain.get(chain as usize).copied().unwrap_or(0);
        set_cluster(network, instance.chain(chain), cluster);
    }
}

/// Sets the cluster of the trips of a chain, and notes their stations.
fn set_cluster(network: &mut Network, chain: &[TripNo], cluster: usize) {
    for trip in chain {
        if trip.place() < network.trips.len() {
            network.trips[trip.place()].cluster = cluster;
            let row = network.trips[trip.place()];
            note_station(&mut network.stations, cluster, row.from);
            note_station(&mut network.stations, cluster, row.to);
        }
    }
}

/// Notes a station of a cluster.
fn note_station(stations: &mut [u64], cluster: usize, station: StationNo) {
    if cluster < stations.len() && station.0 < 64 {
        stations[cluster] |= 1u64 << station.0;
    }
}

/// Adds all events in the order of time: at each minute the starts, and then the links, by number. The error is want of
/// memory.
fn add_events(alloc: Global, network: &mut Network, instance: &Instance) -> Result<(), NoMemory> {
    let mut minutes = Vec::new(alloc);
    add_starts(network, &mut minutes, instance)?;
    add_link_events(network, &mut minutes, instance)
}

/// Adds the starts of all trips that have an event of their own. The error is want of memory.
fn add_starts(
    network: &mut Network,
    minutes: &mut Vec<Minute>,
    instance: &Instance,
) -> Result<(), NoMemory> {
    for trip in 0..instance.trips() {
        let trip = TripNo(trip);
        if let Some(row) = network.trip(trip)
            && row.incoming.is_none()
        {
            let event = start_event(network, row, trip);
            insert_event(network, minutes, instance.trip(trip).departure, event)?;
        }
    }
    Ok(())
}

/// Adds the events of all links. The error is want of memory.
fn add_link_events(
    network: &mut Network,
    minutes: &mut Vec<Minute>,
    instance: &Instance,
) -> Result<(), NoMemory> {
    for number in 0..instance.links() {
        let number = LinkNo(number);
        if let Some(link) = network.link(number)
            && let Some(row) = network.trip(link.departing)
        {
            let event = link_event(network, link, row, number);
            let minute = minute_of(instance, instance.link(number));
            insert_event(network, minutes, minute, event)?;
        }
    }
    Ok(())
}

/// Puts an event after those of its minute and of earlier ones. The error is want of memory.
fn insert_event(
    network: &mut Network,
    minutes: &mut Vec<Minute>,
    minute: Minute,
    event: Event,
) -> Result<(), NoMemory> {
    let place = minutes.iter().filter(|other| **other <= minute).count();
    let place = place.min(minutes.len());
    minutes.insert(place, minute)?;
    put_event(&mut network.events, place, event);
    Ok(())
}

/// Puts an event at a place; those from there on go one place further, and the last one goes.
fn put_event(events: &mut [Event], place: usize, event: Event) {
    if place < events.len() {
        events[place..].rotate_right(1);
        events[place] = event;
    }
}

/// The minute of a link: the departure of its departing trip, of two the earlier one.
fn minute_of(instance: &Instance, link: &Link) -> Minute {
    let departing = link.kind.departing();
    let first = departure_of(instance, departing.first);
    match departing.second {
        Some(second) => first.min(departure_of(instance, second)),
        None => first,
    }
}

/// The departure of a trip.
fn departure_of(instance: &Instance, trip: TripNo) -> Minute {
    if trip.0 < instance.trips() {
        instance.trip(trip).departure
    } else {
        Minute(0)
    }
}

/// The start of a trip.
fn start_event(network: &Network, row: TripRow, trip: TripNo) -> Event {
    Event {
        kind: EventKind::Start(trip),
        cluster: row.cluster,
        station: row.from,
        give_place: row.take_place,
        take_place: row.take_place,
        gives: false,
        touches: true,
        first: arrival_of(network, Some(trip)),
        second: None,
    }
}

/// The event of a link whose first departing trip has this row.
fn link_event(network: &Network, link: LinkRow, row: TripRow, number: LinkNo) -> Event {
    let is_turn = link.second_arriving.is_none() && link.second_departing.is_none();
    let give_place = match network.trip(link.arriving) {
        Some(arriving) if is_turn => arriving.give_place,
        _ => row.take_place,
    };
    Event {
        kind: EventKind::Link(number),
        cluster: row.cluster,
        station: row.from,
        give_place,
        take_place: row.take_place,
        gives: link.uncouples,
        touches: is_turn,
        first: arrival_of(network, Some(link.departing)),
        second: arrival_of(network, link.second_departing),
    }
}

/// The arrival of a trip from which no link leads on.
fn arrival_of(network: &Network, trip: Option<TripNo>) -> Option<Arrival> {
    let row = network.trip(trip?)?;
    if row.outgoing.is_some() {
        return None;
    }
    Some(Arrival {
        station: row.to,
        place: row.give_place,
    })
}
