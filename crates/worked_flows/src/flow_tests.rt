//! Largest flows through networks by hand, and through drawn ones against all cuts.

ghost use Rattle.std.specs.Prelude.{◌≡◌, ◌<◌, ◌≤◌, ◌^◌, length, IfOk};

use flow_network::{Arc, Network, Reached};
use std::alloc::Global;
use std::process::Abort;
use std::test::Fail;

/// An arc by the nodes that it leaves and comes to, and how many units may go along it.
type Row = (usize, usize, u32);

/// How many nodes a network has, of which the first is its source and the last its sink; its arcs; what the largest
/// flow brings.
const BY_HAND: &[(usize, &[Row], u64)] = &[
    (2, &[], 0),
    (2, &[(0, 1, 0)], 0),
    (2, &[(0, 1, 3), (0, 1, 4)], 7),
    (3, &[(0, 1, 5), (1, 2, 2)], 2),
    (3, &[(0, 1, 5), (2, 1, 9)], 0),
    (3, &[(0, 1, 400), (0, 1, 1), (1, 2, 4_294_967_295)], 401),
    // The first way found goes along the middle arc, and the second one gives it back.
    (
        4,
        &[(0, 1, 1), (1, 2, 1), (2, 3, 1), (0, 2, 1), (1, 3, 1)],
        2,
    ),
    // A ring that leads nowhere.
    (
        5,
        &[(0, 1, 2), (1, 2, 9), (2, 3, 9), (3, 1, 9), (3, 4, 1)],
        1,
    ),
    // An arc that leads back to its own node, and arcs out of the sink and into it.
    (
        4,
        &[(0, 1, 3), (1, 1, 7), (1, 3, 2), (3, 2, 9), (2, 3, 1)],
        2,
    ),
];

/// The network of these arcs; those of other nodes are left out, and those that come to the source.
fn network_of(alloc: Global, nodes: usize, rows: &[Row]) -> Result<Network, Fail>
    requires some { 1 < nodes }
    requires few { nodes < 2 ^ 32 }
    ensures { IfOk result (λ network. network.nodes ≡ nodes) }
{
    let mut network = Network::new(alloc, nodes, 0, nodes - 1);
    for (from, to, capacity) in rows {
        if *from < nodes && *to < nodes && *to > 0 {
            network.add(*from, *to, *capacity)?;
        }
    }
    Ok(network)
}

/// How many units leave the source.
fn brought(arcs: &[Arc]) -> u64 {
    let mut units = 0u64;
    for arc in arcs {
        if arc.from == 0 {
            units = units.saturating_add(u64::from(arc.flow));
        }
    }
    units
}

/// Whether a node is in the set of this number.
fn is_in(set: u32, node: usize) -> bool {
    node < 32 && (set >> node) & 1 == 1
}

/// How many units may go from the nodes of a set to the others.
fn capacity_out(arcs: &[Arc], set: u32) -> u64 {
    let mut units = 0u64;
    for arc in arcs {
        if is_in(set, arc.from) && !is_in(set, arc.to) {
            units = units.saturating_add(u64::from(arc.capacity));
        }
    }
    units
}

/// The least that may go from a set with the source to the others with the sink, of all sets.
fn least_cut(arcs: &[Arc], nodes: usize) -> u64 {
    let mut least = u64::MAX;
    for set in 0..64u32 {
        if is_in(set, 0) && nodes > 0 && !is_in(set, nodes - 1) {
            least = least.min(capacity_out(arcs, set));
        }
    }
    least
}

/// The number of the set of the nodes that are reached, of the first 32.
fn set_of(reached: &Reached, nodes: usize) -> u32
    requires { nodes ≤ length reached.now }
{
    let mut set = 0u32;
    for node in 0..nodes {
        if node < 32 && reached.has(node) {
            set |= 1u32 << node;
        }
    }
    set
}

/// Fills a network of so many nodes, and asserts that as many units are brought as are wanted, and that as many may go
/// from the nodes that are reached to the others, of which the sink is one.
fn expect_filled(
    rt: &impl Abort,
    alloc: Global,
    mut network: Network,
    nodes: usize,
    wanted: u64,
) -> Result<(), Fail>
    requires some { 1 < nodes }
    requires nodes { network.nodes ≡ nodes }
{
    let reached = network.fill(alloc)?;
    let set = set_of(&reached, nodes);
    assert_eq!(rt; brought(network.arcs()), wanted);
    assert_eq!(rt; capacity_out(network.arcs(), set), wanted);
    assert!(rt; !reached.has(nodes - 1));
    Ok(())
}

#[test]
fn flows_by_hand(rt: HostRuntime) -> Result<(), Fail> {
    for (nodes, rows, wanted) in BY_HAND {
        if *nodes > 1 && *nodes < 32 {
            let network = network_of(rt.alloc(), *nodes, rows)?;
            expect_filled(&rt, rt.alloc(), network, *nodes, *wanted)?;
        }
    }
    Ok(())
}

/// A number below a bound by chance, the same ones each time.
fn draw(state: &mut u32, bound: u32) -> u32
    requires { 0 < bound }
    ensures { result < bound }
{
    *state = state.wrapping_mul(1_664_525).wrapping_add(1_013_904_223);
    (*state >> 8) % bound
}

/// So many arcs between six nodes by chance.
fn drawn_rows(alloc: Global, state: &mut u32, arcs: u32) -> Result<Vec<Row>, Fail> {
    let mut rows: Vec<Row> = Vec::new(alloc);
    for _arc in 0..arcs {
        let from = draw(state, 6) as usize;
        let to = draw(state, 6) as usize;
        rows.push((from, to, draw(state, 5)))?;
    }
    Ok(rows)
}

#[test]
fn drawn_flows_against_all_cuts(rt: HostRuntime) -> Result<(), Fail> {
    let mut state = 1u32;
    for _network in 0..400u32 {
        let arcs = draw(&mut state, 16);
        let rows = drawn_rows(rt.alloc(), &mut state, arcs)?;
        let network = network_of(rt.alloc(), 6, &rows)?;
        let least = least_cut(network.arcs(), 6);
        expect_filled(&rt, rt.alloc(), network, 6, least)?;
    }
    Ok(())
}
