//! Regions and cuts, multipliers, slacks and trees.

use branch_tree::{Cut, Entry, Mark, Multipliers, Node, Region, Side, Slacks, Tree};
use compositions::Catalogue;
use rail_base::{CompNo, NodeNo, TripNo, TypeNo};
use sample_days::{TWO_TYPES, Texts, day_of};
use std::alloc::{AllocError, Global};
use std::test::Fail;
use timetable::Instance;

/// Writes which of the first five compositions a trip of a region has, where there is such a trip.
fn write_comps(text: &mut String, region: &Region, trip: TripNo) -> Result<(), AllocError> {
    if trip.0 < region.trips() {
        for comp in 0..5 {
            if region.has(trip, CompNo(comp)) {
                write!(text, " {comp}")?;
            }
        }
    }
    text.push_str("\n")
}

/// The mark of a cut, which keeps one side. One that is not proper fails the test.
fn cut_region(
    region: &mut Region,
    catalogue: &Catalogue,
    cut: &Cut,
    side: Side,
) -> Result<Mark, Fail> {
    if !region.is_proper(catalogue, cut) {
        return Err(Fail::new("a cut that is not proper"));
    }
    Ok(region.cut(catalogue, cut, side))
}

/// Puts the set of a mark back, where its trip is there.
fn restore(region: &mut Region, mark: Mark) {
    if mark.trip.0 < region.trips() {
        region.put_back(mark);
    }
}

/// Writes the compositions of the first trip on the left of a cut, and puts back what the region had.
fn write_left(
    text: &mut String,
    region: &mut Region,
    catalogue: &Catalogue,
    cut: &Cut,
) -> Result<(), Fail> {
    let mark = cut_region(region, catalogue, cut, Side::Left)?;
    write_comps(text, region, TripNo(0))?;
    restore(region, mark);
    Ok(())
}

/// Writes the compositions of both trips on the right of a cut.
fn write_right(
    text: &mut String,
    region: &mut Region,
    catalogue: &Catalogue,
    cut: &Cut,
) -> Result<(), Fail> {
    let _mark = cut_region(region, catalogue, cut, Side::Right)?;
    write_comps(text, region, TripNo(0))?;
    Ok(write_comps(text, region, TripNo(1))?)
}

/// The compositions of the first trip on the left of a cut, and of both trips on its right.
fn sides_in(
    alloc: Global,
    region: &mut Region,
    catalogue: &Catalogue,
    cut: &Cut,
) -> Result<String, Fail> {
    let mut text = String::new(alloc);
    write_left(&mut text, region, catalogue, cut)?;
    write_right(&mut text, region, catalogue, cut)?;
    Ok(text)
}

/// The compositions of the first trip on the left of a cut of the day's root, and of both trips on its right.
fn sides_of(alloc: Global, day: &Instance, cut: &Cut) -> Result<String, Fail> {
    let mut region = Region::root(alloc, day)?.copy(alloc)?;
    sides_in(alloc, &mut region, day.catalogue(), cut)
}

/// What both sides of a cut of the root of a day with these tables have.
fn sides_told(alloc: Global, texts: &Texts<'_>, cut: &Cut) -> Result<String, Fail> {
    let day = day_of(alloc, texts)?;
    sides_of(alloc, &day, cut)
}

/// The day of two types, to be borrowed.
const DAY: &Texts<'static> = &TWO_TYPES;

#[test]
fn cuts_of_the_root(rt: HostRuntime) -> Result<(), Fail> {
    let cut = Cut::AtMost {
        trip: TripNo(0),
        unit_type: TypeNo(0),
        count: 0,
    };
    let text = sides_told(rt.alloc(), DAY, &cut)?;
    assert!(rt; text.as_str() == " 1 4\n 0 2 3\n 0 1 2 3 4\n", "{text}");
    Ok(())
}

/// Puts these values at these indices, one after another, and writes what each put answers.
fn write_puts(
    text: &mut String,
    multipliers: &mut Multipliers,
    puts: &[(u32, i64)],
) -> Result<(), AllocError> {
    for (index, value) in puts {
        write!(text, "{:?}\n", multipliers.put(*index, *value))?;
    }
    Ok(())
}

/// Writes the values of multipliers at the indices 2 and 3.
fn write_values(text: &mut String, multipliers: &Multipliers) -> Result<(), AllocError> {
    write!(text, "{} {}\n", multipliers.value(2), multipliers.value(3))
}

/// Writes the entries of multipliers.
fn write_entries(text: &mut String, multipliers: &Multipliers) -> Result<(), AllocError> {
    for place in 0..multipliers.len() {
        let entry = multipliers.at(place);
        write!(text, "{}: {}\n", entry.index, entry.value)?;
    }
    Ok(())
}

/// Writes whether multipliers fit so many indices, of which those from a second number on may have negative ones.
fn write_fits(
    text: &mut String,
    multipliers: &Multipliers,
    numbers: &[(u32, u32)],
) -> Result<(), AllocError> {
    for (indices, free_from) in numbers {
        write!(text, "{}\n", multipliers.fits(*indices, *free_from))?;
    }
    Ok(())
}

/// Puts values at two indices, and writes what is told of the multipliers then.
fn write_put(text: &mut String, multipliers: &mut Multipliers) -> Result<(), AllocError> {
    let puts = &[(3, 30), (2, -30), (3, 1_000_000_000_001)];
    write_puts(text, multipliers, puts)?;
    write_values(text, multipliers)?;
    write_fits(text, multipliers, &[(4, 2), (4, 3), (3, 2)])
}

/// Takes one entry out of multipliers, and writes what they have then, and what a copy from before has.
fn write_copied(
    text: &mut String,
    multipliers: &mut Multipliers,
    copy: &Multipliers,
) -> Result<(), AllocError> {
    write_puts(text, multipliers, &[(2, 0)])?;
    write_entries(text, multipliers)?;
    text.push_str("and\n")?;
    write_entries(text, copy)
}

/// Writes what is told of multipliers and of a copy of them, of which one entry is taken out then.
fn write_multipliers(
    text: &mut String,
    alloc: Global,
    multipliers: &mut Multipliers,
) -> Result<(), Fail> {
    write_put(text, multipliers)?;
    let copy = multipliers.copy(alloc)?;
    Ok(write_copied(text, multipliers, &copy)?)
}

/// What is told of multipliers and of a copy of them, of which one entry is taken out then.
fn multipliers_told(alloc: Global) -> Result<String, Fail> {
    let mut text = String::new(alloc);
    let mut multipliers = Multipliers::new(alloc)?;
    write_multipliers(&mut text, alloc, &mut multipliers)?;
    Ok(text)
}

/// What is told of them.
const MULTIPLIERS: &str =
    "Ok(())\nOk(())\nErr(TooLarge)\n-30 30\ntrue\nfalse\nfalse\nOk(())\n3: 30\nand\n2: -30\n3: 30\n";

#[test]
fn multipliers_by_index(rt: HostRuntime) -> Result<(), Fail> {
    let text = multipliers_told(rt.alloc())?;
    assert!(rt; text.as_str() == MULTIPLIERS, "{text}");
    Ok(())
}

#[test]
fn slacks_in_order(rt: HostRuntime) -> Result<(), Fail> {
    let mut slacks = Slacks::new(rt.alloc())?;
    slacks.put(Entry {
        index: 2,
        value: -1,
    });
    assert_eq!(rt; (slacks.len(), slacks.at(0).value), (1, -1));
    slacks.clear();
    assert_eq!(rt; slacks.len(), 0);
    Ok(())
}

/// A tree of one branch and two leaves.
fn tree_of(alloc: Global, cut: Cut) -> Result<Tree, Fail> {
    let mut tree = Tree::new(alloc)?;
    tree.push(Node::Branch(cut))?;
    tree.push(Node::RayLeaf {
        multipliers: Multipliers::new(alloc)?,
    })?;
    tree.push(Node::EmptyLeaf)?;
    Ok(tree)
}

/// How many branches a tree has, and the cut of each node.
fn cuts_told(alloc: Global, tree: &Tree) -> Result<String, AllocError> {
    let mut text = format!(in alloc; "{}\n", tree.branchings())?;
    for number in 0..tree.len() {
        write!(text, "{:?}\n", tree.node(NodeNo(number)).cut())?;
    }
    Ok(text)
}

#[test]
fn tree_of_one_cut(rt: HostRuntime) -> Result<(), Fail> {
    let cut = Cut::Only {
        trip: TripNo(0),
        comp: CompNo(1),
    };
    let tree = tree_of(rt.alloc(), cut)?;
    let text = cuts_told(rt.alloc(), &tree)?;
    let wanted = "1\nSome(Only { trip: TripNo(0), comp: CompNo(1) })\nNone\nNone\n";
    assert!(rt; text.as_str() == wanted, "{text}");
    Ok(())
}
