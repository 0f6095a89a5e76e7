//! Compositions, and catalogues whose sizes were counted by hand.

ghost use Rattle.std.specs.Prelude.{◌≡◌, ◌≤◌, IsTrue, IfOk, true, length};
ghost use Rattle.rail_base.specs.Names.{is_name};
ghost use Rattle.compositions.specs.Composition.{are_types};
ghost use Rattle.compositions.specs.UnitTypes.{is_within_limits};

use compositions::{Catalogue, CatalogueRefusal, Composition, UnitType, UnitTypes};
use rail_base::limits::MAX_METRES;
use rail_base::{CompNo, Name, NoMemory, TypeNo};
use std::alloc::{AllocError, Global};
use std::process::Abort;
use std::test::Fail;

/// A type of so many metres in the family `regional`.
#[tactic(auto, unfolding(rail_base::specs::Names::is_name))]
fn regional(alloc: Global, name: &str, metres: u32) -> Result<UnitType, NoMemory>
    requires name { IsTrue (is_name name.now) }
    requires some { 1 ≤ metres }
    requires few { metres ≤ MAX_METRES }
    ensures { IfOk result (λ t. is_within_limits t ≡ true) }
{
    Ok(UnitType {
        name: Name::copy(alloc, name)?,
        carriages: 3,
        seats: 200,
        metres,
        family: Name::copy(alloc, "regional")?,
        first: 20,
    })
}

/// Type 0 with 80 metres and type 1 with 60 metres.
#[tactic(auto, unfolding(rail_base::specs::Names::is_name))]
fn two_types(alloc: Global) -> Result<UnitTypes, NoMemory>
    ensures { IfOk result (λ types. length types ≡ 2) }
{
    let mut types = Vec::new(alloc);
    types.push(regional(alloc, "A", 80)?)?;
    types.push(regional(alloc, "B", 60)?)?;
    Ok(UnitTypes::new(types))
}

/// Three types of 50 metres.
#[tactic(auto, unfolding(rail_base::specs::Names::is_name))]
fn three_types(alloc: Global) -> Result<UnitTypes, NoMemory> {
    let mut types = Vec::new(alloc);
    types.push(regional(alloc, "A", 50)?)?;
    types.push(regional(alloc, "B", 50)?)?;
    types.push(regional(alloc, "C", 50)?)?;
    Ok(UnitTypes::new(types))
}

/// Whether a composition is a unit of type 0 and one of type 1 behind it, in each way to look at it.
fn is_pair(pair: &Composition) -> bool {
    pair.len() == 2
        && pair.at(1) == TypeNo(1)
        && pair.count(TypeNo(0)) == 1
        && pair.reversed().at(0) == TypeNo(1)
        && pair.front(1).at(0) == TypeNo(0)
        && pair.rear(1).at(0) == TypeNo(1)
        && pair.copied().is(pair)
}

/// Whether such a pair and its reverse are joined to four units, and these to no more.
fn is_joined(pair: &Composition) -> bool {
    match pair.joined(&pair.reversed()) {
        Some(four) => {
            four.units() == [TypeNo(0), TypeNo(1), TypeNo(1), TypeNo(0)].as_slice()
                && four.joined(&four).is_none()
        }
        None => false,
    }
}

#[test]
fn list_operations(rt: HostRuntime) {
    let Some(pair) = Composition::of(&[TypeNo(0), TypeNo(1)]) else {
        panic!(rt; "a composition of two units");
    };
    assert!(rt; is_pair(&pair));
    assert!(rt; is_joined(&pair));
}

/// Asserts the measures of a unit of type 0 and one of type 1.
fn is_measured(rt: &impl Abort, pair: &Composition, types: &UnitTypes)
    requires { IsTrue (are_types types.now pair.now) }
{
    assert!(rt; pair.metres(types) == 140);
    assert!(rt; pair.seats(types) == 400);
    assert!(rt; pair.first_seats(types) == 40);
    assert!(rt; pair.carriages(types) == 6);
    assert!(rt; pair.one_family(types));
    assert!(rt; pair.fits(types, 140));
    assert!(rt; !pair.fits(types, 139));
}

#[test]
fn measures(rt: HostRuntime) {
    let Ok(types) = two_types(rt.alloc()) else {
        panic!(rt; "memory for two types");
    };
    let Some(pair) = Composition::of(&[TypeNo(0), TypeNo(1)]) else {
        panic!(rt; "a composition of two units");
    };
    is_measured(&rt, &pair, &types);
}

/// What is told of a catalogue: the types of each composition, and the number by which it is found.
fn told_of(alloc: Global, catalogue: &Catalogue) -> Result<String, AllocError> {
    let mut text = String::new(alloc);
    for number in 0..catalogue.len() {
        let composition = catalogue.get(CompNo(number));
        for unit_type in composition.units() {
            write!(text, "{} ", unit_type.0)?;
        }
        write!(text, "{:?}\n", catalogue.find(composition))?;
    }
    Ok(text)
}

/// The catalogue of two types over a platform of 140 metres.
fn catalogue_of_two(alloc: Global) -> Result<Catalogue, Fail> {
    let types = two_types(alloc)?;
    Ok(Catalogue::build(alloc, &types, 140)?)
}

/// What is told of that catalogue.
fn told_of_two(alloc: Global) -> Result<String, Fail> {
    let catalogue = catalogue_of_two(alloc)?;
    Ok(told_of(alloc, &catalogue)?)
}

#[test]
fn catalogue_in_order(rt: HostRuntime) -> Result<(), Fail> {
    let text = told_of_two(rt.alloc())?;
    let wanted = "0 Some(CompNo(0))\n1 Some(CompNo(1))\n0 1 Some(CompNo(2))\n1 0 Some(CompNo(3))\n\
        1 1 Some(CompNo(4))\n";
    assert!(rt; text.as_str() == wanted, "{text}");
    Ok(())
}

/// Whether a catalogue has two units of type 0. Where there is no such composition, the test fails.
fn has_two(catalogue: &Catalogue) -> Result<bool, Fail> {
    match Composition::of(&[TypeNo(0), TypeNo(0)]) {
        Some(two) => Ok(catalogue.find(&two).is_some()),
        None => Err(Fail::new("a composition of two units")),
    }
}

/// Whether the catalogue of two types over a platform of 140 metres has two units of type 0, which are too long.
fn has_too_long(alloc: Global) -> Result<bool, Fail> {
    let catalogue = catalogue_of_two(alloc)?;
    has_two(&catalogue)
}

#[test]
fn catalogue_without_long_ones(rt: HostRuntime) -> Result<(), Fail> {
    assert!(rt; !has_too_long(rt.alloc())?);
    Ok(())
}

#[test]
fn most_compositions(rt: HostRuntime) {
    let Ok(types) = three_types(rt.alloc()) else {
        panic!(rt; "memory for three types");
    };
    let Ok(catalogue) = Catalogue::build(rt.alloc(), &types, 299) else {
        panic!(rt; "a catalogue of up to five units");
    };
    assert!(rt; catalogue.len() == 363);
    assert!(rt;
        matches!(
            Catalogue::build(rt.alloc(), &types, 300),
            Err(CatalogueRefusal::TooMany)
        )
    );
}
