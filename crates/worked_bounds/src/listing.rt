//! All choices of a region one after another, by number, and the first of least value among those that are near.

ghost use Rattle.timetable.specs.Picks.{ArePicks};

use crate::changed::cost_under;
use crate::link_rule::{has, lead_on};
use crate::plain_slacks::plain_slacks;
use branch_tree::{Multipliers, Region, Weight};
use price_bound::Change;
use rail_base::{CompNo, TripNo};
use sample_days::may_run;
use std::alloc::Global;
use std::test::Fail;
use timetable::{Instance, Picks};

/// The most choices that are listed.
pub(crate) const MAX_CHOICES: u32 = 120;

/// What is asked of a day.
#[derive(Drop)]
pub(crate) struct Question<'a> {
    pub(crate) day: &'a Instance,
    pub(crate) changes: &'a [Change],
    pub(crate) region: &'a Region,
    pub(crate) multipliers: &'a Multipliers,
    pub(crate) weight: Weight,
}

/// What a list of all choices shows.
#[derive(Clone, Copy)]
pub(crate) struct Listing {
    /// The least value of a choice that is near, and the number of the first that has it.
    pub(crate) least: Option<(i128, u32)>,
    /// Whether a later one has the same value.
    pub(crate) is_tied: bool,
}

/// How many choices a region has; nothing where they are too many to be listed.
pub(crate) fn choices_of(day: &Instance, region: &Region) -> Option<u32> {
    let mut choices: u32 = 1;
    for trip in 0..region.trips() {
        choices = choices.checked_mul(size_of(day, region, TripNo(trip)))?;
    }
    if choices > MAX_CHOICES {
        return None;
    }
    Some(choices)
}

/// How many compositions a region has for a trip.
fn size_of(day: &Instance, region: &Region, trip: TripNo) -> u32 {
    let mut size: u32 = 0;
    for comp in 0..day.catalogue().len() {
        if has(day, region, trip, CompNo(comp)) {
            size = size.wrapping_add(1);
        }
    }
    size
}

/// The compositions that a region has for a trip.
#[derive(Drop)]
struct TripChoices {
    trip: TripNo,
    comps: Vec<CompNo>,
}

/// The choices of a region by number. The trips come chain by chain, each from its first trip on, and the
/// compositions of the last of them are counted on first.
#[derive(Drop)]
pub(crate) struct Choices {
    trips: Vec<TripChoices>,
}

impl Choices {
    /// The choices of a region of a day.
    pub(crate) fn of(alloc: Global, day: &Instance, region: &Region) -> Result<Choices, Fail> {
        let mut trips = Vec::new(alloc);
        for chain in 0..day.chains() {
            for trip in day.chain(chain) {
                trips.push(trip_choices(alloc, day, region, *trip)?)?;
            }
        }
        Ok(Choices { trips })
    }

    /// Gives each trip its composition in the choice of a number.
    pub(crate) fn choose(&self, number: u32, picks: &mut Picks) {
        let trips = self.trips.as_slice();
        let mut rest = number as usize;
        for behind in 0..trips.len() {
            let choices = &trips[trips.len() - 1 - behind];
            let size = choices.comps.len();
            if size > 0 && choices.trip.0 < picks.len() {
                picks.set(choices.trip, choices.comps[rest % size]);
                rest /= size;
            }
        }
    }
}

/// The compositions that a region has for a trip.
fn trip_choices(
    alloc: Global,
    day: &Instance,
    region: &Region,
    trip: TripNo,
) -> Result<TripChoices, Fail> {
    let mut comps = Vec::new(alloc);
    for comp in 0..day.catalogue().len() {
        if has(day, region, trip, CompNo(comp)) {
            comps.push(CompNo(comp))?;
        }
    }
    Ok(TripChoices { trip, comps })
}

/// Lists so many choices.
pub(crate) fn list(
    alloc: Global,
    question: &Question<'_>,
    choices: &Choices,
    count: u32,
) -> Result<Listing, Fail> {
    let mut listing = Listing {
        least: None,
        is_tied: false,
    };
    let mut picks = Picks::new(alloc, question.day.trips())?;
    for number in 0..count {
        choices.choose(number, &mut picks);
        if let Some(value) = near_value(alloc, question, &picks)? {
            listing = with(listing, value, number);
        }
    }
    Ok(listing)
}

/// The first choice of least value. Where none is near, each trip has composition 0.
pub(crate) fn first_of(
    alloc: Global,
    day: &Instance,
    choices: &Choices,
    listing: &Listing,
) -> Result<Picks, Fail> {
    let mut picks = Picks::new(alloc, day.trips())?;
    if let Some((_, number)) = listing.least {
        choices.choose(number, &mut picks);
    }
    Ok(picks)
}

/// The priced value of a choice: its cost and what changes add, if that counts, and the sum of multiplier times slack.
/// Nothing where it is not near the region.
fn near_value(alloc: Global, question: &Question<'_>, picks: &Picks) -> Result<Option<i128>, Fail> {
    let day = question.day;
    if !may_run(day, picks) || !lead_on(day, question.region, picks) {
        return Ok(None);
    }
    let slacks = plain_slacks(alloc, day, picks)?;
    let priced = priced(question.multipliers, slacks.as_slice());
    Ok(Some(weighed_cost(question, picks).wrapping_add(priced)))
}

/// What the cost of picks counts.
fn weighed_cost(question: &Question<'_>, picks: &Picks) -> i128
    requires { ArePicks question.now.day.now picks.now }
{
    match question.weight {
        Weight::Cost => cost_under(question.day, question.changes, picks),
        Weight::NoCost => 0,
    }
}

/// The sum of multiplier times slack.
fn priced(multipliers: &Multipliers, slacks: &[i64]) -> i128 {
    let mut value: i128 = 0;
    for entry in multipliers.entries() {
        let slack = slack_at(slacks, entry.index);
        value = value.wrapping_add(i128::from(entry.value).wrapping_mul(slack));
    }
    value
}

/// The slack at an index of a list.
fn slack_at(slacks: &[i64], index: u32) -> i128 {
    match slacks.get(index as usize) {
        Some(slack) => i128::from(*slack),
        None => 0,
    }
}

/// What a list shows with one more choice that is near.
fn with(listing: Listing, value: i128, number: u32) -> Listing {
    match listing.least {
        Some((least, _)) if least < value => listing,
        Some((least, _)) if least == value => Listing {
            least: listing.least,
            is_tied: true,
        },
        _ => Listing {
            least: Some((value, number)),
            is_tied: false,
        },
    }
}
