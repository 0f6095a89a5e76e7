//! Whole multipliers of scaled ones.
//!
//! Prices are rounded, and not multipliers: a price at a minute is the sum of the multipliers from there on, so that
//! its error is half a unit at most, however many minutes there are.

use crate::layout::{Layout, YardIndices};
use crate::numbers::{clear, entry, put};
use rail_base::limits::{MAX_ENTRIES, MAX_MULTIPLIER};

/// How many binary digits of scaled multipliers stand behind the point.
pub(crate) const SHIFT: u32 = 8;
/// What a scaled multiplier of 1 is.
pub(crate) const ONE: i64 = 256;
/// The size that no whole multiplier goes past.
const MOST: i64 = MAX_MULTIPLIER as i64;

/// A scaled number rounded to a whole one, halves up.
fn rounded(scaled: i64) -> i64 {
    scaled.saturating_add(ONE / 2) >> SHIFT
}

/// A whole multiplier kept within the most that one may be.
fn kept(value: i64) -> i64 {
    value.clamp(-MOST, MOST)
}

/// Puts the whole multipliers of scaled ones in place of what was there: at most 1,000 that are not 0.
pub(crate) fn put_whole(layout: &Layout, scaled: &[i64], whole: &mut [i64]) {
    clear(whole);
    for place in 0..layout.yards.len() {
        let yard = layout.yards[place];
        round_yard(yard, scaled, whole);
        merge_yard(layout, yard, whole);
    }
    for index in layout.parts_from..layout.indices.min(whole.len()) {
        put(whole, index, kept(rounded(entry(scaled, index))));
    }
    drop_smallest(layout, whole);
}

/// Rounds the prices of a station and type, from the last minute to the first.
fn round_yard(yard: YardIndices, scaled: &[i64], whole: &mut [i64]) {
    let mut sum = entry(scaled, yard.end);
    let mut before = rounded(sum);
    put(whole, yard.end, kept(before));
    for place in (0..yard.places).rev() {
        let index = yard.first.saturating_add(place);
        sum = sum.saturating_add(entry(scaled, index));
        let now = rounded(sum);
        put(whole, index, kept(now.saturating_sub(before)));
        before = now;
    }
}

/// Adds the multiplier of each minute after which no unit may become ready up to the next one to that of the next one,
/// and at the last to that of the station: the count cannot be lower there, so that no value falls.
fn merge_yard(layout: &Layout, yard: YardIndices, whole: &mut [i64]) {
    for place in 0..yard.places {
        let index = yard.first.saturating_add(place);
        if index < layout.may_rise.len() && !layout.may_rise[index] {
            let next = if place + 1 < yard.places {
                index.saturating_add(1)
            } else {
                yard.end
            };
            merge(whole, index, next);
        }
    }
}

/// Adds a whole multiplier to another one, and sets it to 0.
fn merge(whole: &mut [i64], from: usize, to: usize) {
    let value = entry(whole, to).saturating_add(entry(whole, from));
    put(whole, to, kept(value));
    put(whole, from, 0);
}

/// Takes the smallest multipliers of minutes and hand-overs out until no more than 1,000 are left. That of a minute is
/// added to the nearest one at an earlier minute of its station and type, if there is one.
fn drop_smallest(layout: &Layout, whole: &mut [i64]) {
    let mut left = whole.iter().filter(|value| **value != 0).count();
    for _ in 0..whole.len() {
        if left <= MAX_ENTRIES {
            break;
        }
        let Some(index) = smallest(layout, whole) else {
            break;
        };
        if let Some(earlier) = earlier_in_yard(layout, whole, index) {
            merge(whole, index, earlier);
        }
        put(whole, index, 0);
        left -= 1;
    }
}

/// The first of the multipliers of minutes and hand-overs that are least in size, of those that are not 0.
fn smallest(layout: &Layout, whole: &[i64]) -> Option<usize> {
    let mut found = None;
    let mut least = u64::MAX;
    for index in 0..whole.len() {
        let size = whole[index].unsigned_abs();
        if size != 0 && size < least && (index < layout.free_from || index >= layout.parts_from) {
            least = size;
            found = Some(index);
        }
    }
    found
}

/// The nearest earlier minute of the same station and type whose multiplier is not 0.
fn earlier_in_yard(layout: &Layout, whole: &[i64], index: usize) -> Option<usize> {
    if index >= layout.yard_of.len() {
        return None;
    }
    let yard = layout.yard_of[index];
    if yard >= layout.yards.len() {
        return None;
    }
    let first = layout.yards[yard].first;
    for place in (first..index).rev() {
        if entry(whole, place) != 0 {
            return Some(place);
        }
    }
    None
}
