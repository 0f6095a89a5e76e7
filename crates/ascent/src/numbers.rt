//! Entries of lists that may be asked for at any place, and sums that stay within 64 bits.

/// The entry at a place, and 0 where there is none.
pub(crate) fn entry(items: &[i64], place: usize) -> i64 {
    if place < items.len() { items[place] } else { 0 }
}

/// Changes the entry at a place, where there is one.
pub(crate) fn put(items: &mut [i64], place: usize, value: i64) {
    if place < items.len() {
        items[place] = value;
    }
}

/// Sets each entry to 0.
pub(crate) fn clear(items: &mut [i64]) {
    for place in 0..items.len() {
        items[place] = 0;
    }
}

/// Takes over the entries of another list, where it has as many.
pub(crate) fn copy(items: &mut [i64], from: &[i64]) {
    if items.len() == from.len() {
        items.copy_from_slice(from);
    }
}
