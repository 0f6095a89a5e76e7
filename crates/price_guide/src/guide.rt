//! A guide: what compositions and edges are priced, and what the best way on from each composition is priced.

use rail_base::{CompNo, NoMemory, TripNo};
use std::alloc::Global;

/// Prices by trip and composition, and by edge. There is none where a composition may not run on a trip or an edge may
/// not be taken. Each may be asked for at any number, and there is none at one that is not the day's.
#[derive(Drop)]
pub struct PriceGuide {
    comps: usize,
    cells: Vec<Option<i64>>,
    own: Vec<Option<i64>>,
    least: Vec<Option<i64>>,
    edges: Vec<Option<i64>>,
}

impl PriceGuide {
    /// No prices, for so many trips, compositions and edges. The error is want of memory.
    pub fn new(
        alloc: Global,
        trips: usize,
        comps: usize,
        edges: usize,
    ) -> Result<PriceGuide, NoMemory> {
        let cells = trips.saturating_mul(comps);
        Ok(PriceGuide {
            comps,
            cells: vec![in alloc; None; cells]?,
            own: vec![in alloc; None; cells]?,
            least: vec![in alloc; None; trips]?,
            edges: vec![in alloc; None; edges]?,
        })
    }

    /// The place of a trip and a composition, which is past all others where there is no such composition.
    fn place(&self, trip: TripNo, comp: CompNo) -> usize {
        if comp.place() >= self.comps {
            return usize::MAX;
        }
        trip.place()
            .saturating_mul(self.comps)
            .saturating_add(comp.place())
    }

    /// The least price of a trip with a composition and of all that follows it in its chain.
    pub fn cell(&self, trip: TripNo, comp: CompNo) -> Option<i64> {
        price_at(&self.cells, self.place(trip, comp))
    }

    /// The least of the cells of a trip.
    pub fn least(&self, trip: TripNo) -> Option<i64> {
        price_at(&self.least, trip.place())
    }

    /// The price of a trip with a composition.
    pub fn own(&self, trip: TripNo, comp: CompNo) -> Option<i64> {
        price_at(&self.own, self.place(trip, comp))
    }

    /// The least price of all that follows a trip with a composition in its chain; 0 where there is no way on.
    pub fn rest(&self, trip: TripNo, comp: CompNo) -> i64 {
        match (self.cell(trip, comp), self.own(trip, comp)) {
            (Some(cell), Some(own)) => cell.saturating_sub(own),
            _ => 0,
        }
    }

    /// The price of an edge, by its place among the edges of all links.
    pub fn edge(&self, place: usize) -> Option<i64> {
        price_at(&self.edges, place)
    }

    /// Puts the cell of a trip and a composition.
    pub fn put_cell(&mut self, trip: TripNo, comp: CompNo, price: Option<i64>) {
        let place = self.place(trip, comp);
        put_at(&mut self.cells, place, price);
    }

    /// Puts the price of a trip with a composition.
    pub fn put_own(&mut self, trip: TripNo, comp: CompNo, price: Option<i64>) {
        let place = self.place(trip, comp);
        put_at(&mut self.own, place, price);
    }

    /// Puts the price of an edge.
    pub fn put_edge(&mut self, place: usize, price: Option<i64>) {
        put_at(&mut self.edges, place, price);
    }

    /// Finds the least cell of each trip.
    pub fn find_least(&mut self) {
        for trip in 0..self.least.len() {
            let begin = trip.saturating_mul(self.comps);
            let end = begin.saturating_add(self.comps).min(self.cells.len());
            let mut least = None;
            for place in begin..end {
                least = lower(least, self.cells[place]);
            }
            self.least[trip] = least;
        }
    }
}

/// The price at a place.
fn price_at(prices: &[Option<i64>], place: usize) -> Option<i64> {
    if place < prices.len() {
        prices[place]
    } else {
        None
    }
}

/// Puts a price at a place, where there is one.
fn put_at(prices: &mut [Option<i64>], place: usize, price: Option<i64>) {
    if place < prices.len() {
        prices[place] = price;
    }
}

/// The lower of two prices, where there are two.
fn lower(price: Option<i64>, other: Option<i64>) -> Option<i64> {
    match (price, other) {
        (Some(price), Some(other)) => Some(price.min(other)),
        (Some(price), None) => Some(price),
        (None, other) => other,
    }
}
