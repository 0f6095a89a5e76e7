//! Prices of a day by trip, composition and edge, as whoever changes plans under prices reads them.
#![tactic(auto)]

pub mod guide;

pub use guide::PriceGuide;
