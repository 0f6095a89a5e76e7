//! Unit types, compositions, and the catalogue of the compositions that fit a platform.
#![tactic(auto)]

pub mod catalogue;
pub mod composition;
pub mod types;

pub use catalogue::{Catalogue, CatalogueRefusal};
pub use composition::Composition;
pub use types::{UnitType, UnitTypes};
