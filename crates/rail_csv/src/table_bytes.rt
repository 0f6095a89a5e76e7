//! The tables of a day as bytes.

use rail_base::Bytes;

/// The bytes of the six tables of a day, as their files hold them.
#[derive(Drop)]
pub struct TableBytes {
    /// The types of train units.
    pub types: Bytes,
    /// The stations.
    pub stations: Bytes,
    /// The units at the stations.
    pub stock: Bytes,
    /// The trips.
    pub trips: Bytes,
    /// The links between trips.
    pub links: Bytes,
    /// The weights of the cost.
    pub weights: Bytes,
}
