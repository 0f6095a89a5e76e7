//! The limits of a day, a search and an answer. What goes past one of them is refused, breaks a rule, or is no argument
//! of a call, so that every sum within them fits its type.

// Files.

/// Bytes of each table and of the plan file.
pub const MAX_TABLE_BYTES: u64 = 4_194_304;
/// Bytes of an answer document, and so of a file of any kind.
pub const MAX_FILE_BYTES: u64 = 134_217_728;
/// Words that a command line may have.
pub const MAX_WORDS: usize = 1_000_000;

// Rows of each table.

/// Rows of the types table.
pub const MAX_TYPES: usize = 6;
/// Rows of the stations table.
pub const MAX_STATIONS: usize = 60;
/// Rows of the stock table.
pub const MAX_STOCK_ROWS: usize = 360;
/// Rows of the trips table.
pub const MAX_TRIPS: usize = 400;
/// Rows of the links table.
pub const MAX_LINKS: usize = 400;
/// Rows of the weights table.
pub const MAX_WEIGHT_ROWS: usize = 1;
/// Rows of the plan file: one for each trip.
pub const MAX_PLAN_ROWS: usize = MAX_TRIPS;

// Columns of the tables.

/// Bytes of a name.
pub const MAX_NAME_BYTES: usize = 64;
/// Carriages of one unit.
pub const MAX_CARRIAGES: u32 = 20;
/// Seats of one unit, those of first class apart.
pub const MAX_SEATS: u32 = 2_000;
/// Seats of first class of one unit.
pub const MAX_FIRST_SEATS: u32 = 2_000;
/// Metres of one unit.
pub const MAX_METRES: u32 = 500;
/// Metres of a platform.
pub const MAX_PLATFORM: u32 = 1_000;
/// Minutes from the arrival at which a unit is given to the yard until it may be taken from it.
pub const MAX_REALLOCATION: u32 = 600;
/// Units of one type at one station, as the day begins and as it ends.
pub const MAX_STOCK: u32 = 2_000;
/// Minutes of the planned day and the day after it: each time is below it.
pub const MAX_MINUTES: u32 = 2_880;
/// Kilometres of a trip.
pub const MAX_KM: u32 = 1_000;
/// Seats wanted on a trip, those of first class apart.
pub const MAX_DEMAND: u32 = 10_000;
/// Seats of first class wanted on a trip.
pub const MAX_FIRST_DEMAND: u32 = 10_000;
/// Each weight of the cost.
pub const MAX_WEIGHT: u32 = 10_000;
/// What a trip costs more with another composition than the one that it is to have.
pub const MAX_CHANGE: u32 = 1_000_000;

// The day.

/// Units at the start of the day, all stations together.
pub const MAX_UNITS: u32 = 2_000;
/// Hand-overs of units between two trains at joins and splits: each takes three ends of trips, and a trip has two.
pub const MAX_HANDOVERS: usize = 2 * MAX_TRIPS / 3;
/// Units in one composition.
pub const MAX_COMPOSITION_UNITS: usize = 6;
/// Units that a turn may uncouple, and units that it may couple, where it does both.
pub const MAX_EXCHANGED: usize = 2;
/// Compositions in the catalogue.
pub const MAX_COMPOSITIONS: usize = 1_000;

// The search and its answer.

/// Branchings that may be granted.
pub const MAX_BRANCHINGS: u32 = 4_000;
/// Rounds of advice that may be granted.
pub const MAX_ROUNDS: u32 = 100;
/// Nodes of a tree: a branch each for the most branchings, and one leaf more.
pub const MAX_NODES: u32 = 2 * MAX_BRANCHINGS + 1;
/// Entries of one list of multipliers.
pub const MAX_ENTRIES: usize = 1_000;
/// Size of one multiplier, whatever its sign.
pub const MAX_MULTIPLIER: u64 = 1_000_000_000_000;
/// Entries of one list of slacks.
pub const MAX_SLACKS: usize = 4_000;
