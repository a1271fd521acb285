/// The most bytes of a name.
pub const NAME_LIMIT: usize = 64;

/// The most junctions of a town.
pub const JUNCTION_LIMIT: usize = 2_000;

/// The most streets of a town.
pub const STREET_LIMIT: usize = 4_000;

/// The most demands of a town.
pub const DEMAND_LIMIT: u32 = 4_000;

/// The most that a legal direction of a street costs.
pub const COST_LIMIT: u32 = 1_000_000_000;

/// The most junctions of a small town.
pub const SMALL_JUNCTION_LIMIT: usize = 500;

/// The most streets of a small town.
pub const SMALL_STREET_LIMIT: usize = 1_000;

/// The most demands of a small town.
pub const SMALL_DEMAND_LIMIT: u32 = 1_000;

/// The most that a legal direction costs in a small town.
pub const SMALL_COST_LIMIT: u32 = 1_000_000;
