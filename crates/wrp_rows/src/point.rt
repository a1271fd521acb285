use wrp_town::List;

/// The least and the greatest number of uses of each arc, both 0 where the arc is illegal.
#[derive(Debug, Drop, Clone)]
pub struct Bounds {
    pub lo: List<u32>,
    pub hi: List<u32>,
}

/// A number of each arc over the denominator `den`, 0 where the arc is illegal.
#[derive(Debug, Drop, Clone)]
pub struct Point {
    /// From 1 to 2^60.
    pub den: i128,
    pub at: List<i128>,
}
