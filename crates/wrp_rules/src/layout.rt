/// The kind of a line of a proof: a record's or an end's.
#[derive(Clone, Copy, Debug)]
pub enum Kind {
    Tour,
    Conn,
    Odd,
    Round,
    Kc,
    Bound,
    Empty,
    Apart,
    Point,
    Blind,
    Split,
    Labels,
    Optimal,
    Infeasible,
    Unfinished,
}

/// The range of one of the leading numbers of a line.
#[derive(Clone, Copy, Debug)]
pub enum Range {
    /// A cost or the number of a node: below 2^63.
    Count,
    /// The number of a street, junction, arc or set: below 2^32.
    Index,
    /// From 1 to `most`.
    FromOne { most: u64 },
}

/// What follows the leading numbers of a line.
#[derive(Clone, Copy, Debug)]
pub enum Tail {
    /// No part.
    Nothing,
    /// Steps of a tour.
    Steps,
    /// Ascending numbers.
    Set,
    /// Numbers in any order.
    Indexes,
    /// At most 4,096 pairs of a row and its multiplier, from 1 to `most`.
    Multipliers { most: u64 },
    /// Pairs of an arc and its number, from 1 to `most`.
    Pairs { most: u128 },
    /// Numbers, a slash, and numbers.
    Labels,
}
