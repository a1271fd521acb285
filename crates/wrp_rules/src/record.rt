use wrp_town::{List, Step};

/// One record of a proof.
///
/// Nodes, streets, junctions, arcs and rows are numbered from 0. Pairs join the number of a row, or
/// in a `Point` of an arc, to a number above 0.
#[derive(Debug, Drop, Clone, PartialEq, Eq)]
pub enum Record {
    /// A tour of this cost.
    Tour {
        cost: u64,
        steps: List<Step>,
    },
    /// A connectivity cut: the street `r1` lies in the set and `r2` outside, so a tour leaves it.
    Conn {
        r1: u32,
        r2: u32,
        set: List<u32>,
    },
    /// An odd cut: an odd number of demands cross the set, and a tour crosses it an even number of
    /// times.
    Odd {
        set: List<u32>,
    },
    /// A rounding: earlier rows times their multipliers, divided by the divisor and rounded up.
    Round {
        divisor: u64,
        mult: List<(u32, u64)>,
    },
    /// A K-C cut: the number of each junction's set, from 0 to `k`.
    Kc {
        k: u32,
        of: List<u32>,
    },
    /// A bound of a node, by multipliers of rows over the denominator `den`.
    Bound {
        node: u64,
        den: u64,
        mult: List<(u32, u64)>,
    },
    /// A node that holds no tour, by multipliers of rows.
    Empty {
        node: u64,
        mult: List<(u32, u64)>,
    },
    /// A node that holds no tour, as no arc leaves a set that holds `r1` and not `r2`.
    Apart {
        node: u64,
        r1: u32,
        r2: u32,
        set: List<u32>,
    },
    /// Numbers of arcs over the denominator `den` that cost as much as the node's bound.
    Point {
        node: u64,
        den: u64,
        numbers: List<(u32, u128)>,
    },
    /// Leave to split a node with no point.
    Blind {
        node: u64,
    },
    /// Two new nodes: one uses the arc at most `k` times, the other more often.
    Split {
        node: u64,
        arc: u32,
        k: u32,
    },
    /// A label for each junction and a street for each label, which show that there is no tour.
    Labels {
        labels: List<u32>,
        streets: List<u32>,
    },
}

/// How a proof ends.
#[derive(Clone, Copy, Debug, PartialEq, Eq)]
pub enum End {
    /// The least cost of a tour.
    Optimal { cost: u64 },
    /// There is no tour.
    Infeasible,
    /// Each tour costs at least `low`, and a tour of cost `high` is there.
    Unfinished { low: u64, high: u64 },
}
