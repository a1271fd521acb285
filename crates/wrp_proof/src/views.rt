//! Views of records, lent from their lines.
use thiserror::Error;
use wrp_grammar::{NumbersOf, PairsOf, StepsOf};

/// A record, lent from its line. The lists give their parts one by one.
#[derive(Debug, Drop)]
pub enum View<'a> {
    /// A tour of this cost.
    Tour {
        cost: u64,
        steps: StepsOf<'a>,
    },
    /// A connectivity cut: two streets, and the junctions of a set.
    Conn {
        r1: u32,
        r2: u32,
        set: NumbersOf<'a>,
    },
    /// An odd cut: the junctions of a set.
    Odd {
        set: NumbersOf<'a>,
    },
    /// A rounding: earlier rows with their multipliers, over the divisor.
    Round {
        divisor: u64,
        mult: PairsOf<'a>,
    },
    /// A K-C cut: the number of each junction's set, from 0 to `k`.
    Kc {
        k: u32,
        of: NumbersOf<'a>,
    },
    /// A bound of a node, by multipliers of rows over the denominator `den`.
    Bound {
        node: u64,
        den: u64,
        mult: PairsOf<'a>,
    },
    /// A node that holds no tour, by multipliers of rows.
    Empty {
        node: u64,
        mult: PairsOf<'a>,
    },
    /// A node that holds no tour, as no arc leaves a set that holds `r1` and not `r2`.
    Apart {
        node: u64,
        r1: u32,
        r2: u32,
        set: NumbersOf<'a>,
    },
    /// Numbers of arcs over the denominator `den`.
    Point {
        node: u64,
        den: u64,
        numbers: PairsOf<'a>,
    },
    /// Leave to split a node with no point.
    Blind {
        node: u64,
    },
    /// Two new nodes: one uses the arc at most `k` times, the other more often.
    Split {
        node: u64,
        arc: u32,
        k: u32,
    },
    /// A label for each junction and a street for each label.
    Labels {
        labels: NumbersOf<'a>,
        streets: NumbersOf<'a>,
    },
}

/// Why a line has no view. Places count from 0.
#[derive(Clone, Copy, Debug, PartialEq, Eq, Error)]
pub enum ViewFault {
    /// The line isn't in the shape of a record: the longest front of it that is a front of such a
    /// line.
    #[error("the line leaves its shape at byte {at}")]
    Form { at: u64 },
    /// A number is written otherwise than it has to be, or out of its range or order: the place of
    /// its first digit.
    #[error("a number breaks a rule at byte {at}")]
    Number { at: u64 },
    /// The line has more than 2^28 bytes.
    #[error("the line is too long")]
    Long,
}
