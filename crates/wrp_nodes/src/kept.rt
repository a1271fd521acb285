//! A node as it is kept, and what its cut does to a range of uses.
ghost use Rattle.std.specs.Prelude.{◌≡◌};
ghost use Rattle.wrp_rules.specs.Nodes.{is_below};
ghost use Rattle.wrp_nodes.specs.Kept.{is_open_kept, cut_range};

/// The least and the greatest number of uses of an arc.
#[derive(Clone, Copy, Debug, PartialEq, Eq)]
pub struct UseRange {
    pub lo: u16,
    pub hi: u16,
}

/// A new end of a range of uses: the least number, or the greatest.
#[derive(Clone, Copy, Debug, PartialEq, Eq)]
pub enum Cut {
    AtLeast(u16),
    AtMost(u16),
}

/// A node: its bound, and how its box is cut out of that of its parent. The root, which has number
/// 0, has no parent: its last three fields mean nothing.
#[derive(Clone, Copy, Debug, PartialEq, Eq)]
pub struct KeptNode {
    pub bound: i128,
    pub is_closed: bool,
    pub parent: u64,
    pub arc: u16,
    pub cut: Cut,
}

impl KeptNode {
    /// Whether the node isn't closed, and its bound is below the cost of the cheapest tour.
    pub(crate) fn is_open(&self, upper: Option<u64>) -> bool
        ensures { result ≡ is_open_kept upper self.now }
    {
        !self.is_closed && is_below(self.bound, upper)
    }
}

impl Cut {
    /// What the cut leaves of a range.
    pub(crate) fn of(self, range: UseRange) -> UseRange
        ensures { result ≡ cut_range self range }
    {
        match self {
            Cut::AtLeast(k) => UseRange {
                lo: range.lo.max(k),
                hi: range.hi,
            },
            Cut::AtMost(k) => UseRange {
                lo: range.lo,
                hi: range.hi.min(k),
            },
        }
    }
}

/// Whether a bound is below the cost of the cheapest tour, or there is none.
pub fn is_below(bound: i128, upper: Option<u64>) -> bool
    ensures { result ≡ is_below bound upper }
{
    match upper {
        Some(cost) => bound < i128::from(cost),
        None => true,
    }
}
