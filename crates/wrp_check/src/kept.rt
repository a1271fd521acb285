//! What a checker keeps of the records so far.
ghost use Rattle.std.specs.Prelude.{◌≡◌};
ghost use Rattle.wrp_check.specs.Judging.{plain_past, leading_past, labelled_past, admits};

use wrp_nodes::Nodes;
use wrp_pool::Pool;

/// What of the past counts for the next record.
#[derive(Clone, Copy, Debug, PartialEq, Eq)]
pub(crate) struct Past {
    /// A record stands.
    pub(crate) has_records: bool,
    /// A record with labels stands, alone.
    pub(crate) is_labelled: bool,
    /// The node that may be split now: the last record is a point or a blind mark of it.
    pub(crate) leads: Option<u64>,
}

/// The rows, the nodes and the numbers that the records so far stand for.
#[derive(Debug, Drop)]
pub(crate) struct Kept {
    pub(crate) pool: Pool,
    pub(crate) nodes: Nodes,
    /// The cost of the cheapest tour.
    pub(crate) upper: Option<u64>,
    /// The number of cuts.
    pub(crate) cuts: u32,
    pub(crate) past: Past,
}

impl Past {
    /// Behind a record that neither has labels nor leads to a split.
    pub(crate) fn plain() -> Past
        ensures { result ≡ plain_past }
    {
        Past {
            has_records: true,
            is_labelled: false,
            leads: None,
        }
    }

    /// Behind a point or a blind mark of a node.
    pub(crate) fn leading_to(node: u64) -> Past
        ensures { result ≡ leading_past node }
    {
        Past {
            has_records: true,
            is_labelled: false,
            leads: Some(node),
        }
    }

    /// Behind labels.
    pub(crate) fn labelled() -> Past
        ensures { result ≡ labelled_past }
    {
        Past {
            has_records: true,
            is_labelled: true,
            leads: None,
        }
    }

    /// Whether a record with or without labels may stand next.
    pub(crate) fn admits(&self, has_labels: bool) -> bool
        ensures { result ≡ admits self.now has_labels }
    {
        if has_labels {
            !self.has_records
        } else {
            !self.is_labelled
        }
    }
}
