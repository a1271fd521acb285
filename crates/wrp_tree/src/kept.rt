//! What is kept of the records so far.
ghost use Rattle.std.specs.Prelude.{◌≡◌, ◌&&◌, nat_lt, false, true, IfOk};
ghost use Rattle.std.specs.Option.{option_map_or};
ghost use Rattle.std.specs.List.{list_all, last_or};
ghost use Rattle.wrp_town.specs.declared.town.Town.{Town};
ghost use Rattle.wrp_rules.specs.Nodes.{Standing, start, node_at};
ghost use Rattle.wrp_rules.specs.Rules.{node_is_there, node_is_open, rows_are_there, leads_to_split, is_alone};
ghost use Rattle.wrp_tree.specs.Keeping.{IsKept, IsSoundOf};

use crate::index::NodeIndex;
use std::alloc::{AllocError, Global};
use wrp_rows::Rows;
use wrp_rules::Record;
use wrp_town::Town;

/// The records, and the rows and nodes that they stand for.
#[derive(Debug, Drop)]
pub(crate) struct Kept<'t> {
    pub(crate) records: Vec<Record>,
    pub(crate) rows: Rows<'t>,
    pub(crate) index: NodeIndex,
    /// The number of rows before any cut.
    pub(crate) base: u32,
    /// The number of blind marks.
    pub(crate) blind: u64,
    /// A record with labels stands.
    pub(crate) labelled: bool,
}

impl<'t> Kept<'t> {
    /// Before any record.
    pub(crate) fn new(alloc: Global, town: &'t Town) -> Result<Kept<'t>, AllocError>
        ensures { IfOk result (λ kept. IsKept town.now (start town.now) kept) }
    {
        let rows = Rows::new(alloc, town)?;
        let base = rows.len();
        Ok(Kept {
            records: Vec::new(alloc),
            rows,
            index: NodeIndex::new(alloc)?,
            base,
            blind: 0,
            labelled: false,
        })
    }

    /// Whether a record with or without labels may stand next.
    pub(crate) fn admits(&self, item: &Record) -> bool
        ensures { (town : Town) (s : Standing) → IsKept town s self.now
            → result ≡ is_alone s item.now }
    {
        if matches!(item, Record::Labels { .. }) {
            self.records.is_empty()
        } else {
            !self.labelled
        }
    }

    /// Whether a node is there.
    pub(crate) fn has_node(&self, node: u64) -> bool
        ensures { (town : Town) (s : Standing) → IsKept town s self.now
            → result ≡ node_is_there s node }
    {
        self.index.is_there(node)
    }

    /// Whether a node is open.
    pub(crate) fn is_open(&self, node: u64) -> bool
        requires { (town : Town) × (s : Standing) × IsKept town s self.now
            × (node_is_there s node ≡ true) }
        ensures { (town : Town) (s : Standing) → IsKept town s self.now
            → result ≡ node_is_open town s node }
    {
        self.index.is_open(node)
    }

    /// Whether the rows of the pairs are there.
    pub(crate) fn has_rows(&self, mult: &[(u32, u64)]) -> bool
        ensures { (town : Town) (s : Standing) → IsKept town s self.now
            → result ≡ rows_are_there s mult.now }
    {
        are_below(mult, self.rows.len())
    }

    /// Whether a node and the rows of the pairs are there.
    pub(crate) fn has_node_and_rows(&self, node: u64, mult: &[(u32, u64)]) -> bool
        ensures { (town : Town) (s : Standing) → IsKept town s self.now
            → result ≡ (node_is_there s node && rows_are_there s mult.now) }
    {
        self.has_node(node) && self.has_rows(mult)
    }

    /// Whether the last record leads to the split of a node.
    pub(crate) fn leads_to(&self, split: u64) -> bool
        ensures { (town : Town) (s : Standing) → IsKept town s self.now
            → result ≡ option_map_or (leads_to_split split) (last_or None s.records) false }
    {
        match self.records.last() {
            Some(item) => leads_to(item, split),
            None => false,
        }
    }
}

/// Whether the first number of each pair is below a limit.
fn are_below(pairs: &[(u32, u64)], limit: u32) -> bool
    ensures { result ≡ list_all (λ q. nat_lt q.0 limit) pairs.now }
{
    pairs.iter().all(|pair| pair.0 < limit)
}

/// Whether a record is a point or a blind mark of a node.
fn leads_to(item: &Record, split: u64) -> bool
    ensures { result ≡ leads_to_split split item.now }
{
    match item {
        Record::Point { node, .. } | Record::Blind { node } => *node == split,
        _ => false,
    }
}
