//! The nodes of a search, with those that are open by their bounds.
ghost use Rattle.std.specs.Prelude.{◌≡◌, ℕ, ◌+◌, ◌-◌, ◌<◌, ◌^◌, nat_lt, true, List, [], ◌∷◌, Option, None, Some, pos, length, IfOk, OnOk, OnErr};
ghost use Rattle.std.specs.Option.{option_map_or, option_map, option_or};
ghost use Rattle.std.specs.Vec.{vec_len, vec_capacity};
ghost use Rattle.std.specs.List.{filter};
ghost use Rattle.wrp_town.specs.declared.town.Town.{Town};
ghost use Rattle.wrp_town.specs.Arcs.{is_legal};
ghost use Rattle.wrp_rules.specs.Nodes.{Node, root, with_bound, closed, changed, is_below, is_open, least_bound};
ghost use Rattle.wrp_rules.specs.Rules.{parts_range};
ghost use Rattle.wrp_nodes.specs.Kept.{AreLinked, node_in, split_nodes, children};
ghost use Rattle.wrp_tree.specs.Indexes.{IsIndexed, IsSound, HasOpen, HasChildren, IsFirst, done_of};

use crate::entries::{Entry, cut_below, put_in, take_out};
use std::alloc::{AllocError, Global};
use wrp_nodes::{Nodes, is_below};

/// The nodes, and those that are open by their bounds.
#[derive(Debug, Drop)]
pub(crate) struct NodeIndex {
    /// The nodes, and behind them the two that a split will make, where they are prepared.
    pub(crate) nodes: Nodes,
    /// The number of nodes without those two.
    pub(crate) count: u64,
    /// The open nodes, ascending.
    pub(crate) entries: Vec<Entry>,
    /// The cost of the cheapest tour.
    pub(crate) upper: Option<u64>,
}

impl NodeIndex {
    /// The root alone, and no tour.
    pub(crate) fn new(alloc: Global) -> Result<NodeIndex, AllocError>
        ensures { IfOk result (λ index. (town : Town) → IsIndexed town (root town ∷ []) None index) }
    {
        let nodes = Nodes::new(alloc)?;
        let mut entries = Vec::new(alloc);
        entries.push(Entry { bound: 0, node: 0 })?;
        Ok(NodeIndex {
            nodes,
            count: 1,
            entries,
            upper: None,
        })
    }

    /// Whether a node of this number is there.
    pub(crate) fn is_there(&self, node: u64) -> bool
        ensures { (town : Town) (nodes : List Node) (upper : Option ℕ)
            → IsIndexed town nodes upper self.now → result ≡ nat_lt node (length nodes) }
    {
        node < self.count
    }

    /// Whether a node is open.
    pub(crate) fn is_open(&self, node: u64) -> bool
        requires sound { IsSound self.now }
        requires there { node < self.now.count }
        ensures { (town : Town) (nodes : List Node) (upper : Option ℕ)
            → IsIndexed town nodes upper self.now
            → result ≡ is_open upper (node_in town nodes node) }
    {
        self.nodes.is_open(node, self.upper)
    }

    /// The bound of a node.
    pub(crate) fn bound(&self, node: u64) -> i128
        requires sound { IsSound self.now }
        requires there { node < self.now.count }
        ensures { (town : Town) (nodes : List Node) (upper : Option ℕ)
            → IsIndexed town nodes upper self.now → result ≡ (node_in town nodes node).bound }
    {
        self.nodes.bound(node)
    }

    /// The entry of a node, as it is or would be.
    fn entry(&self, node: u64) -> Entry
        requires sound { IsSound self.now }
        requires there { node < self.now.count }
        ensures node { result.node ≡ node }
        ensures bound { (town : Town) (nodes : List Node) (upper : Option ℕ)
            → IsIndexed town nodes upper self.now
            → result.bound ≡ (node_in town nodes node).bound }
    {
        Entry {
            bound: self.bound(node),
            node,
        }
    }

    /// The number of nodes that aren't open.
    pub(crate) fn done(&self) -> u64
        requires { IsSound self.now }
        ensures { (town : Town) (nodes : List Node) (upper : Option ℕ)
            → IsIndexed town nodes upper self.now → result ≡ done_of upper nodes }
    {
        self.count - self.entries.len() as u64
    }

    /// The open node of least bound, of those the one of least number.
    pub(crate) fn first(&self) -> Option<Entry>
        ensures { (town : Town) (nodes : List Node) (upper : Option ℕ)
            → IsIndexed town nodes upper self.now → IsFirst town nodes upper result }
    {
        match self.entries.as_slice() {
            [] => None,
            [first, ..] => Some(*first),
        }
    }

    /// The least bound of an open node, else the cost of the cheapest tour.
    pub(crate) fn lower(&self) -> Option<i128>
        ensures { (town : Town) (nodes : List Node) (upper : Option ℕ)
            → IsIndexed town nodes upper self.now
            → result ≡ option_or (least_bound (filter (is_open upper) nodes)) (option_map pos upper) }
    {
        match self.first() {
            Some(entry) => Some(entry.bound),
            None => self.upper.map(i128::from),
        }
    }

    /// Drops the nodes that are prepared.
    pub(crate) fn drop_children(&mut self)
        ensures indexed { (town : Town) (nodes : List Node) (upper : Option ℕ)
            → IsIndexed town nodes upper self.old → IsIndexed town nodes upper self.new }
        ensures alone { IsSound self.old → length self.new.nodes ≡ self.new.count }
    {
        self.nodes.truncate(self.count);
    }

    /// Makes the two nodes of a split, and room for their entries.
    pub(crate) fn make_children(&mut self, node: u64, arc: u32, k: u32) -> Result<(), AllocError>
        requires sound { IsSound self.old }
        requires alone { length self.old.nodes ≡ self.old.count }
        requires there { node < self.old.count }
        requires arc { arc < 2 ^ 16 }
        requires uses { k + 1 < 2 ^ 16 }
        ensures indexed { (town : Town) (nodes : List Node) (upper : Option ℕ)
            → IsIndexed town nodes upper self.old
            → is_legal town arc ≡ true → parts_range (node_in town nodes node) arc k ≡ true
            → IsIndexed town nodes upper self.new }
        ensures children { (town : Town) (nodes : List Node) (upper : Option ℕ)
            → IsIndexed town nodes upper self.old
            → is_legal town arc ≡ true → parts_range (node_in town nodes node) arc k ≡ true
            → OnOk result (HasChildren town nodes node arc k self.new) }
    {
        self.entries.reserve(1)?;
        self.nodes.push_children(node, arc, k)
    }

    /// A tour of this cost, cheaper than those before.
    pub(crate) fn lower_upper(&mut self, cost: u64)
        requires { IsSound self.old }
        ensures { (town : Town) (nodes : List Node) (upper : Option ℕ)
            → IsIndexed town nodes upper self.old → is_below (pos cost) upper ≡ true
            → IsIndexed town nodes (Some cost) self.new }
    {
        cut_below(&mut self.entries, cost);
        self.upper = Some(cost);
    }

    /// Gives an open node a bound.
    pub(crate) fn raise(&mut self, node: u64, bound: i128)
        requires open { HasOpen node self.old }
        requires alone { length self.old.nodes ≡ self.old.count }
        ensures { (town : Town) (nodes : List Node) (upper : Option ℕ)
            → IsIndexed town nodes upper self.old
            → IsIndexed town (changed (with_bound bound) node nodes) upper self.new }
    {
        let old = self.entry(node);
        take_out(&mut self.entries, old);
        self.nodes.set_bound(node, bound);
        if is_below(bound, self.upper) {
            put_in(&mut self.entries, Entry { bound, node });
        }
    }

    /// Closes an open node.
    pub(crate) fn close(&mut self, node: u64)
        requires open { HasOpen node self.old }
        requires alone { length self.old.nodes ≡ self.old.count }
        ensures { (town : Town) (nodes : List Node) (upper : Option ℕ)
            → IsIndexed town nodes upper self.old
            → IsIndexed town (changed closed node nodes) upper self.new }
    {
        let old = self.entry(node);
        take_out(&mut self.entries, old);
        self.nodes.close(node);
    }

    /// Splits an open node into the two that are prepared.
    pub(crate) fn split(&mut self, node: u64)
        requires open { HasOpen node self.old }
        requires count { length self.old.nodes ≡ self.old.count + 2 }
        requires room { vec_len self.old.entries < vec_capacity self.old.entries }
        ensures { (town : Town) (nodes : List Node) (upper : Option ℕ) (arc k : ℕ)
            → IsIndexed town nodes upper self.old → HasChildren town nodes node arc k self.old
            → IsIndexed town (split_nodes town node arc k nodes) upper self.new }
    {
        let old = self.entry(node);
        take_out(&mut self.entries, old);
        self.nodes.close(node);
        let count = self.nodes.len();
        let first = count - 2;
        put_in(&mut self.entries, Entry { node: first, ..old });
        let second = count - 1;
        put_in(
            &mut self.entries,
            Entry {
                node: second,
                ..old
            },
        );
        self.count = count;
    }
}
