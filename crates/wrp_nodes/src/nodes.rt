//! The nodes that stand.
ghost use Rattle.std.specs.Prelude.{◌≡◌, ℕ, ◌+◌, ◌^◌, ◌<◌, List, [], ◌∷◌, ◌++◌, take, length, IfOk, OnOk, OnErr};
ghost use Rattle.std.specs.Int.{int_min};
ghost use Rattle.std.specs.Option.{option_map_or};
ghost use Rattle.std.specs.List.{AllZip, filter, list_any};
ghost use Rattle.wrp_town.specs.declared.town.Town.{Town};
ghost use Rattle.wrp_rules.specs.Nodes.{Node, Standing, with_bound, closed, changed, is_open, least_bound, lower};
ghost use Rattle.wrp_rules.specs.Lists.{is_done};
ghost use Rattle.wrp_nodes.specs.Kept.{kept_at, child_of, is_open_kept, Keeps, HasNodes, node_in, IsRootAlone, Becomes, Splits, GainsChildren};

use crate::kept::{Cut, KeptNode};
use std::alloc::{AllocError, Global};
use std::marker::Model;

/// The nodes by their numbers. Contracts see the list of them as they are kept.
#[derive(Debug, Drop)]
pub struct Nodes {
    nodes: Vec<KeptNode>,
}

impl Model for Nodes {
    ghost use Rattle.std.specs.Prelude.{List};
    ghost use Rattle.wrp_nodes.specs.declared.kept.KeptNode.{KeptNode};

    ghost Value = { List KeptNode };

    ghost view = { λ n. n.nodes.items };
}

impl Nodes {
    /// The root alone, open, with bound 0.
    ///
    /// # Errors
    ///
    /// Want of memory alone.
    pub fn new(alloc: Global) -> Result<Nodes, AllocError>
        ensures { IfOk result IsRootAlone }
    {
        let mut nodes = Vec::new(alloc);
        nodes.push(KeptNode {
            bound: 0,
            is_closed: false,
            parent: 0,
            arc: 0,
            cut: Cut::AtLeast(0),
        })?;
        Ok(Nodes { nodes })
    }

    /// The number of nodes.
    pub fn len(&self) -> u64
        ensures { result ≡ length self.now }
    {
        self.nodes.len() as u64
    }

    /// A node as it is kept.
    pub fn kept(&self, node: u64) -> KeptNode
        requires { node < length self.now }
        ensures { result ≡ kept_at self.now node }
    {
        self.nodes[node as usize]
    }

    /// Whether a node is open, where `upper` is the cost of the cheapest tour.
    pub fn is_open(&self, node: u64, upper: Option<u64>) -> bool
        requires { node < length self.now }
        ensures { (town : Town) (nodes : List Node) → HasNodes town self.now nodes
            → result ≡ is_open upper (node_in town nodes node) }
    {
        self.kept(node).is_open(upper)
    }

    /// The bound of a node.
    pub fn bound(&self, node: u64) -> i128
        requires { node < length self.now }
        ensures { (town : Town) (nodes : List Node) → HasNodes town self.now nodes
            → result ≡ (node_in town nodes node).bound }
    {
        self.kept(node).bound
    }

    /// Gives a node a bound.
    pub fn set_bound(&mut self, node: u64, bound: i128)
        requires { node < length self.old }
        ensures { Becomes self.old self.new (changed (with_bound bound) node) }
    {
        let kept = self.kept(node);
        self.nodes[node as usize] = KeptNode { bound, ..kept };
    }

    /// Closes a node.
    pub fn close(&mut self, node: u64)
        requires { node < length self.old }
        ensures { Becomes self.old self.new (changed closed node) }
    {
        let kept = self.kept(node);
        self.nodes[node as usize] = KeptNode {
            is_closed: true,
            ..kept
        };
    }

    /// Splits a node by the number of uses of an arc: at most `k` in the first new node, at least
    /// `k + 1` in the second. The node itself is closed. After an error the nodes are as before.
    ///
    /// # Errors
    ///
    /// Want of memory alone.
    pub fn split(&mut self, node: u64, arc: u32, k: u32) -> Result<(), AllocError>
        requires there { node < length self.old }
        requires arc { arc < 2 ^ 16 }
        requires uses { k + 1 < 2 ^ 16 }
        ensures ok { OnOk result (Splits self.old self.new node arc k) }
        ensures err { OnErr result (self.new ≡ self.old) }
    {
        self.push_children(node, arc, k)?;
        self.close(node);
        Ok(())
    }

    /// Adds the two nodes that a split of a node makes, and leaves the node itself as it is. After
    /// an error the nodes are as before.
    ///
    /// # Errors
    ///
    /// Want of memory alone.
    pub fn push_children(&mut self, node: u64, arc: u32, k: u32) -> Result<(), AllocError>
        requires there { node < length self.old }
        requires arc { arc < 2 ^ 16 }
        requires uses { k + 1 < 2 ^ 16 }
        ensures ok { OnOk result (GainsChildren self.old self.new node arc k) }
        ensures err { OnErr result (self.new ≡ self.old) }
    {
        let arc = arc as u16;
        let least = k as u16 + 1;
        self.push_child(node, arc, Cut::AtMost(k as u16))?;
        if let Err(fault) = self.push_child(node, arc, Cut::AtLeast(least)) {
            self.nodes.pop();
            return Err(fault);
        }
        Ok(())
    }

    /// Drops the nodes behind the first `count`.
    pub fn truncate(&mut self, count: u64)
        ensures { self.new ≡ take count self.old }
    {
        self.nodes.truncate(count as usize);
    }

    /// Adds a node, cut out of the box of another.
    fn push_child(&mut self, parent: u64, arc: u16, cut: Cut) -> Result<(), AllocError>
        requires { parent < length self.old }
        ensures ok { OnOk result (self.new ≡ self.old ++ child_of self.old parent arc cut ∷ []) }
        ensures err { OnErr result (self.new ≡ self.old) }
    {
        let like = self.kept(parent);
        self.nodes.push(KeptNode {
            parent,
            arc,
            cut,
            ..like
        })?;
        Ok(())
    }

    /// Whether no node is open.
    pub fn is_done(&self, upper: Option<u64>) -> bool
        ensures { (town : Town) (s : Standing) → HasNodes town self.now s.nodes → s.upper ≡ upper
            → result ≡ is_done s }
    {
        !has_open(&self.nodes, upper)
    }

    /// The least bound of the open nodes, else the cost of the cheapest tour.
    pub fn lower(&self, upper: Option<u64>) -> Option<i128>
        ensures { (town : Town) (s : Standing) → HasNodes town self.now s.nodes → s.upper ≡ upper
            → result ≡ lower s }
    {
        match least_open(&self.nodes, upper) {
            Some(bound) => Some(bound),
            None => upper.map(i128::from),
        }
    }
}

/// Whether one of these is open.
fn has_open(nodes: &[KeptNode], upper: Option<u64>) -> bool
    ensures { result ≡ list_any (is_open_kept upper) nodes.now }
{
    nodes.iter().any(|kept| kept.is_open(upper))
}

/// The least bound of those of these that are open.
fn least_open(nodes: &[KeptNode], upper: Option<u64>) -> Option<i128>
    ensures { (stand : List Node) → AllZip Keeps nodes.now stand
        → result ≡ least_bound (filter (is_open upper) stand) }
{
    let mut least = None;
    for kept in nodes {
        if kept.is_open(upper) {
            least = Some(lesser(least, kept.bound));
        }
    }
    least
}

/// The lesser of two bounds, of which the first may be missing.
fn lesser(least: Option<i128>, bound: i128) -> i128
    ensures { result ≡ option_map_or (int_min bound) least bound }
{
    match least {
        Some(other) => bound.min(other),
        None => bound,
    }
}
