//! The state of a search: a valid list of records.
ghost use Rattle.std.specs.Prelude.{◌≡◌, ℕ, ◌*◌, ◌<◌, ◌≤ℤ◌, true, pos, List, [], length, IfOk, IfSome, OnOk, OnErr};
ghost use Rattle.std.specs.List.{count_by};
ghost use Rattle.wrp_town.specs.declared.street.Step.{Step};
ghost use Rattle.wrp_town.specs.Walks.{is_tour, walk_cost, HasNoTour};
ghost use Rattle.wrp_rules.specs.Nodes.{node_at, done, lower, is_open};
ghost use Rattle.wrp_rules.specs.Lists.{is_valid};
ghost use Rattle.wrp_rules.specs.Rules.{broken_rule, is_cut};
ghost use Rattle.wrp_writer.specs.Limits.{is_writable};
ghost use Rattle.wrp_rows.specs.Pools.{HasRowsOf};
ghost use Rattle.wrp_rows.specs.Points.{AreBounds, AreBoundsOf};
ghost use Rattle.wrp_tree.specs.Boxes.{FitBounds};
ghost use Rattle.wrp_tree.specs.Keeping.{is_blind};
ghost use Rattle.wrp_tree.specs.Plans.{Refuses};
ghost use Rattle.wrp_tree.specs.Trees.{now, with_list, unprepared, with_record, IsPrepared, HandsBack, IsOpenNode};

use crate::boxes::put_box;
use crate::desk::Desk;
use crate::fault::{ApplyFault, PrepareFault};
use crate::kept::Kept;
use crate::plan::Plan;
use std::alloc::{AllocError, Global};
use std::marker::Model;
use wrp_rows::{Bounds, Rows};
use wrp_rules::Record;
use wrp_town::Town;

/// A valid list of records of a town, with its rows, nodes and open nodes at hand. Contracts see the
/// town, the list, and what is ready for one more record.
#[derive(Debug, Drop)]
pub struct Tree<'t> {
    town: &'t Town,
    kept: Kept<'t>,
    desk: Desk,
    ready: Option<Plan>,
}

impl<'t> Model for Tree<'t> {
    ghost use Rattle.wrp_tree.specs.Trees.{TreeState, IsTree};

    ghost Value = { TreeState };

    ghost view = { λ t. record {
      town = t.town.now;
      records = t.kept.records.items;
      ready = t.ready;
      row = t.kept.rows.prepared;
    } };

    ghost invariant = { λ t. IsTree t.town.now t.kept t.desk t.ready };
}

impl<'t> Tree<'t> {
    /// The empty list.
    ///
    /// # Errors
    ///
    /// Want of memory alone.
    pub fn new(alloc: Global, town: &'t Town) -> Result<Tree<'t>, AllocError>
        ensures { IfOk result (λ tree. unprepared tree ≡ with_list town.now []) }
    {
        Ok(Tree {
            town,
            kept: Kept::new(alloc, town)?,
            desk: Desk::new(alloc, town)?,
            ready: None,
        })
    }

    /// Adds a record at the end of the list. After an error the list is as before.
    ///
    /// # Errors
    ///
    /// `Refused` with the record and the first rule that it breaks after the list, or want of
    /// memory.
    pub fn apply(&mut self, item: Record) -> Result<(), ApplyFault>
        requires { is_writable item ≡ true }
        ensures refused { HandsBack (broken_rule self.old.town (now self.old) item) item result }
        ensures added { OnOk result (unprepared self.new ≡ with_record self.old item) }
        ensures kept { OnErr result (unprepared self.new ≡ unprepared self.old) }
    {
        match self.prepare(&item) {
            Ok(()) => {
                self.commit(item);
                Ok(())
            }
            Err(PrepareFault::Refused { rule }) => Err(ApplyFault::Refused { item, rule }),
            Err(PrepareFault::Memory) => Err(ApplyFault::Memory),
        }
    }

    /// Makes ready all that a record needs to be added, and leaves the list as it is. What was ready
    /// before is forgotten.
    ///
    /// # Errors
    ///
    /// `Refused` with the first rule that the record breaks after the list, or want of memory.
    pub fn prepare(&mut self, item: &Record) -> Result<(), PrepareFault>
        requires { is_writable item.now ≡ true }
        ensures refused { Refuses (broken_rule self.old.town (now self.old) item.now) result }
        ensures prepared { OnOk result (IsPrepared item.now self.new) }
        ensures kept { unprepared self.new ≡ unprepared self.old }
    {
        self.ready = None;
        let plan = self.kept.plan(self.town, &mut self.desk, item)?;
        self.ready = Some(plan);
        Ok(())
    }

    /// Adds the record that is prepared. Takes no memory.
    pub fn commit(&mut self, item: Record)
        requires { IsPrepared item self.old }
        ensures { unprepared self.new ≡ with_record self.old item }
    {
        let plan = self.ready.unwrap_or(Plan::Plain);
        self.kept.make(plan, &item);
        self.kept.push(item);
        self.ready = None;
    }

    /// The least bound of the open nodes, else the cost of the cheapest tour.
    pub fn lower(&self) -> Option<i128>
        ensures value { result ≡ lower (now self.now) }
        ensures bounds { IfSome result (λ low. (steps : List Step)
            → is_tour self.now.town steps ≡ true → low ≤ℤ pos (walk_cost self.now.town steps)) }
    {
        self.kept.index.lower()
    }

    /// The cost of the cheapest tour, if one stands.
    pub fn upper(&self) -> Option<u64>
        ensures { result ≡ (now self.now).upper }
    {
        self.kept.index.upper
    }

    /// The number of nodes that aren't open.
    pub fn done(&self) -> u64
        ensures { result ≡ done (now self.now) }
    {
        self.kept.index.done()
    }

    /// The number of nodes.
    pub fn nodes(&self) -> u64
        ensures { result ≡ length (now self.now).nodes }
    {
        self.kept.index.count
    }

    /// The number of cuts.
    pub fn cuts(&self) -> u32
        ensures { result ≡ count_by is_cut self.now.records }
    {
        self.kept.rows.len() - self.kept.base
    }

    /// The number of blind marks.
    pub fn blind(&self) -> u64
        ensures { result ≡ count_by is_blind self.now.records }
    {
        self.kept.blind
    }

    /// The open node of least bound, of those the one of least number.
    pub fn open_node(&self) -> Option<u64>
        ensures { IsOpenNode self.now.town (now self.now) result }
    {
        match self.kept.index.first() {
            Some(entry) => Some(entry.node),
            None => None,
        }
    }

    /// Whether a node is open.
    pub fn is_open(&self, node: u64) -> bool
        requires { node < length (now self.now).nodes }
        ensures { result ≡ is_open (now self.now).upper
            (node_at self.now.town (now self.now) node) }
    {
        self.kept.index.is_open(node)
    }

    /// Puts the box of a node into bounds with one entry for each arc.
    pub fn box_of(&self, node: u64, into: &mut Bounds)
        requires there { node < length (now self.now).nodes }
        requires fit { FitBounds self.now.town into.old }
        ensures bounds { AreBounds self.now.town into.new }
        ensures of_node { AreBoundsOf self.now.town (node_at self.now.town (now self.now) node)
            into.new }
    {
        put_box(self.town, &self.kept.index.nodes, node, into);
    }

    /// Lends the list.
    pub fn records(&self) -> &[Record]
        ensures value { result.now ≡ self.now.records }
        ensures valid { is_valid self.now.town result.now ≡ true }
    {
        self.kept.records.as_slice()
    }

    /// Lends the rows.
    pub fn rows(&self) -> &Rows<'t>
        ensures rows { HasRowsOf (now self.now) result.now }
        ensures town { result.now.town ≡ self.now.town }
    {
        &self.kept.rows
    }
}
