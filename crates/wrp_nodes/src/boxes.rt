//! The box of one node.
ghost use Rattle.std.specs.Prelude.{◌≡◌, ◌<◌, length, IfOk};
ghost use Rattle.wrp_town.specs.declared.town.Town.{Town};
ghost use Rattle.wrp_nodes.specs.Kept.{AreLinked};

use crate::kept::UseRange;
use crate::nodes::Nodes;
use std::alloc::{AllocError, Global};
use wrp_town::{List, Town, demand_count};

/// Room for one box: the least and the greatest number of uses of each arc. At rest these are 0 and
/// the number of demands.
#[derive(Debug, Drop)]
pub struct Boxes {
    pub(crate) ranges: List<UseRange>,
    pub(crate) most: u16,
}

impl Boxes {
    ghost use Rattle.wrp_nodes.specs.Tables.{IsAtRest, range_at, whole_range, HasEntered};

    /// At rest.
    ///
    /// # Errors
    ///
    /// Want of memory alone.
    #[tactic(auto, using(wrp_town::proofs::TownLaws::few_demands))]
    pub fn new(alloc: Global, town: &Town) -> Result<Boxes, AllocError>
        ensures { IfOk result (λ boxes. IsAtRest town.now boxes) }
    {
        let most = demand_count(town) as u16;
        let whole = UseRange { lo: 0, hi: most };
        let ranges = vec![in alloc; whole; 2 * town.streets.len()]?;
        Ok(Boxes {
            ranges: List::from_vec(ranges),
            most,
        })
    }

    /// The range of an arc.
    pub fn range(&self, arc: u32) -> UseRange
        requires { arc < length self.now.ranges }
        ensures { result ≡ range_at self.now arc }
    {
        self.ranges.as_slice()[arc as usize]
    }

    /// The whole range of an arc.
    fn whole(&self) -> UseRange
        ensures { result ≡ whole_range self.now }
    {
        UseRange {
            lo: 0,
            hi: self.most,
        }
    }

    /// From rest into the box of a node: the ranges are cut on the way from it to the root.
    pub fn enter(&mut self, nodes: &Nodes, node: u64)
        requires linked { AreLinked (length self.old.ranges) nodes.now }
        requires there { node < length nodes.now }
        ensures arcs { length self.new.ranges ≡ length self.old.ranges }
        ensures entered { (town : Town) → IsAtRest town self.old
            → HasEntered town nodes.now node self.new }
    {
        let mut at = node;
        while at != 0 {
            let kept = nodes.kept(at);
            let range = self.range(u32::from(kept.arc));
            self.ranges.set(kept.arc as usize, kept.cut.of(range));
            at = kept.parent;
        }
    }

    /// Out of the box of a node, at rest again.
    pub fn leave(&mut self, nodes: &Nodes, node: u64)
        requires linked { AreLinked (length self.old.ranges) nodes.now }
        requires there { node < length nodes.now }
        ensures arcs { length self.new.ranges ≡ length self.old.ranges }
        ensures rest { (town : Town) → HasEntered town nodes.now node self.old
            → IsAtRest town self.new }
    {
        let whole = self.whole();
        let mut at = node;
        while at != 0 {
            let kept = nodes.kept(at);
            self.ranges.set(kept.arc as usize, whole);
            at = kept.parent;
        }
    }
}
