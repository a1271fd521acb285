//! The rows of a proof as its checker keeps them: sparse, those of the town first and then one for
//! each cut; and their combinations.
//!
//! Making rows and adding to sets and tallies take memory; no other call does.
#![tactic(auto)]

mod base;
mod border;
mod chain;
mod combine;
mod cut;
mod demand;
mod kc;
mod members;
mod round;
mod row;
mod tally;

pub use chain::{is_chain, joining_demands};
pub use demand::{crossing_demands, is_parted};
pub use members::JunctionSet;
pub use row::{Pool, SparseRow};
pub use tally::Tally;

#[cfg(test)]
mod tests {
    use super::*;
    use std::test::Fail;
    use wrp_graph::Graph;
    use wrp_town::{List, Town};

    #[test]
    fn a_town_without_streets_has_no_rows(rt: HostRuntime) -> Result<(), Fail> {
        let town = Town {
            junctions: List::new(rt.alloc()),
            streets: List::new(rt.alloc()),
        };
        let graph = Graph::new(rt.alloc(), &town)?;
        let mut pool = Pool::new(rt.alloc(), &town)?;
        let mut tally = Tally::new(rt.alloc(), &town)?;
        let set = JunctionSet::new(rt.alloc(), 0)?;
        assert!(rt; pool.len() == 0);
        assert!(rt; pool.combine(&town, [].as_slice(), &mut tally)? == 0);
        pool.push_odd(rt.alloc(), &graph, &set, 0)?;
        assert!(rt; pool.len() == 1);
        Ok(())
    }

    #[test]
    fn sets_hold_what_was_added(rt: HostRuntime) -> Result<(), Fail> {
        let mut set = JunctionSet::new(rt.alloc(), 3)?;
        set.add(2)?;
        assert!(rt; set.contains(2));
        assert!(rt; !set.contains(1));
        set.clear();
        assert!(rt; !set.contains(2));
        Ok(())
    }
}
