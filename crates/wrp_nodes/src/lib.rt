//! The nodes of a proof, kept small: each as its bound and the one range of uses that was cut out
//! of its parent's box. A table has room for the whole box of one node at a time.
//!
//! Only making the nodes, splitting one and making the table take memory.
#![tactic(auto)]

mod boxes;
mod kept;
mod nodes;

pub use boxes::Boxes;
pub use kept::{Cut, KeptNode, UseRange, is_below};
pub use nodes::Nodes;

#[cfg(test)]
mod tests {
    use super::*;
    use std::test::Fail;
    use wrp_town::{List, Town};

    #[test]
    fn nodes_split_and_close(rt: HostRuntime) -> Result<(), Fail> {
        let mut nodes = Nodes::new(rt.alloc())?;
        assert!(rt; nodes.len() == 1);
        nodes.set_bound(0, -7);
        nodes.split(0, 3, 1)?;
        assert!(rt; nodes.len() == 3);
        nodes.set_bound(2, 5);
        assert!(rt; nodes.bound(1) == -7);
        assert!(rt; !nodes.is_open(0, None));
        assert!(rt; nodes.lower(Some(9)) == Some(-7));
        nodes.close(1);
        assert!(rt; nodes.lower(Some(9)) == Some(5));
        assert!(rt; nodes.is_done(Some(5)));
        assert!(rt; !nodes.is_done(Some(6)));
        Ok(())
    }

    #[test]
    fn a_town_without_streets_has_an_empty_table(rt: HostRuntime) -> Result<(), Fail> {
        let town = Town {
            junctions: List::new(rt.alloc()),
            streets: List::new(rt.alloc()),
        };
        let nodes = Nodes::new(rt.alloc())?;
        let mut boxes = Boxes::new(rt.alloc(), &town)?;
        boxes.enter(&nodes, 0);
        boxes.leave(&nodes, 0);
        Ok(())
    }
}
