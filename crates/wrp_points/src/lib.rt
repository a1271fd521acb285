//! The checker's judgement of points, which are numbers of arcs over a denominator, and of labels.
//!
//! Only making the tables takes memory.
#![tactic(auto)]

mod balance;
mod labels;
mod numbers;
mod point;
mod price;
mod service;
mod tables;
mod within;

pub use labels::broken_labels;
pub use point::broken_point;
pub use tables::Tables;

#[cfg(test)]
mod tests {
    use super::*;
    use std::test::Fail;
    use wrp_nodes::{Boxes, Nodes};
    use wrp_rules::Rule;
    use wrp_town::{List, Town};

    #[test]
    fn a_town_without_streets_has_the_empty_point(rt: HostRuntime) -> Result<(), Fail> {
        let town = Town {
            junctions: List::new(rt.alloc()),
            streets: List::new(rt.alloc()),
        };
        let nodes = Nodes::new(rt.alloc())?;
        let mut boxes = Boxes::new(rt.alloc(), &town)?;
        let mut tables = Tables::new(rt.alloc(), &town)?;
        let none = [];
        let broken = broken_point(
            &town,
            &mut boxes,
            &nodes,
            0,
            1,
            none.as_slice(),
            &mut tables,
        );
        assert!(rt; broken == None);
        assert!(rt; broken_labels(&town, [].as_slice(), [].as_slice()) == Some(Rule::Range));
        Ok(())
    }
}
