//! The legal arcs of a town, each with the junctions at its ends.
ghost use Rattle.std.specs.Prelude.{◌≡◌, ◌*◌, ◌<◌, [], ◌∷◌, ◌++◌, length, IfOk, OnOk};
ghost use Rattle.wrp_town.specs.Arcs.{arcs};
ghost use Rattle.wrp_graph.specs.Stars.{tails_of, heads_of};

use std::alloc::{AllocError, Global};
use wrp_town::Town;

/// Legal arcs, ascending: each with the junction that it leaves, and each with the one that it
/// enters.
#[derive(Drop)]
pub struct Ends {
    pub tails: Vec<(u32, u32)>,
    pub heads: Vec<(u32, u32)>,
}

impl Ends {
    /// The ends of all legal arcs of a town.
    pub fn of_town(alloc: Global, town: &Town) -> Result<Ends, AllocError>
        ensures tails { IfOk result (λ ends. ends.tails.items ≡ tails_of town.now (arcs town.now)) }
        ensures heads { IfOk result (λ ends. ends.heads.items ≡ heads_of town.now (arcs town.now)) }
    {
        let mut ends = Ends {
            tails: Vec::new(alloc),
            heads: Vec::new(alloc),
        };
        for arc in 0..2 * town.streets.len() as u32 {
            ends.add(town, arc)?;
        }
        Ok(ends)
    }

    /// Adds an arc, where it is legal.
    fn add(&mut self, town: &Town, arc: u32) -> Result<(), AllocError>
        requires { arc < 2 * length town.now.streets }
        ensures tails { OnOk result
            (self.new.tails.items ≡ self.old.tails.items ++ tails_of town.now (arc ∷ [])) }
        ensures heads { OnOk result
            (self.new.heads.items ≡ self.old.heads.items ++ heads_of town.now (arc ∷ [])) }
    {
        if town.cost(arc).is_some() {
            self.tails.push((town.tail(arc), arc))?;
            self.heads.push((town.head(arc), arc))?;
        }
        Ok(())
    }
}
