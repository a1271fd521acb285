//! Which junctions are the two ends of a required street.
ghost use Rattle.std.specs.Prelude.{◌≡◌, ◌*◌, ◌/◌, ◌<◌, [], ◌∷◌, ◌++◌, length, IfOk, OnOk};
ghost use Rattle.wrp_town.specs.Arcs.{arcs, is_required};
ghost use Rattle.wrp_parts.specs.Neighbours.{neighbours_of, required_ends_of};

use std::alloc::{AllocError, Global};
use wrp_graph::Buckets;
use wrp_town::Town;

/// The neighbours of each junction: the other ends of its required streets, whatever directions are
/// legal.
pub fn neighbours(alloc: Global, town: &Town) -> Result<Buckets, AllocError>
    ensures { IfOk result (λ rows. rows ≡ neighbours_of town.now) }
{
    let ends = required_ends(alloc, town)?;
    Buckets::new(alloc, town.junctions.len(), ends.as_slice())
}

/// The two ends of each required street, and the same turned round.
fn required_ends(alloc: Global, town: &Town) -> Result<Vec<(u32, u32)>, AllocError>
    ensures { IfOk result (λ ends. ends.items ≡ required_ends_of town.now (arcs town.now)) }
{
    let mut ends = Vec::new(alloc);
    for arc in 0..2 * town.streets.len() as u32 {
        add_ends(&mut ends, town, arc)?;
    }
    Ok(ends)
}

/// Adds the ends of an arc, where its street is required.
fn add_ends(ends: &mut Vec<(u32, u32)>, town: &Town, arc: u32) -> Result<(), AllocError>
    requires { arc < 2 * length town.now.streets }
    ensures { OnOk result
        (ends.new.items ≡ ends.old.items ++ required_ends_of town.now (arc ∷ [])) }
{
    if is_required(town, arc / 2) {
        ends.push((town.tail(arc), town.head(arc)))?;
    }
    Ok(())
}

/// Whether a street has a demand.
fn is_required(town: &Town, street: u32) -> bool
    requires { street < length town.now.streets }
    ensures { result ≡ is_required town.now street }
{
    town.streets.as_slice()[street as usize].need.demand_count() > 0
}
