//! The sets of a candidate.
ghost use Rattle.std.specs.Prelude.{◌≡◌, ◌<◌, length, IfOk};
ghost use Rattle.wrp_parts.specs.RequiredParts.{AreParts};
ghost use Rattle.wrp_kc.specs.Candidates.{set_of_part, set_at, sets_for};

use std::alloc::{AllocError, Global};
use wrp_parts::Parts;
use wrp_town::{List, Town};

/// The set of each junction, for a junction and its part.
pub(crate) fn sets_for(
    alloc: Global,
    town: &Town,
    parts: &Parts,
    own: u32,
    u: u32,
) -> Result<List<u32>, AllocError>
    requires { AreParts town.now parts.now.count parts.now.of }
    ensures { IfOk result (λ of. of ≡ sets_for town.now parts.now.count parts.now.of own u) }
{
    let mut of = List::new(alloc);
    for j in 0..town.junctions.len() as u32 {
        of.push(set_at(parts, own, u, j))?;
    }
    Ok(of)
}

/// The set of a junction.
fn set_at(parts: &Parts, own: u32, u: u32, j: u32) -> u32
    requires { j < length parts.now.of }
    ensures { result ≡ set_at parts.now.count parts.now.of own u j }
{
    if j == u {
        return 0;
    }
    match parts.of.as_slice()[j as usize] {
        Some(part) => set_of_part(parts.count, own, part),
        None => parts.count,
    }
}

/// The set of a part.
fn set_of_part(count: u32, own: u32, part: u32) -> u32
    ensures { result ≡ set_of_part count own part }
{
    if part == own {
        count
    } else if part < own {
        part + 1
    } else {
        part
    }
}
