//! The conditions of cuts by sets of junctions.
ghost use Rattle.std.specs.Prelude.{◌≡◌, ℕ, ◌<◌, List, [], ◌∷◌, length};
ghost use Rattle.wrp_town.specs.Arcs.{is_required};
ghost use Rattle.wrp_rules.specs.Sets.{is_parted};
ghost use Rattle.wrp_rules.specs.Rules.{streets_are_there, junctions_are_there};
ghost use Rattle.wrp_rows.specs.Marks.{AreMarks};

use wrp_town::Town;

/// Whether both streets are there.
pub(crate) fn streets_are_there(town: &Town, r1: u32, r2: u32) -> bool
    ensures { result ≡ streets_are_there town.now (r1 ∷ r2 ∷ []) }
{
    let streets = town.streets.len();
    (r1 as usize) < streets && (r2 as usize) < streets
}

/// Whether all junctions of a set are there.
pub(crate) fn junctions_are_there(town: &Town, set: &[u32]) -> bool
    ensures { result ≡ junctions_are_there town.now set.now }
{
    let junctions = town.junctions.len();
    set.iter().all(|junction| (*junction as usize) < junctions)
}

/// Whether a street has a demand.
pub(crate) fn is_required(town: &Town, street: u32) -> bool
    requires { street < length town.now.streets }
    ensures { result ≡ is_required town.now street }
{
    town.streets.as_slice()[street as usize].need.demand_count() > 0
}

/// Whether both streets are required, the first with both ends in the marked set and the second
/// with none.
pub(crate) fn is_parted(town: &Town, marks: &[bool], r1: u32, r2: u32) -> bool
    requires marks { length marks.now ≡ length town.now.junctions }
    requires r1 { r1 < length town.now.streets }
    requires r2 { r2 < length town.now.streets }
    ensures { (set : List ℕ) → AreMarks set marks.now → result ≡ is_parted town.now r1 r2 set }
{
    is_required(town, r1)
        && is_required(town, r2)
        && marks[town.tail(2 * r1) as usize]
        && marks[town.head(2 * r1) as usize]
        && !marks[town.tail(2 * r2) as usize]
        && !marks[town.head(2 * r2) as usize]
}
