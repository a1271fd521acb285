//! What demands and required streets say of a set of junctions or of a chain of sets.
ghost use Rattle.std.specs.Prelude.{◌≡◌, ◌<◌, length};
ghost use Rattle.std.specs.List.{count_by};
ghost use Rattle.wrp_town.specs.Streets.{forward_arc, demands_at};
ghost use Rattle.wrp_town.specs.Arcs.{is_required};
ghost use Rattle.wrp_rules.specs.Sets.{crosses, arc_at, crossing_demands, lies_in, lies_outside, is_parted};
ghost use Rattle.wrp_pool.specs.Cuts.{IsSetOf};

use crate::members::JunctionSet;
use wrp_town::{Need, Town};

/// Whether a street crosses the border of the set.
fn crosses(town: &Town, set: &JunctionSet, street: u32) -> bool
    requires there { street < length town.now.streets }
    requires set { IsSetOf town.now set.now }
    ensures { result ≡ crosses town.now set.now.set (forward_arc street) }
{
    set.contains(town.tail(2 * street)) != set.contains(town.head(2 * street))
}

/// How many demands of a street cross the border of the set.
#[tactic(auto, using(crate::proofs::Demands::crossing_here))]
fn crossing_at(town: &Town, set: &JunctionSet, street: u32, need: Need) -> u32
    requires there { street < length town.now.streets }
    requires set { IsSetOf town.now set.now }
    ensures count { result
        ≡ count_by (λ d. crosses town.now set.now.set (arc_at d)) (demands_at street need) }
    ensures few { result < 3 }
{
    if crosses(town, set, street) {
        need.demand_count()
    } else {
        0
    }
}

/// How many demands have a street that crosses the border of the set.
pub fn crossing_demands(town: &Town, set: &JunctionSet) -> u32
    requires { IsSetOf town.now set.now }
    ensures { result ≡ crossing_demands town.now set.now.set }
{
    let mut crossing = 0;
    for (i, street) in town.streets.as_slice().iter().enumerate() {
        crossing += crossing_at(town, set, i as u32, street.need);
    }
    crossing
}

/// Whether a street has a demand.
pub(crate) fn is_required(town: &Town, street: u32) -> bool
    requires { street < length town.now.streets }
    ensures { result ≡ is_required town.now street }
{
    town.streets.as_slice()[street as usize].need != Need::No
}

/// Whether a street has both ends in the set.
fn lies_in(town: &Town, set: &JunctionSet, street: u32) -> bool
    requires there { street < length town.now.streets }
    requires set { IsSetOf town.now set.now }
    ensures { result ≡ lies_in town.now set.now.set street }
{
    set.contains(town.tail(2 * street)) && set.contains(town.head(2 * street))
}

/// Whether a street has no end in the set.
fn lies_outside(town: &Town, set: &JunctionSet, street: u32) -> bool
    requires there { street < length town.now.streets }
    requires set { IsSetOf town.now set.now }
    ensures { result ≡ lies_outside town.now set.now.set street }
{
    !set.contains(town.tail(2 * street)) && !set.contains(town.head(2 * street))
}

/// Whether two streets are required, one in the set and one outside.
pub fn is_parted(town: &Town, inside: u32, outside: u32, set: &JunctionSet) -> bool
    requires inside { inside < length town.now.streets }
    requires outside { outside < length town.now.streets }
    requires set { IsSetOf town.now set.now }
    ensures { result ≡ is_parted town.now inside outside set.now.set }
{
    is_required(town, inside)
        && is_required(town, outside)
        && lies_in(town, set, inside)
        && lies_outside(town, set, outside)
}
