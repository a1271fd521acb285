ghost use Rattle.wrp_town.specs.Streets.{IsTown};

use crate::list::List;
use crate::name::Name;
use crate::street::Street;

/// The streets of a town and the junctions that they join.
///
/// Junctions are listed in the order in which the streets name them, the first end of a street
/// before its second. A town keeps within the limits of this crate.
#[derive(Debug, Drop)]
pub struct Town {
    pub junctions: List<Name>,
    pub streets: List<Street>,
    pub ghost well_formed: { IsTown junctions streets },
}

impl Town {
    ghost use Rattle.std.specs.Prelude.{◌≡◌, ◌*◌, ◌/◌, ◌<◌, ◌≤◌, Some, IfSome, length};
    ghost use Rattle.wrp_town.specs.Limits.{cost_limit};
    ghost use Rattle.wrp_town.specs.Arcs.{street_of, cost_of, tail_of, head_of};

    /// The street of an arc.
    fn street(&self, arc: u32) -> &Street
        requires { arc < 2 * length self.now.streets }
        ensures { street_of self.now arc ≡ Some result.now }
    {
        &self.streets.as_slice()[(arc / 2) as usize]
    }

    /// The junction that an arc leaves.
    pub fn tail(&self, arc: u32) -> u32
        requires { arc < 2 * length self.now.streets }
        ensures value { result ≡ tail_of self.now arc }
        ensures junction { result < length self.now.junctions }
    {
        let street = self.street(arc);
        if arc % 2 == 0 { street.from } else { street.to }
    }

    /// The junction that an arc enters.
    pub fn head(&self, arc: u32) -> u32
        requires { arc < 2 * length self.now.streets }
        ensures value { result ≡ head_of self.now arc }
        ensures junction { result < length self.now.junctions }
    {
        let street = self.street(arc);
        if arc % 2 == 0 { street.to } else { street.from }
    }

    /// The cost of driving an arc, and `None` where it is illegal.
    pub fn cost(&self, arc: u32) -> Option<u32>
        requires { arc < 2 * length self.now.streets }
        ensures value { result ≡ cost_of self.now arc }
        ensures limit { IfSome result (λ cost. cost ≤ cost_limit) }
    {
        let street = self.street(arc);
        if arc % 2 == 0 {
            street.forward
        } else {
            street.backward
        }
    }
}
