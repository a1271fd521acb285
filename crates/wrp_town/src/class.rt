//! Which kind of postman problem a town poses.
ghost use Rattle.std.specs.Prelude.{◌≡◌};
ghost use Rattle.std.specs.List.{list_all};
ghost use Rattle.wrp_town.specs.Classes.{has_one_direction_at_most, is_symmetric, is_directed_or_symmetric, class_of};

use crate::size::demand_count;
use crate::street::Street;
use crate::town::Town;

/// The class of a town: the first of these that holds.
#[derive(Clone, Copy, Debug, PartialEq, Eq)]
pub enum Class {
    /// There is no demand.
    Empty,
    /// Every street has at most one legal direction.
    Directed,
    /// Every street has two legal directions of equal cost.
    Rural,
    /// Every street has at most one legal direction, or two of equal cost.
    Mixed,
    /// Any other town.
    Windy,
}

// Whether at most one direction of the street is legal.
fn has_one_direction_at_most(street: &Street) -> bool
    ensures { result ≡ has_one_direction_at_most street.now }
{
    street.forward.is_none() || street.backward.is_none()
}

// Whether both directions of the street are legal, at equal cost.
fn is_symmetric(street: &Street) -> bool
    ensures { result ≡ is_symmetric street.now }
{
    match (street.forward, street.backward) {
        (Some(there), Some(back)) => there == back,
        _ => false,
    }
}

fn are_directed(streets: &[Street]) -> bool
    ensures { result ≡ list_all has_one_direction_at_most streets.now }
{
    streets
        .iter()
        .all(|street| has_one_direction_at_most(street))
}

fn are_symmetric(streets: &[Street]) -> bool
    ensures { result ≡ list_all is_symmetric streets.now }
{
    streets.iter().all(|street| is_symmetric(street))
}

fn are_directed_or_symmetric(streets: &[Street]) -> bool
    ensures { result ≡ list_all is_directed_or_symmetric streets.now }
{
    streets.iter().all(|street| has_one_direction_at_most(street) || is_symmetric(street))
}

/// The class of a town.
pub fn class_of(town: &Town) -> Class
    ensures { result ≡ class_of town.now }
{
    let streets = town.streets.as_slice();
    if demand_count(town) == 0 {
        Class::Empty
    } else if are_directed(streets) {
        Class::Directed
    } else if are_symmetric(streets) {
        Class::Rural
    } else if are_directed_or_symmetric(streets) {
        Class::Mixed
    } else {
        Class::Windy
    }
}
