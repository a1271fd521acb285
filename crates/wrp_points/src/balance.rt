//! Whether as much of a point leaves each junction as enters it.
ghost use Rattle.std.specs.Prelude.{◌≡◌, ℕ, ◌*◌, ◌^◌, ◌<◌, ◌≤◌, length, [], unsigned_abs};
ghost use Rattle.wrp_rules.specs.Rules.{is_balanced};
ghost use Rattle.wrp_points.specs.Points.{AreNumbers, AreLegal};
ghost use Rattle.wrp_points.specs.Balances.{surplus_at, Shifts, HasSurplus, AreEven};

use wrp_town::Town;

/// Adds to the surplus of a junction.
fn shift(surplus: &mut [i128], junction: u32, amount: i128)
    requires inside { junction < length surplus.old }
    requires small { unsigned_abs (surplus_at surplus.old junction) ≤ 2 ^ 100 }
    requires small_amount { unsigned_abs amount ≤ 2 ^ 72 }
    ensures { Shifts junction amount surplus.old surplus.new }
{
    surplus[junction as usize] += amount;
}

/// Puts the surplus of each junction into a table of zeros.
fn put_surplus(town: &Town, numbers: &[(u32, u128)], surplus: &mut [i128])
    requires numbers { AreNumbers (2 * length town.now.streets) numbers.now }
    requires room { length town.now.junctions ≤ length surplus.old }
    requires clear { HasSurplus town.now [] surplus.old }
    ensures { HasSurplus town.now numbers.now surplus.new }
{
    for pair in numbers {
        let (arc, number) = *pair;
        shift(surplus, town.tail(arc), number as i128);
        shift(surplus, town.head(arc), -(number as i128));
    }
}

/// Takes it out again.
fn clear_surplus(town: &Town, numbers: &[(u32, u128)], surplus: &mut [i128])
    requires numbers { AreNumbers (2 * length town.now.streets) numbers.now }
    requires room { length town.now.junctions ≤ length surplus.old }
    requires full { HasSurplus town.now numbers.now surplus.old }
    ensures { HasSurplus town.now [] surplus.new }
{
    for pair in numbers {
        surplus[town.tail(pair.0) as usize] = 0;
        surplus[town.head(pair.0) as usize] = 0;
    }
}

/// Whether the ends of the listed arcs have no surplus.
fn are_even(town: &Town, numbers: &[(u32, u128)], surplus: &[i128]) -> bool
    requires numbers { AreNumbers (2 * length town.now.streets) numbers.now }
    requires room { length town.now.junctions ≤ length surplus.now }
    ensures { AreEven town.now numbers.now surplus.now result }
{
    for pair in numbers {
        let arc = pair.0;
        if surplus[town.tail(arc) as usize] != 0 || surplus[town.head(arc) as usize] != 0 {
            return false;
        }
    }
    true
}

/// Whether as much leaves each junction as enters it.
pub(crate) fn is_balanced(town: &Town, numbers: &[(u32, u128)], surplus: &mut [i128]) -> bool
    requires numbers { AreNumbers (2 * length town.now.streets) numbers.now }
    requires legal { AreLegal town.now numbers.now }
    requires room { length town.now.junctions ≤ length surplus.old }
    requires clear { HasSurplus town.now [] surplus.old }
    ensures clear { HasSurplus town.now [] surplus.new }
    ensures is_balanced { result ≡ is_balanced town.now numbers.now }
{
    put_surplus(town, numbers, surplus);
    let even = are_even(town, numbers, surplus);
    clear_surplus(town, numbers, surplus);
    even
}
