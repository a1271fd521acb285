//! What a point costs.
ghost use Rattle.std.specs.Prelude.{◌≡◌, ◌*◌, ◌^◌, ◌≤◌, true, length};
ghost use Rattle.std.specs.List.{sum_by};
ghost use Rattle.wrp_town.specs.Arcs.{cost_or_zero};
ghost use Rattle.wrp_rules.specs.Ranges.{is_from_one};
ghost use Rattle.wrp_rules.specs.Rules.{price_of};
ghost use Rattle.wrp_points.specs.Points.{AreNumbers, AreLegal};

use wrp_num::ceil_div;
use wrp_town::Town;

/// The costs of the arcs, times their numbers.
fn cost_sum(town: &Town, numbers: &[(u32, u128)]) -> u128
    requires { AreNumbers (2 * length town.now.streets) numbers.now }
    ensures cost { result ≡ sum_by (λ q. cost_or_zero town.now q.0 * q.1) numbers.now }
    ensures small { result ≤ 2 ^ 120 }
{
    let mut total = 0;
    for pair in numbers {
        let (arc, number) = *pair;
        total += u128::from(town.cost(arc).unwrap_or(0)) * number;
    }
    total
}

/// What a point costs over its denominator, rounded up.
pub(crate) fn price(town: &Town, denominator: u64, numbers: &[(u32, u128)]) -> i128
    requires numbers { AreNumbers (2 * length town.now.streets) numbers.now }
    requires legal { AreLegal town.now numbers.now }
    requires denominator { is_from_one (2 ^ 60) denominator ≡ true }
    ensures { result ≡ price_of town.now denominator numbers.now }
{
    ceil_div(cost_sum(town, numbers) as i128, i128::from(denominator))
}
