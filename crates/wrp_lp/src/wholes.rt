//! The least denominator that makes whole what is read off a tableau.

ghost use Rattle.std.specs.Prelude.{◌≡◌, ◌≢◌, ◌+◌, ◌≤◌, ◌<◌, ◌^◌, pos, unsigned_abs, length, None, IfSome};
ghost use Rattle.wrp_tableau.specs.Kept.{system};
ghost use Rattle.wrp_tableau.specs.Soundness.{IsSound};
ghost use Rattle.wrp_lp.specs.Reading.{MakesWhole, IsLeastDen};
ghost use Rattle.wrp_lp.specs.Wholes.{IsDen, IsDenOf, AreLarge, IsWholeMultiple, IsFactorFor, AreValuesWhole, AreMultipliersWhole};

use wrp_num::{gcd, mul_in};
use wrp_tableau::Tableau;

/// The greatest denominator of a point.
const MOST_DENOMINATOR: i128 = 1 << 60;

/// By what to multiply a denominator so that it makes a fraction whole.
fn factor_for(den: i128, numerator: i128, denominator: i128) -> i128
    requires den { IsDen den }
    requires numerator { unsigned_abs numerator ≤ 2 ^ 60 }
    requires denominator { unsigned_abs denominator ≤ 2 ^ 60 }
    requires some { denominator ≢ pos 0 }
    ensures { IsFactorFor den numerator denominator result }
{
    denominator.abs() / gcd(den * numerator, denominator)
}

/// The least multiple of a denominator that makes a fraction whole. `None` where it is too large.
fn widened(den: i128, numerator: i128, denominator: i128) -> Option<i128>
    requires den { IsDen den }
    requires numerator { unsigned_abs numerator ≤ 2 ^ 60 }
    requires denominator { unsigned_abs denominator ≤ 2 ^ 60 }
    requires some { denominator ≢ pos 0 }
    ensures some { IfSome result (IsDenOf (IsWholeMultiple den numerator denominator)) }
    ensures none { result ≡ None → AreLarge (IsWholeMultiple den numerator denominator) }
{
    mul_in(
        den,
        factor_for(den, numerator, denominator),
        MOST_DENOMINATOR,
    )
}

/// The least multiple of a denominator that makes the value of a row whole, where its basic
/// variable is structural.
fn with_value(tableau: &Tableau, width: u32, r: u32, den: i128) -> Option<i128>
    requires width { width ≡ (system tableau.now).width }
    requires sound { IsSound (system tableau.now) }
    requires there { r < length tableau.now.rows }
    requires den { IsDenOf (AreValuesWhole (system tableau.now) r) den }
    ensures some { IfSome result (IsDenOf (AreValuesWhole (system tableau.now) (r + 1))) }
    ensures none { result ≡ None → AreLarge (AreValuesWhole (system tableau.now) (r + 1)) }
{
    let basic = tableau.basic(r);
    if basic >= width {
        return Some(den);
    }
    widened(den, tableau.right(r), tableau.entry(r, basic))
}

/// The least denominator that makes the values of the structural variables whole.
fn values_den(tableau: &Tableau, width: u32) -> Option<i128>
    requires width { width ≡ (system tableau.now).width }
    ensures some { IfSome result
        (IsDenOf (AreValuesWhole (system tableau.now) (length tableau.now.rows))) }
    ensures none { result ≡ None
        → AreLarge (AreValuesWhole (system tableau.now) (length tableau.now.rows)) }
{
    let mut den = 1;
    for r in 0..tableau.rows() {
        let Some(next) = with_value(tableau, width, r, den) else {
            return None;
        };
        den = next;
    }
    Some(den)
}

/// The least multiple of a denominator that makes the multipliers of the first `n` lines whole.
fn multipliers_den(tableau: &Tableau, width: u32, n: u32, least: i128) -> Option<i128>
    requires width { width ≡ (system tableau.now).width }
    requires few { width + n < 2 ^ 32 }
    requires least { IsDen least }
    ensures some { IfSome result (IsDenOf (AreMultipliersWhole (system tableau.now) least n)) }
    ensures none { result ≡ None → AreLarge (AreMultipliersWhole (system tableau.now) least n) }
{
    let mut den = least;
    for i in 0..n {
        let Some(next) = widened(den, tableau.reduced(width + i), tableau.scale()) else {
            return None;
        };
        den = next;
    }
    Some(den)
}

/// The least denominator that makes the values of the structural variables and the multipliers of
/// the first `n` lines whole. `None` where it is above 2^60.
pub fn least_den(tableau: &Tableau, width: u32, n: u32) -> Option<i128>
    requires width { width ≡ (system tableau.now).width }
    requires few { width + n < 2 ^ 32 }
    ensures range { IfSome result IsDen }
    ensures least { IfSome result (λ den.
        IsLeastDen (system tableau.now) n (unsigned_abs den)) }
    ensures none { result ≡ None → AreLarge (MakesWhole (system tableau.now) n) }
{
    let den = values_den(tableau, width)?;
    multipliers_den(tableau, width, n, den)
}
