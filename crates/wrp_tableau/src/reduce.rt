//! A row divided by the greatest common factor of its entries and its right side.

ghost use Rattle.std.specs.Prelude.{◌≡◌, ℕ, ◌≤◌, ◌<◌, ◌^◌, pos, ◌<ℤ◌, unsigned_abs, int_div, length, All, IsTrue, IfSome, None, SomeIff, false};
ghost use Rattle.std.specs.Int.{◌∣◌};
ghost use Rattle.wrp_tableau.specs.Equations.{common_factor};
ghost use Rattle.wrp_tableau.specs.Sparse.{IsSparse, AreBelow, dense, AreDivided, IsSomeWideDivided};
ghost use Rattle.wrp_tableau.specs.Rows.{IsStored, IsReduced, IsWideReduced};

use crate::row::Row;
use wrp_num::gcd;
use wrp_town::List;

/// The greatest common factor of the entries and the right side.
fn factor_of(terms: &[(u32, i128)], right: i128) -> i128
    requires sparse { IsSparse (2 ^ 121) terms.now }
    requires right_small { unsigned_abs right ≤ 2 ^ 121 }
    ensures value { (n : ℕ) → AreBelow n terms.now
        → result ≡ pos (common_factor n (dense terms.now right)) }
    ensures small { unsigned_abs result ≤ 2 ^ 121 }
    ensures divides { All (λ t. unsigned_abs result ∣ unsigned_abs t.1) terms.now }
    ensures positive { 0 < length terms.now → pos 0 <ℤ result }
{
    let mut factor = right.abs();
    for (_, entry) in terms {
        if factor == 1 {
            return 1;
        }
        factor = gcd(factor, *entry);
    }
    factor
}

/// An entry divided by a factor of it; most factors are 1.
fn divided(entry: i128, factor: i128) -> i128
    requires small { unsigned_abs entry ≤ 2 ^ 121 }
    requires positive { pos 0 <ℤ factor }
    ensures { result ≡ int_div entry factor }
{
    if factor == 1 {
        return entry;
    }
    entry / factor
}

/// An entry divided by a factor of it, where the quotient is at most 2^60 in size.
fn quotient(entry: i128, factor: i128) -> Option<i128>
    requires entry_small { unsigned_abs entry ≤ 2 ^ 121 }
    requires positive { pos 0 <ℤ factor }
    ensures { SomeIff result (unsigned_abs (int_div entry factor) ≤ 2 ^ 60)
        (int_div entry factor) }
{
    let quotient = divided(entry, factor);
    if quotient.unsigned_abs() > 1 << 60 {
        return None;
    }
    Some(quotient)
}

/// Divides each entry by a factor of it. Stops with `false` at one that is above 2^60 in size then.
fn divide_all(terms: &mut Vec<(u32, i128)>, factor: i128) -> bool
    requires small { All (λ t. unsigned_abs t.1 ≤ 2 ^ 121) terms.old.items }
    requires positive { pos 0 <ℤ factor }
    requires factor_small { unsigned_abs factor ≤ 2 ^ 121 }
    ensures divided { IsTrue result → AreDivided factor terms.old.items terms.new.items }
    ensures wide { result ≡ false → IsSomeWideDivided factor terms.old.items }
{
    for k in 0..terms.len() {
        let (number, entry) = terms[k];
        let Some(new) = quotient(entry, factor) else {
            return false;
        };
        terms[k] = (number, new);
    }
    true
}

/// The row of terms and a right side, divided by its greatest common factor. `None` where it is
/// wide then.
pub fn reduced_row(mut terms: Vec<(u32, i128)>, right: i128) -> Option<Row>
    requires sparse { IsSparse (2 ^ 121) terms.items }
    requires right_small { unsigned_abs right ≤ 2 ^ 121 }
    requires some { 0 < length terms.items }
    ensures ok { IfSome result (λ row. IsReduced terms.items right row) }
    ensures stored { IfSome result (λ row. IsStored row) }
    ensures wide { result ≡ None → IsWideReduced terms.items right }
{
    let factor = factor_of(terms.as_slice(), right);
    let Some(new_right) = quotient(right, factor) else {
        return None;
    };
    if !divide_all(&mut terms, factor) {
        return None;
    }
    Some(Row {
        terms: List::from_vec(terms),
        right: new_right,
    })
}
