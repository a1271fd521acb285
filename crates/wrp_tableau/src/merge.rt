//! Two sparse rows merged, each with a multiplier.

ghost use Rattle.std.specs.Prelude.{◌≡◌, ℕ, ◌+◌, ◌≤◌, ◌<◌, ◌^◌, ◌==◌, cond, ℤ, pos, ◌+ℤ◌, ◌*ℤ◌, unsigned_abs, length, take, All, AllPairs, ◌⊎◌, IfOk};
ghost use Rattle.wrp_sums.specs.Sums.{coef_at};
ghost use Rattle.wrp_tableau.specs.Sparse.{IsSparse, number_at};

use std::alloc::{AllocError, Global};

/// `a * x`.
fn product(a: i128, x: i128) -> i128
    requires a_small { unsigned_abs a ≤ 2 ^ 60 }
    requires x_small { unsigned_abs x ≤ 2 ^ 60 }
    ensures value { result ≡ a *ℤ x }
    ensures small { unsigned_abs result ≤ 2 ^ 120 }
{
    a * x
}

/// `a * x + b * y`.
pub fn weighted(a: i128, x: i128, b: i128, y: i128) -> i128
    requires a_small { unsigned_abs a ≤ 2 ^ 60 }
    requires x_small { unsigned_abs x ≤ 2 ^ 60 }
    requires b_small { unsigned_abs b ≤ 2 ^ 60 }
    requires y_small { unsigned_abs y ≤ 2 ^ 60 }
    ensures value { result ≡ a *ℤ x +ℤ b *ℤ y }
    ensures small { unsigned_abs result ≤ 2 ^ 121 }
{
    product(a, x) + product(b, y)
}

/// The entry at `number` where the term at the place `at` has that number, else 0, and the place
/// after it.
fn entry_at(terms: &[(u32, i128)], at: usize, number: u32) -> (i128, usize)
    requires { at ≤ length terms.now }
    ensures place { result.1 ≤ length terms.now }
    ensures later { at ≤ result.1 }
    ensures took { at < length terms.now → number_at terms.now at ≡ number → result.1 ≡ at + 1 }
    ensures after { AllPairs (λ s t. s.0 < t.0) terms.now
        → (at < length terms.now → number ≤ number_at terms.now at)
        → result.1 < length terms.now → number < number_at terms.now result.1 }
    ensures coef { (c : ℕ) → coef_at (take result.1 terms.now) c
        ≡ coef_at (take at terms.now) c +ℤ cond (number == c) result.0 (pos 0) }
    ensures small { All (λ t. unsigned_abs t.1 ≤ 2 ^ 60) terms.now
        → unsigned_abs result.0 ≤ 2 ^ 60 }
{
    if at < terms.len() && terms[at].0 == number {
        (terms[at].1, at + 1)
    } else {
        (0, at)
    }
}

/// The least number that comes next in two rows.
fn least_number(xs: &[(u32, i128)], i: usize, ys: &[(u32, i128)], j: usize) -> u32
    requires places { (i ≤ length xs.now) × (j ≤ length ys.now) }
    requires one { (i < length xs.now) ⊎ (j < length ys.now) }
    ensures left { i < length xs.now → result ≤ number_at xs.now i }
    ensures right { j < length ys.now → result ≤ number_at ys.now j }
    ensures there { ((i < length xs.now) × (result ≡ number_at xs.now i))
        ⊎ ((j < length ys.now) × (result ≡ number_at ys.now j)) }
{
    if i == xs.len() {
        ys[j].0
    } else if j == ys.len() {
        xs[i].0
    } else if xs[i].0 <= ys[j].0 {
        xs[i].0
    } else {
        ys[j].0
    }
}

/// The terms of `a * xs + b * ys`.
pub fn merged(
    alloc: Global,
    a: i128,
    xs: &[(u32, i128)],
    b: i128,
    ys: &[(u32, i128)],
) -> Result<Vec<(u32, i128)>, AllocError>
    requires a_small { unsigned_abs a ≤ 2 ^ 60 }
    requires b_small { unsigned_abs b ≤ 2 ^ 60 }
    requires left { IsSparse (2 ^ 60) xs.now }
    requires right { IsSparse (2 ^ 60) ys.now }
    ensures coefs { IfOk result (λ terms. (c : ℕ) → coef_at terms.items c
        ≡ a *ℤ coef_at xs.now c +ℤ b *ℤ coef_at ys.now c) }
    ensures sparse { IfOk result (λ terms. IsSparse (2 ^ 121) terms.items) }
{
    let mut terms = Vec::with_capacity(alloc, xs.len() + ys.len())?;
    let mut i = 0;
    let mut j = 0;
    while i < xs.len() || j < ys.len() {
        let number = least_number(xs, i, ys, j);
        let (left, next_i) = entry_at(xs, i, number);
        let (right, next_j) = entry_at(ys, j, number);
        let entry = weighted(a, left, b, right);
        if entry != 0 {
            terms.push((number, entry))?;
        }
        i = next_i;
        j = next_j;
    }
    Ok(terms)
}
