//! Whole numbers of 128 bits: quotients rounded up, greatest common divisors, and products within
//! a limit.
//!
//! No function here takes memory.
#![tactic(auto)]

ghost use Rattle.std.specs.Prelude.{◌≡◌, ◌≤◌, ◌<◌, ◌^◌, pos, ◌*ℤ◌, ◌≤ℤ◌, ◌<ℤ◌, unsigned_abs, SomeIff};
ghost use Rattle.std.specs.Int.{IsGcd};
ghost use Rattle.wrp_sums.specs.Rounding as rounding;

/// The least whole number `q` with `q * b >= a`.
pub fn ceil_div(a: i128, b: i128) -> i128
    requires positive { pos 0 <ℤ b }
    requires small { unsigned_abs a < 2 ^ 126 }
    ensures rounds_up { rounding.IsCeilDiv a (unsigned_abs b) result }
    ensures value { result ≡ rounding.ceil_div a (unsigned_abs b) }
{
    let quotient = a / b;
    if a % b > 0 { quotient + 1 } else { quotient }
}

/// The greatest common divisor, at least 0. That of 0 and 0 is 0.
pub fn gcd(a: i128, b: i128) -> i128
    requires small_a { unsigned_abs a < 2 ^ 126 }
    requires small_b { unsigned_abs b < 2 ^ 126 }
    ensures not_negative { pos 0 ≤ℤ result }
    ensures greatest { IsGcd (unsigned_abs a) (unsigned_abs b) (unsigned_abs result) }
    ensures of_zeros { a ≡ pos 0 → b ≡ pos 0 → result ≡ pos 0 }
{
    gcd_of_sizes(a.unsigned_abs(), b.unsigned_abs()) as i128
}

/// The greatest common divisor of two numbers that are not negative, by division with rest.
fn gcd_of_sizes(a: u128, b: u128) -> u128
    requires small_a { a < 2 ^ 126 }
    requires small_b { b < 2 ^ 126 }
    ensures greatest { IsGcd a b result }
    ensures small { result < 2 ^ 126 }
{
    let mut divisor = a;
    let mut rest = b;
    while rest != 0 {
        let next = divisor % rest;
        divisor = rest;
        rest = next;
    }
    divisor
}

/// The product, where it is at most `limit` in size.
pub fn mul_in(a: i128, b: i128, limit: i128) -> Option<i128>
    requires { pos 0 ≤ℤ limit }
    ensures { SomeIff result (unsigned_abs (a *ℤ b) ≤ unsigned_abs limit) (a *ℤ b) }
{
    let product = a.checked_mul(b)?;
    if product.unsigned_abs() <= limit.unsigned_abs() {
        Some(product)
    } else {
        None
    }
}

#[cfg(test)]
mod tests {
    use super::{ceil_div, gcd, mul_in};

    #[test]
    fn quotients_divisors_products(rt: HostRuntime) {
        assert!(rt; ceil_div(7, 2) == 4);
        assert!(rt; ceil_div(-7, 2) == -3);
        assert!(rt; gcd(-12, 18) == 6);
        assert!(rt; gcd(0, 0) == 0);
        assert!(rt; mul_in(-3, 4, 12) == Some(-12));
        assert!(rt; mul_in(-3, 4, 11) == None);
    }
}
