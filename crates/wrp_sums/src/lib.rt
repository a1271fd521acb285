//! Laws of whole numbers and of their sums over lists, of rounding up, and weak duality.
//!
//! Each function here does nothing: its clauses are the laws, which hold of every number and list.
#![tactic(auto)]

ghost use Rattle.std.specs.Prelude.{◌≡◌, ◌↔◌, IsTrue, ℕ, ◌+◌, ◌*◌, ◌<◌, ◌≤◌, ℤ, pos, ◌+ℤ◌, ◌-ℤ◌, ◌*ℤ◌, neg_ℤ, ◌≤ℤ◌, ◌<ℤ◌, Bool, cond, ◌==◌, ◌≢◌, List, ◌++◌, map, filter, length, take, get_or, Contains, AllPairs, sum_by, count_by};
ghost use Rattle.wrp_sums.specs.Sums.{sum_over, numbers_below, coef_at};
ghost use Rattle.wrp_sums.specs.Rounding.{ceil_div, IsCeilDiv};
ghost use Rattle.wrp_sums.specs.Duality.{Program, IsSolution, dual_value, cost_sum};

/// Products of whole numbers, and order under products.
pub fn product_laws()
    ensures distributes { (a b c : ℤ) → a *ℤ (b +ℤ c) ≡ a *ℤ b +ℤ a *ℤ c }
    ensures associates { (a b c : ℤ) → (a *ℤ b) *ℤ c ≡ a *ℤ (b *ℤ c) }
    ensures negates { (a b : ℤ) → a *ℤ neg_ℤ b ≡ neg_ℤ (a *ℤ b) }
    ensures scales { (n : ℕ) (b c : ℤ) → b ≤ℤ c → (pos n *ℤ b) ≤ℤ (pos n *ℤ c) }
    ensures cancels { (n : ℕ) (a b : ℤ) → 0 < n → (pos n *ℤ a) ≤ℤ (pos n *ℤ b) → a ≤ℤ b }
{}

/// Sums over a list of any elements: of a sum, scaled, with the same or greater terms at each
/// member, over two lists in a row, and with one element more.
pub fn sum_laws<T>()
    ensures adds { (f g : T → ℤ) (xs : List T)
        → sum_over (λ x. f x +ℤ g x) xs ≡ sum_over f xs +ℤ sum_over g xs }
    ensures scales { (a : ℤ) (f : T → ℤ) (xs : List T)
        → sum_over (λ x. a *ℤ f x) xs ≡ a *ℤ sum_over f xs }
    ensures zero { (xs : List T) → sum_over (λ x. pos 0) xs ≡ pos 0 }
    ensures same { (f g : T → ℤ) (xs : List T) → ((x : T) → Contains xs x → f x ≡ g x)
        → sum_over f xs ≡ sum_over g xs }
    ensures grows { (f g : T → ℤ) (xs : List T) → ((x : T) → Contains xs x → f x ≤ℤ g x)
        → sum_over f xs ≤ℤ sum_over g xs }
    ensures append { (f : T → ℤ) (xs ys : List T)
        → sum_over f (xs ++ ys) ≡ sum_over f xs +ℤ sum_over f ys }
    ensures one_more { (f : T → ℤ) (xs : List T) (i : ℕ) (d : T) → i < length xs
        → sum_over f (take (i + 1) xs) ≡ sum_over f (take i xs) +ℤ f (get_or xs i d) }
{}

/// Sums over a list that go over to another sum: of the elements that pass a test, of numbers that
/// are not negative, and a count.
pub fn choice_laws<T>()
    ensures filters { (f : T → ℤ) (p : T → Bool) (xs : List T)
        → sum_over f (filter p xs) ≡ sum_over (λ x. cond (p x) (f x) (pos 0)) xs }
    ensures naturals { (f : T → ℕ) (xs : List T)
        → sum_over (λ x. pos (f x)) xs ≡ pos (sum_by f xs) }
    ensures counts { (p : T → Bool) (xs : List T)
        → sum_over (λ x. cond (p x) (pos 1) (pos 0)) xs ≡ pos (count_by p xs) }
{}

/// Sums over two lists: through a function, and two sums exchanged.
pub fn exchange_laws<S, T>()
    ensures maps { (f : T → ℤ) (g : S → T) (xs : List S)
        → sum_over f (map g xs) ≡ sum_over (λ x. f (g x)) xs }
    ensures exchanges { (f : S → T → ℤ) (xs : List S) (ys : List T)
        → sum_over (λ x. sum_over (λ y. f x y) ys) xs
        ≡ sum_over (λ y. sum_over (λ x. f x y) xs) ys }
{}

/// The term at one number of a list of distinct numbers.
pub fn single_laws()
    ensures at { (f : ℕ → ℤ) (a : ℕ) (xs : List ℕ)
        → sum_over (λ x. cond (x == a) (f x) (pos 0)) xs ≡ pos (count_by (λ x. x == a) xs) *ℤ f a }
    ensures once { (a : ℕ) (xs : List ℕ) → AllPairs (λ x y. x ≢ y) xs → Contains xs a
        → count_by (λ x. x == a) xs ≡ 1 }
{}

/// The list of the first numbers, and those of them that pass a test.
pub fn first_numbers_laws()
    ensures below { (n i : ℕ) → Contains (numbers_below n) i ↔ (i < n) }
    ensures passing { (p : ℕ → Bool) (n a : ℕ) → a < n → IsTrue (p a)
        → count_by (λ x. x == a) (filter p (numbers_below n)) ≡ 1 }
    ensures one_more { (f : ℕ → ℤ) (p : ℕ → Bool) (i : ℕ)
        → sum_over f (filter p (numbers_below (i + 1)))
        ≡ sum_over f (filter p (numbers_below i)) +ℤ cond (p i) (f i) (pos 0) }
{}

/// Sparse rows: the sum over numbers, among which each number of the row stands once, is the sum
/// over the row's terms.
pub fn sparse_laws()
    ensures sums { (terms : List (ℕ × ℤ)) (x : ℕ → ℤ) (numbers : List ℕ)
        → ((t : ℕ × ℤ) → Contains terms t → count_by (λ a. a == t.0) numbers ≡ 1)
        → sum_over (λ a. coef_at terms a *ℤ x a) numbers ≡ sum_over (λ t. t.1 *ℤ x t.0) terms }
    ensures one_more { (terms : List (ℕ × ℤ)) (a j : ℕ) (d : ℕ × ℤ) → j < length terms
        → coef_at (take (j + 1) terms) a
        ≡ coef_at (take j terms) a
        +ℤ cond ((get_or terms j d).0 == a) (get_or terms j d).1 (pos 0) }
{}

/// Quotients that are rounded up: `ceil_div` is the only one, and it grows with the fraction.
pub fn rounding_laws()
    ensures rounds_up { (a : ℤ) (b : ℕ) → 0 < b → IsCeilDiv a b (ceil_div a b) }
    ensures unique { (a : ℤ) (b : ℕ) (q r : ℤ) → IsCeilDiv a b q → IsCeilDiv a b r → q ≡ r }
    ensures grows { (a c : ℤ) (b : ℕ) → 0 < b → a ≤ℤ c → ceil_div a b ≤ℤ ceil_div c b }
    ensures fractions { (v c : ℤ) (d e : ℕ) → 0 < d → 0 < e → (pos e *ℤ v) ≤ℤ (pos d *ℤ c)
        → ceil_div v d ≤ℤ ceil_div c e }
{}

/// Weak duality: multipliers of the rows bound the cost of each solution from below.
pub fn duality_laws()
    ensures scaled { (p : Program) (d e : ℕ) (multipliers : List (ℕ × ℕ)) (x : ℕ → ℕ)
        → IsSolution p e multipliers x
        → (pos e *ℤ dual_value p d multipliers) ≤ℤ (pos d *ℤ cost_sum p x) }
    ensures whole { (p : Program) (d : ℕ) (multipliers : List (ℕ × ℕ)) (x : ℕ → ℕ)
        → 0 < d → IsSolution p 1 multipliers x
        → ceil_div (dual_value p d multipliers) d ≤ℤ cost_sum p x }
    ensures none { (p : Program) (e : ℕ) (multipliers : List (ℕ × ℕ)) (x : ℕ → ℕ)
        → 0 < e → ((a : ℕ) → Contains p.arcs a → p.cost a ≡ 0)
        → pos 0 <ℤ dual_value p 1 multipliers → IsSolution p e multipliers x → ⊥ }
{}

#[cfg(test)]
mod tests {
    use super::*;

    #[test]
    fn laws_take_any_type() {
        product_laws();
        sum_laws::<u32>();
        choice_laws::<(u32, u64)>();
        exchange_laws::<(u32, u64), u32>();
        single_laws();
        first_numbers_laws();
        sparse_laws();
        rounding_laws();
        duality_laws();
    }
}
