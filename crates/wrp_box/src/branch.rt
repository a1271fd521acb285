//! Where the box of a node is split.
ghost use Rattle.std.specs.Prelude.{◌≡◌, ◌⊎◌, ℕ, ◌*◌, ◌<◌, None, IfSome, length};
ghost use Rattle.wrp_rows.specs.Points.{AreBounds, IsPoint};
ghost use Rattle.wrp_odd.specs.Points.{HasNumbers};
ghost use Rattle.wrp_box.specs.Branching.{IsBranch, HoldOne, IsWithin, IsPartOf, PartsAt, PartsPoint, HasQuotients};

use wrp_odd::denominator;
use wrp_rows::{Bounds, Point};
use wrp_town::Town;

/// A split: the arc is used at most `k` times in the first half, and more often in the second.
#[derive(Clone, Copy, Debug, PartialEq, Eq)]
pub struct Branch {
    pub arc: u32,
    pub k: u32,
}

/// A branch, and how much is hoped of it.
#[derive(Clone, Copy)]
struct Choice {
    worth: u128,
    branch: Branch,
}

/// Where a box is split: at an arc whose number in the point isn't whole, the one that costs most by
/// its distance to a whole number, where there is one; else in the widest range. None where the box
/// holds one point.
pub fn branch_of(town: &Town, bounds: &Bounds, point: Option<&Point>) -> Option<Branch>
    requires bounds { AreBounds town.now bounds.now }
    requires point { IfSome point (λ p. IsPoint town.now p.now) }
    requires numbers { IfSome point (λ p. HasNumbers p.now) }
    requires within { IfSome point (λ p. IsWithin town.now bounds.now p.now) }
    ensures some { IfSome result (IsBranch town.now bounds.now) }
    ensures none { result ≡ None → HoldOne town.now bounds.now }
    ensures parts { IfSome point.entry (λ p. PartsPoint town.now result p.now) }
{
    let parting = match point {
        Some(point) => parting(town, point),
        None => None,
    };
    match parting {
        Some(choice) => Some(choice.branch),
        None => widest(town, bounds),
    }
}

/// The branch of most worth at an arc whose number isn't whole.
fn parting(town: &Town, point: &Point) -> Option<Choice>
    requires point { IsPoint town.now point.now }
    requires small { HasQuotients point.now }
    ensures some { IfSome result (λ choice. PartsAt town.now point.now choice.branch) }
    ensures none { result ≡ None → (arc : ℕ) → IsPartOf town.now point.now arc → ⊥ }
{
    let mut best: Option<Choice> = None;
    for arc in 0..2 * town.streets.len() as u32 {
        let other = parting_at(town, point, arc);
        best = better(best, other);
    }
    best
}

/// The better one of two choices.
fn better(first: Option<Choice>, second: Option<Choice>) -> Option<Choice>
    ensures either { (result ≡ first) ⊎ (result ≡ second) }
    ensures none { result ≡ None → (first ≡ None) × (second ≡ None) }
{
    match (first, second) {
        (Some(one), Some(two)) if two.worth > one.worth => Some(two),
        (None, two) => two,
        (one, _) => one,
    }
}

/// The branch at an arc whose number isn't whole.
fn parting_at(town: &Town, point: &Point, arc: u32) -> Option<Choice>
    requires point { IsPoint town.now point.now }
    requires small { HasQuotients point.now }
    requires arc { arc < 2 * length town.now.streets }
    ensures some { IfSome result (λ choice. PartsAt town.now point.now choice.branch) }
    ensures none { result ≡ None → IsPartOf town.now point.now arc → ⊥ }
{
    let den = denominator(point);
    let number = point.at.as_slice()[arc as usize].unsigned_abs();
    let part = number % den;
    if part == 0 {
        return None;
    }
    let k = number / den;
    let cost = u128::from(town.cost(arc).unwrap_or(0));
    Some(Choice {
        worth: part.min(den - part) * cost,
        branch: Branch { arc, k: k as u32 },
    })
}

/// The middle of the widest range, where some range has two numbers.
fn widest(town: &Town, bounds: &Bounds) -> Option<Branch>
    requires { AreBounds town.now bounds.now }
    ensures some { IfSome result (IsBranch town.now bounds.now) }
    ensures none { result ≡ None → HoldOne town.now bounds.now }
{
    let mut best = 0;
    let mut width = 0;
    for arc in 0..2 * town.streets.len() as u32 {
        let range = bounds.hi.as_slice()[arc as usize] - bounds.lo.as_slice()[arc as usize];
        if range > width {
            width = range;
            best = arc;
        }
    }
    if width == 0 {
        return None;
    }
    Some(Branch {
        arc: best,
        k: bounds.lo.as_slice()[best as usize] + (width - 1) / 2,
    })
}
