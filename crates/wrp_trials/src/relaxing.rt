//! The relaxation over the rows of a tree and the box of a node.
ghost use Rattle.std.specs.Prelude.{ℕ, ◌≡◌, IsTrue, IfOk, IfSome};
ghost use Rattle.wrp_rows.specs.Points.{AreBounds};
ghost use Rattle.wrp_round.specs.Optima.{IsOptimal};
ghost use Rattle.wrp_trials.specs.Relaxing.{IsAnswer};

use std::alloc::{AllocError, Global};
use wrp_box::{all_rows, relax_box};
use wrp_lp::Lp;
use wrp_round::round_candidates;
use wrp_rows::{Bounds, Rows};
use wrp_street::List;
use wrp_tree::Tree;

/// The most pivots of a relaxation.
const MOST_PIVOTS: u32 = 1000;

/// The box of a node, where it is there.
fn box_of(alloc: Global, tree: &Tree<'_>, node: u64) -> Result<Option<Bounds>, AllocError>
    ensures { IfOk result (λ found. IfSome found (AreBounds tree.now.town)) }
{
    if node >= tree.nodes() {
        return Ok(None);
    }
    let arcs = 2 * tree.rows().town().streets.len();
    let mut bounds = Bounds {
        lo: List::from_vec(vec![in alloc; 0; arcs]?),
        hi: List::from_vec(vec![in alloc; 0; arcs]?),
    };
    tree.box_of(node, &mut bounds);
    Ok(Some(bounds))
}

/// The relaxation over all rows and the box of a node, where it is there.
pub(crate) fn relaxed(
    alloc: Global,
    tree: &Tree<'_>,
    node: u64,
    pivots: u32,
) -> Result<Option<Lp>, AllocError>
    ensures { IfOk result (λ found. IfSome found IsAnswer) }
{
    let Some(bounds) = box_of(alloc, tree, node)? else {
        return Ok(None);
    };
    let rows = tree.rows();
    let chosen = all_rows(alloc, rows)?;
    let lp = relax_box(alloc, rows, &chosen, &bounds, pivots)?;
    Ok(Some(lp))
}

/// Whether a relaxation has an optimum.
fn is_optimal(lp: &Lp) -> bool
    ensures { IsTrue result → IsOptimal lp.now }
{
    match lp {
        Lp::Optimal { .. } => true,
        _ => false,
    }
}

/// How many roundings the optimum over all rows and the box of a node leads to, where there is one.
pub(crate) fn rounding_count(
    alloc: Global,
    tree: &Tree<'_>,
    node: u64,
) -> Result<Option<usize>, AllocError> {
    match box_of(alloc, tree, node)? {
        Some(bounds) => count_within(alloc, tree.rows(), &bounds),
        None => Ok(None),
    }
}

/// The same within some bounds.
fn count_within(
    alloc: Global,
    rows: &Rows<'_>,
    bounds: &Bounds,
) -> Result<Option<usize>, AllocError>
    requires { AreBounds rows.now.town bounds.now }
{
    let chosen = all_rows(alloc, rows)?;
    let lp = relax_box(alloc, rows, &chosen, bounds, MOST_PIVOTS)?;
    if !is_optimal(&lp) {
        return Ok(None);
    }
    let found = round_candidates(alloc, rows, &chosen, &lp)?;
    Ok(Some(found.len()))
}
