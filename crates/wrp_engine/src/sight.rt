//! What a round sees of a node, before it changes the list.
ghost use Rattle.std.specs.Prelude.{◌≡◌, ◌<◌, ◌^◌, IfOk};
ghost use Rattle.wrp_engine.specs.Desks.{IsDeskOf};
ghost use Rattle.wrp_engine.specs.Sights.{IsSight, shown_point};

use crate::cuts::cuts_of;
use crate::desk::Desk;
use std::alloc::{AllocError, Global};
use wrp_box::{all_rows, relax_box, shown_record};
use wrp_lp::Lp;
use wrp_rows::Point;
use wrp_rules::Record;
use wrp_tree::Tree;

/// The most pivots of a relaxation.
const MOST_PIVOTS: u32 = 20_000;

/// What the relaxation over all rows of the list and the box of a node shows.
pub(crate) struct Sight {
    /// The Bound or Empty of the node that it gives.
    pub(crate) shown: Option<Record>,
    /// Its point.
    pub(crate) point: Option<Point>,
    /// Cuts that the point breaks.
    pub(crate) cuts: Vec<Record>,
}

/// Looks at the node whose box lies on the desk, in the given round of its turn.
pub(crate) fn look(
    alloc: Global,
    desk: &Desk<'_, '_>,
    tree: &Tree<'_>,
    node: u64,
    round: u32,
) -> Result<Sight, AllocError>
    requires desk { IsDeskOf tree.now.town tree.now.records node desk.now }
    requires small { node < 2 ^ 63 }
    ensures { IfOk result (IsSight tree.now.town tree.now.records node round) }
{
    let rows = tree.rows();
    let chosen = all_rows(alloc, rows)?;
    let lp = relax_box(alloc, rows, &chosen, &desk.bounds, MOST_PIVOTS)?;
    let shown = shown_record(alloc, node, &lp)?;
    let cuts = cuts_of(alloc, desk.parts, rows, &chosen, &lp, round)?;
    Ok(Sight {
        shown,
        point: point_of(lp),
        cuts,
    })
}

/// The point of an optimum.
fn point_of(lp: Lp) -> Option<Point>
    ensures { result ≡ shown_point lp }
{
    match lp {
        Lp::Optimal { point, .. } => Some(point),
        _ => None,
    }
}
