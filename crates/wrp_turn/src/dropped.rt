//! The steps that are left of a walk over the turn town.
ghost use Rattle.std.specs.Prelude.{◌≡◌, IfOk};
ghost use Rattle.wrp_turn.specs.TurnTowns.{arcs_of, drop_turns};

use std::alloc::{AllocError, Global};
use wrp_town::{List, Step, Town};

/// The steps along the arcs whose streets a walk over the turn town uses, in order.
///
/// # Errors
///
/// Want of memory alone.
pub fn drop_turns(
    alloc: Global,
    town: &Town,
    expanded: &[Step],
    arcs: &[u32],
) -> Result<List<Step>, AllocError>
    requires { arcs.now ≡ arcs_of town.now }
    ensures { IfOk result (λ steps. steps ≡ drop_turns (arcs_of town.now) expanded.now) }
{
    let mut steps = List::new(alloc);
    for step in expanded {
        if (step.street as usize) < arcs.len() {
            steps.push(Step::along(arcs[step.street as usize]))?;
        }
    }
    Ok(steps)
}
