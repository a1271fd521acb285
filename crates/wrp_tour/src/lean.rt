//! Whether steps are a tour that uses no arc more often than there are demands.
ghost use Rattle.std.specs.Prelude.{◌≡◌, true, length, IfOk};
ghost use Rattle.wrp_town.specs.Walks.{is_tour};
ghost use Rattle.wrp_tour.specs.Tours.{UsesFew, IsLeanTour};

use std::alloc::{AllocError, Global};
use wrp_town::{Step, Town, demand_count, is_tour};

/// Tests steps that may be anything.
pub(crate) fn is_lean_tour(alloc: Global, town: &Town, steps: &[Step]) -> Result<bool, AllocError>
    ensures { IfOk result (λ is. is ≡ true → IsLeanTour town.now steps.now) }
{
    if !is_tour(town, steps) {
        return Ok(false);
    }
    uses_few(alloc, town, steps)
}

/// Whether a tour uses no arc more often than there are demands.
pub(crate) fn uses_few(alloc: Global, town: &Town, steps: &[Step]) -> Result<bool, AllocError>
    requires { is_tour town.now steps.now ≡ true }
    ensures { IfOk result (λ few. few ≡ true → UsesFew town.now steps.now) }
{
    let most = demand_count(town);
    let mut counts = vec![in alloc; 0; 2 * town.streets.len()]?;
    for step in steps {
        let arc = step.arc() as usize;
        if counts[arc] >= most {
            return Ok(false);
        }
        counts[arc] += 1;
    }
    Ok(true)
}
