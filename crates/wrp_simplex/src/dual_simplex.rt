//! A run of dual simplex steps.

ghost use Rattle.std.specs.Prelude.{◌≡◌, ◌≤◌, ◌^◌, unsigned_abs, [], length, IfOk};
ghost use Rattle.wrp_tableau.specs.Starts.{IsLine};
ghost use Rattle.wrp_tableau.specs.Kept.{system};
ghost use Rattle.wrp_simplex.specs.Steps.{IsDualFeasible};
ghost use Rattle.wrp_simplex.specs.Ends.{EndsSo};
ghost use Rattle.wrp_simplex.specs.Runs.{IsRunFrom};

use crate::end::RunEnd;
use crate::entering::entering_column;
use crate::leaving::leaving_row;
use std::alloc::AllocError;
use wrp_tableau::{PivotFault, Tableau};

/// Does dual simplex steps, at most `limit`, and lists them. Tells why there is no further one.
///
/// # Errors
///
/// Want of memory. The steps so far are done and listed then, too.
pub fn run(
    tableau: &mut Tableau,
    limit: u32,
    taken: &mut Vec<(u32, u32)>,
) -> Result<RunEnd, AllocError>
    requires empty { taken.old.items ≡ [] }
    requires dual { IsDualFeasible (system tableau.old) }
    ensures run { IsRunFrom (system tableau.old) taken.new.items (system tableau.new) }
    ensures within { length taken.new.items ≤ limit }
    ensures end { IfOk result (λ end.
        EndsSo (system tableau.new) limit (length taken.new.items) end) }
{
    let rows = tableau.rows();
    let mut steps: u32 = 0;
    while steps < limit {
        let Some(row) = leaving_row(tableau, rows, steps) else {
            return Ok(RunEnd::Optimal);
        };
        let Some(column) = entering_column(tableau, row) else {
            return Ok(RunEnd::Empty { row });
        };
        taken.push((row, column))?;
        if let Err(fault) = tableau.pivot(row, column) {
            taken.pop();
            return match fault {
                PivotFault::Wide => Ok(RunEnd::Wide),
                PivotFault::Memory => Err(AllocError),
            };
        }
        steps += 1;
    }
    match leaving_row(tableau, rows, steps) {
        None => Ok(RunEnd::Optimal),
        Some(_) => Ok(RunEnd::Pivots),
    }
}

#[cfg(test)]
mod tests {
    use super::run;
    use crate::end::RunEnd;
    use std::alloc::{AllocError, Global};
    use std::test::Fail;
    use wrp_tableau::{Line, Tableau};
    use wrp_town::List;

    // The line `a * x + b * y >= rhs`.
    fn line(alloc: Global, a: i128, b: i128, rhs: i128) -> Result<Line, AllocError>
        requires a { unsigned_abs a ≤ 2 ^ 60 }
        requires b { unsigned_abs b ≤ 2 ^ 60 }
        requires rhs { unsigned_abs rhs ≤ 2 ^ 60 }
        ensures { IfOk result (λ line. IsLine 2 line) }
    {
        let coefs = List::from_vec(vec![in alloc; a, b]?);
        Ok(Line { coefs, rhs })
    }

    // The tableau of two lines, with the cost 1 for each variable.
    fn tableau(alloc: Global, first: Line, second: Line) -> Result<Tableau, AllocError>
        requires first { IsLine 2 first }
        requires second { IsLine 2 second }
        ensures { IfOk result (λ t. IsDualFeasible (system t)) }
    {
        let lines = vec![in alloc; first, second]?;
        let tableau = Tableau::start(alloc, 2, lines.as_slice(), [1, 1].as_slice())?;
        Ok(tableau)
    }

    #[test]
    fn one_step_mends_both_rows(rt: HostRuntime) -> Result<(), Fail> {
        let alloc = rt.alloc();
        let mut tableau = tableau(alloc, line(alloc, 1, 0, 1)?, line(alloc, 1, 2, 1)?)?;
        let mut taken = Vec::new(alloc);
        assert!(rt; run(&mut tableau, 10, &mut taken)? == RunEnd::Optimal);
        assert_eq!(rt; taken.as_slice(), [(0, 0)].as_slice());
        assert!(rt; tableau.value() == 1);
        Ok(())
    }

    #[test]
    fn the_cheapest_column_enters(rt: HostRuntime) -> Result<(), Fail> {
        let alloc = rt.alloc();
        let mut tableau = tableau(alloc, line(alloc, 1, 0, 1)?, line(alloc, 1, 2, 3)?)?;
        let mut taken = Vec::new(alloc);
        assert!(rt; run(&mut tableau, 10, &mut taken)? == RunEnd::Optimal);
        assert_eq!(rt; taken.as_slice(), [(1, 1), (0, 0)].as_slice());
        Ok(())
    }

    #[test]
    fn a_line_without_solutions_is_stuck(rt: HostRuntime) -> Result<(), Fail> {
        let alloc = rt.alloc();
        let mut tableau = tableau(alloc, line(alloc, 1, 0, 1)?, line(alloc, -1, 0, 1)?)?;
        let mut taken = Vec::new(alloc);
        assert!(rt; run(&mut tableau, 10, &mut taken)? == RunEnd::Empty { row: 1 });
        assert_eq!(rt; taken.as_slice(), [(0, 0)].as_slice());
        Ok(())
    }

    #[test]
    fn no_steps_within_a_limit_of_none(rt: HostRuntime) -> Result<(), Fail> {
        let alloc = rt.alloc();
        let mut tableau = tableau(alloc, line(alloc, 1, 0, 1)?, line(alloc, 1, 2, 1)?)?;
        let mut taken = Vec::new(alloc);
        assert!(rt; run(&mut tableau, 0, &mut taken)? == RunEnd::Pivots);
        assert!(rt; taken.is_empty());
        Ok(())
    }

    #[test]
    fn large_entries_are_refused(rt: HostRuntime) -> Result<(), Fail> {
        let alloc = rt.alloc();
        let first = line(alloc, (1 << 40) + 1, 1, 2)?;
        let second = line(alloc, 1, (1 << 40) + 3, 1)?;
        let mut tableau = tableau(alloc, first, second)?;
        let mut taken = Vec::new(alloc);
        assert!(rt; run(&mut tableau, 10, &mut taken)? == RunEnd::Wide);
        assert!(rt; taken.is_empty());
        Ok(())
    }
}
