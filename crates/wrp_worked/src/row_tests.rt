// What no clause says: that the rows of a town and the bounds that they give are on worked towns
// what their author means.
ghost use Rattle.std.specs.Prelude.{◌≡◌, ◌^◌, true, IsTrue};
ghost use Rattle.wrp_rules.specs.Ranges.{is_from_one, are_multipliers};
ghost use Rattle.wrp_rows.specs.Tables.{name_rows};
ghost use Rattle.wrp_rows.specs.Points.{AreBounds};

use std::alloc::{AllocError, Global};
use std::test::Fail;
use wrp_bound::{bound_of, empty_value};
use wrp_rows::{Bounds, RowFault, Rows};
use wrp_rules::{Record, Rule};
use wrp_street::{List, Town, read_town};
use wrp_town::demand_count;
use wrp_writer::writable;

// A street that costs more one way, and serves either way.
const WINDY: &[u8] = b"street,from,to,forward,backward,need\ne,A,B,2,3,yes\n";

// Whether these are bounds of the arcs of a town.
fn are_bounds(town: &Town, bounds: &Bounds) -> bool
    ensures { IsTrue result → AreBounds town.now bounds.now }
{
    let lo = bounds.lo.as_slice();
    let hi = bounds.hi.as_slice();
    let most = demand_count(town);
    if lo.len() != 2 * town.streets.len() || hi.len() != lo.len() {
        return false;
    }
    for arc in 0..lo.len() {
        if lo[arc] > hi[arc] || hi[arc] > most {
            return false;
        }
        if hi[arc] > 0 && town.cost(arc as u32).is_none() {
            return false;
        }
    }
    true
}

// Whether each pair names a row that is there.
fn name_rows(rows: &Rows<'_>, mult: &[(u32, u64)]) -> bool
    ensures { result ≡ name_rows rows.now.rows mult.now }
{
    mult.iter().all(|pair| pair.0 < rows.len())
}

// A copy of numbers.
fn numbers(alloc: Global, of: &[u32]) -> Result<List<u32>, AllocError> {
    Ok(List::from_vec(Vec::from_slice(alloc, of)?))
}

// Adds the odd cut of a set.
fn push_odd(alloc: Global, rows: &mut Rows<'_>, set: &[u32]) -> Result<(), RowFault> {
    let odd = Record::Odd {
        set: numbers(alloc, set)?,
    };
    if writable(&odd) {
        rows.push_cut(&odd)
    } else {
        Err(RowFault::Broken { rule: Rule::Range })
    }
}

// Whether a row has these terms and this right side.
fn has_row(rows: &Rows<'_>, row: u32, terms: &[(u32, i64)], right_side: i64) -> bool {
    row < rows.len() && rows.terms(row) == terms && rows.rhs(row) == right_side
}

// The bound and the value with every cost 0 that multipliers give within bounds of a town with one
// street; none where they are no bounds or name no rows.
fn bounds_by(
    alloc: Global,
    rows: &Rows<'_>,
    lo: &[u32],
    hi: &[u32],
    den: u64,
    mult: &[(u32, u64)],
) -> Result<Option<(i128, i128)>, AllocError>
    requires den { is_from_one (2 ^ 40) den ≡ true }
    requires mult { are_multipliers (2 ^ 60) mult.now ≡ true }
{
    let bounds = Bounds {
        lo: numbers(alloc, lo)?,
        hi: numbers(alloc, hi)?,
    };
    let town = rows.town();
    if town.streets.len() != 1 || !are_bounds(town, &bounds) || !name_rows(rows, mult) {
        return Ok(None);
    }
    let bound = bound_of(rows, &bounds, den, mult, &mut [7, 7]);
    let empty = empty_value(rows, &bounds, mult, &mut [7, 7]);
    Ok(Some((bound, empty)))
}

#[test]
fn rows_are_those_of_the_records(rt: HostRuntime) -> Result<(), Fail> {
    let alloc = rt.alloc();
    let town = read_town(alloc, WINDY)?;
    let mut rows = Rows::new(alloc, &town)?;
    assert_eq!(rt; rows.len(), 3);
    assert!(rt; has_row(&rows, 0, &[(0, 1), (1, -1)], 0));
    let whole = push_odd(alloc, &mut rows, &[0, 1]);
    assert!(rt; whole == Err(RowFault::Broken { rule: Rule::Even }));
    push_odd(alloc, &mut rows, &[0])?;
    assert_eq!(rt; rows.len(), 4);
    assert!(rt; has_row(&rows, 3, &[(0, 1), (1, 1)], 2));
    Ok(())
}

#[test]
fn bounds_are_the_costs(rt: HostRuntime) -> Result<(), Fail> {
    let alloc = rt.alloc();
    let town = read_town(alloc, WINDY)?;
    let mut rows = Rows::new(alloc, &town)?;
    let used = bounds_by(alloc, &rows, &[1, 0], &[1, 1], 1, &[(1, 3)])?;
    assert!(rt; used == Some((5, 0)));
    let unused = bounds_by(alloc, &rows, &[0, 0], &[0, 1], 1, &[(0, 1), (2, 1)])?;
    assert!(rt; unused == Some((1, 1)));
    push_odd(alloc, &mut rows, &[0])?;
    let least = bounds_by(alloc, &rows, &[0, 0], &[1, 1], 2, &[(1, 1), (3, 5)])?;
    assert!(rt; least == Some((5, 0)));
    let over = bounds_by(alloc, &rows, &[0, 0], &[1, 1], 2, &[(1, 1), (3, 6)])?;
    assert!(rt; over == Some((5, 0)));
    Ok(())
}
