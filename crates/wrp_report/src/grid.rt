//! Towns that are drawn: grids of streets for demonstrations.
ghost use Rattle.std.specs.Prelude.{◌≡◌, ◌^◌, ◌<◌, ◌≤◌, ◌++◌, ◌==◌, if◌then◌else◌, true, length, IfOk, OnOk};
ghost use Rattle.std.specs.List.{All};
ghost use Rattle.std.specs.String.{string_bytes};
ghost use Rattle.wrp_town.specs.Names.{is_name};
ghost use Rattle.wrp_town.specs.declared.street.Need.TheVariants.{No, Either};
ghost use Rattle.wrp_street.specs.Tables.{table_in};
ghost use Rattle.wrp_report.specs.Grid.{next_state, drawn, point as point_text, street_text as text_of_street, end_point as text_of_end, may_be_one_way, cost_drawn, row_drawn, row_with as row_of_draws, state_after, plans_at, plans_in, plans_of, grid_of};

use std::alloc::{AllocError, Global};
use wrp_street::{Name, Need, Row, TableReader, Town};

/// A street of a grid: from the junction at `x` and `y` to the east, or to the south.
#[derive(Clone, Copy)]
struct Plan {
    east: bool,
    x: u32,
    y: u32,
}

/// A generator of numbers.
#[derive(Drop)]
struct Draws {
    state: u32,
}

impl Draws {
    /// The next number below a limit.
    fn draw(&mut self, below: u32) -> u32
        requires { 0 < below }
        ensures state { self.new.state ≡ next_state self.old.state }
        ensures value { result ≡ drawn below self.new.state }
    {
        let next = (1_103_515_245 * u64::from(self.state) + 12_345) % (1 << 31);
        self.state = next as u32;
        (self.state / 65_536) % below
    }
}

/// The town of a grid of junctions, with costs and needs that the seed gives. Every such town has a
/// tour.
///
/// # Errors
///
/// Want of memory alone.
pub fn town_of(alloc: Global, seed: u32, width: u32, height: u32) -> Result<Town, AllocError>
    requires seed { seed < 2 ^ 31 }
    requires width { width ≤ 20 }
    requires height { height ≤ 20 }
    ensures { IfOk result (λ town. table_in town ≡ grid_of seed width height) }
{
    let plans = plans_of(alloc, width, height)?;
    let mut draws = Draws { state: seed };
    let mut rows = TableReader::new(alloc);
    for plan in plans.as_slice() {
        rows.add(row_of(alloc, *plan, &mut draws)?)?;
    }
    Ok(rows.into_town(alloc)?)
}

/// The streets of a grid, in order.
fn plans_of(alloc: Global, width: u32, height: u32) -> Result<Vec<Plan>, AllocError>
    requires width { width ≤ 20 }
    requires height { height ≤ 20 }
    ensures { IfOk result (λ plans. plans.items ≡ plans_of width height) }
{
    let mut plans = Vec::new(alloc);
    for y in 0..height {
        push_row(&mut plans, width, height, y)?;
    }
    Ok(plans)
}

/// Adds the streets that begin in a row of junctions.
fn push_row(plans: &mut Vec<Plan>, width: u32, height: u32, y: u32) -> Result<(), AllocError>
    requires width { width ≤ 20 }
    requires y { y < 20 }
    ensures { OnOk result (plans.new.items ≡ plans.old.items ++ plans_in width height y) }
{
    for x in 0..width {
        push_at(plans, width, height, y, x)?;
    }
    Ok(())
}

/// Adds the streets that begin at a junction.
fn push_at(plans: &mut Vec<Plan>, width: u32, height: u32, y: u32, x: u32) -> Result<(), AllocError>
    requires x { x < 20 }
    requires y { y < 20 }
    ensures { OnOk result (plans.new.items ≡ plans.old.items ++ plans_at width height y x) }
{
    if x + 1 < width {
        plans.push(Plan { east: true, x, y })?;
    }
    if y + 1 < height {
        plans.push(Plan { east: false, x, y })?;
    }
    Ok(())
}

/// The name of a junction.
fn point(alloc: Global, x: u32, y: u32) -> Result<String, AllocError>
    ensures { IfOk result (λ text. string_bytes text ≡ point_text x y) }
{
    format!(in alloc; "{x}.{y}")
}

/// A text as a name.
fn name_of(alloc: Global, text: &str) -> Result<Name, AllocError>
    requires { is_name text.now ≡ true }
    ensures { IfOk result (λ name. name ≡ text.now) }
{
    Ok(Name::new(alloc, text.as_bytes())?.unwrap())
}

/// The name of a junction of a grid.
fn point_name(alloc: Global, x: u32, y: u32) -> Result<Name, AllocError>
    requires x { x ≤ 20 }
    requires y { y ≤ 20 }
    ensures { IfOk result (λ name. name ≡ point_text x y) }
{
    name_of(alloc, point(alloc, x, y)?.as_str())
}

/// The name of a street, as a text.
fn street_text(alloc: Global, plan: Plan) -> Result<String, AllocError>
    ensures { IfOk result (λ text. string_bytes text ≡ text_of_street plan) }
{
    let x = plan.x;
    let y = plan.y;
    if plan.east {
        format!(in alloc; "e{x}.{y}")
    } else {
        format!(in alloc; "s{x}.{y}")
    }
}

/// The name of a street.
fn street_name(alloc: Global, plan: Plan) -> Result<Name, AllocError>
    requires x { plan.x ≤ 20 }
    requires y { plan.y ≤ 20 }
    ensures { IfOk result (λ name. name ≡ text_of_street plan) }
{
    name_of(alloc, street_text(alloc, plan)?.as_str())
}

/// The name of the junction where a street ends.
fn end_name(alloc: Global, plan: Plan) -> Result<Name, AllocError>
    requires x { plan.x < 20 }
    requires y { plan.y < 20 }
    ensures { IfOk result (λ name. name ≡ text_of_end plan) }
{
    if plan.east {
        point_name(alloc, plan.x + 1, plan.y)
    } else {
        point_name(alloc, plan.x, plan.y + 1)
    }
}

/// The cost of a direction, where it is open.
fn cost_of(is_closed: bool, draw: u32) -> Option<u32>
    requires { draw < 9 }
    ensures { result ≡ cost_drawn is_closed draw }
{
    if is_closed { None } else { Some(draw + 1) }
}

/// Whether a street may have one direction alone.
fn is_choosy(plan: Plan) -> bool
    ensures { result ≡ may_be_one_way plan }
{
    plan.east && plan.y >= 1
}

/// A street with what was drawn for it.
fn row_with(
    alloc: Global,
    plan: Plan,
    forward: u32,
    backward: u32,
    kind: u32,
    need: u32,
) -> Result<Row, AllocError>
    requires x { plan.x < 20 }
    requires y { plan.y < 20 }
    requires forward { forward < 9 }
    requires backward { backward < 9 }
    ensures { IfOk result (λ row. row ≡ row_of_draws plan forward backward kind need) }
{
    Ok(Row {
        street: street_name(alloc, plan)?,
        from: point_name(alloc, plan.x, plan.y)?,
        to: end_name(alloc, plan)?,
        forward: cost_of(is_choosy(plan) && kind == 1, forward),
        backward: cost_of(is_choosy(plan) && kind == 0, backward),
        need: need_of(need),
    })
}

fn need_of(draw: u32) -> Need
    ensures { result ≡ (if draw == 1 then Either else No) }
{
    if draw == 1 { Need::Either } else { Need::No }
}

/// The street that is drawn next.
fn row_of(alloc: Global, plan: Plan, draws: &mut Draws) -> Result<Row, AllocError>
    requires x { plan.x < 20 }
    requires y { plan.y < 20 }
    ensures row { IfOk result (λ row. row ≡ row_drawn plan draws.old.state) }
    ensures state { draws.new.state ≡ state_after draws.old.state }
{
    let forward = draws.draw(9);
    let backward = draws.draw(9);
    let kind = draws.draw(4);
    let need = draws.draw(2);
    row_with(alloc, plan, forward, backward, kind, need)
}

#[cfg(test)]
mod tests {
    use super::*;
    use std::test::Fail;
    use wrp_street::canonical;

    #[test]
    fn towns_are_drawn(rt: HostRuntime) -> Result<(), Fail> {
        let alloc = rt.alloc();
        let table = canonical(alloc, &town_of(alloc, 1, 2, 1)?)?;
        assert_eq!(rt;
            table.as_slice(),
            b"street,from,to,forward,backward,need\ne0.0,0.0,1.0,9,8,yes\n".as_slice()
        );
        Ok(())
    }
}
