//! The rules of a point, behind those of its node and of the arcs.
ghost use Rattle.std.specs.Prelude.{◌≡◌, ℕ, ◌*◌, ◌<◌, true, List, map, length};
ghost use Rattle.std.specs.List.{list_all};
ghost use Rattle.wrp_town.specs.declared.town.Town.{Town};
ghost use Rattle.wrp_rules.specs.declared.record.Record.TheVariants.{Point};
ghost use Rattle.wrp_rules.specs.Contents.{has_number_rules};
ghost use Rattle.wrp_rules.specs.Nodes.{Standing};
ghost use Rattle.wrp_rules.specs.Rules.{int_eq, is_balanced, is_served};
ghost use Rattle.wrp_nodes.specs.Kept.{AreLinked, HasNodes};
ghost use Rattle.wrp_nodes.specs.Tables.{IsAtRest};
ghost use Rattle.wrp_points.specs.Points.{AreNumbers, AreLegal, rule_of_point};
ghost use Rattle.wrp_points.specs.Demands.{arcs_of, is_inside, AreSmall};
ghost use Rattle.wrp_points.specs.Tables.{HaveNumbers, AreClear};

use crate::balance::is_balanced;
use crate::numbers::{clear_numbers, put_numbers};
use crate::price::price;
use crate::service::meets_all;
use crate::tables::Tables;
use crate::within::is_in_box;
use wrp_nodes::{Boxes, Nodes};
use wrp_rules::Rule;
use wrp_town::Town;

/// Whether two numbers are equal.
fn are_equal(a: i128, b: i128) -> bool
    ensures { result ≡ int_eq a b }
{
    a <= b && b <= a
}

/// Whether as much leaves each junction as enters it.
fn is_even(town: &Town, numbers: &[(u32, u128)], tables: &mut Tables) -> bool
    requires numbers { AreNumbers (2 * length town.now.streets) numbers.now }
    requires legal { AreLegal town.now numbers.now }
    requires full { HaveNumbers town.now numbers.now tables.old }
    ensures full { HaveNumbers town.now numbers.now tables.new }
    ensures is_balanced { result ≡ is_balanced town.now numbers.now }
{
    is_balanced(town, numbers, &mut tables.surplus)
}

/// Whether the numbers in the tables serve each demand.
fn is_served(tables: &Tables, denominator: u64) -> bool
    requires inside { list_all (is_inside (length tables.now.numbers.items))
        (map arcs_of tables.now.demands) ≡ true }
    requires small { AreSmall tables.now.numbers.items }
    ensures { (town : Town) (pairs : List (ℕ × ℕ)) → HaveNumbers town pairs tables.now
        → AreLegal town pairs → result ≡ is_served town denominator pairs }
{
    meets_all(&tables.numbers, denominator, tables.demands.as_slice())
}

/// The first of Box, Balance, Service and Price that a point breaks: numbers of legal arcs, over a
/// denominator, at a node. Afterwards the tables are at rest again.
pub fn broken_point(
    town: &Town,
    boxes: &mut Boxes,
    nodes: &Nodes,
    node: u64,
    denominator: u64,
    numbers: &[(u32, u128)],
    tables: &mut Tables,
) -> Option<Rule>
    requires rest { IsAtRest town.now boxes.old }
    requires clear { AreClear town.now tables.old }
    requires linked { AreLinked (2 * length town.now.streets) nodes.now }
    requires there { node < length nodes.now }
    requires numbers { has_number_rules (Point node denominator numbers.now) ≡ true }
    requires legal { AreLegal town.now numbers.now }
    ensures rest { IsAtRest town.now boxes.new }
    ensures clear { AreClear town.now tables.new }
    ensures rule { (s : Standing) → HasNodes town.now nodes.now s.nodes
        → result ≡ rule_of_point town.now s node denominator numbers.now }
{
    put_numbers(numbers, &mut tables.numbers);
    let broken = broken_by_tables(town, boxes, nodes, node, denominator, numbers, tables);
    clear_numbers(numbers, &mut tables.numbers);
    broken
}

/// The same, where the numbers stand in the tables.
fn broken_by_tables(
    town: &Town,
    boxes: &mut Boxes,
    nodes: &Nodes,
    node: u64,
    denominator: u64,
    numbers: &[(u32, u128)],
    tables: &mut Tables,
) -> Option<Rule>
    requires rest { IsAtRest town.now boxes.old }
    requires full { HaveNumbers town.now numbers.now tables.old }
    requires linked { AreLinked (2 * length town.now.streets) nodes.now }
    requires there { node < length nodes.now }
    requires numbers { has_number_rules (Point node denominator numbers.now) ≡ true }
    requires legal { AreLegal town.now numbers.now }
    ensures rest { IsAtRest town.now boxes.new }
    ensures full { HaveNumbers town.now numbers.now tables.new }
    ensures rule { (s : Standing) → HasNodes town.now nodes.now s.nodes
        → result ≡ rule_of_point town.now s node denominator numbers.now }
{
    if !is_in_box(
        town,
        boxes,
        nodes,
        node,
        denominator,
        numbers,
        &tables.numbers,
    ) {
        Some(Rule::Box)
    } else if !is_even(town, numbers, tables) {
        Some(Rule::Balance)
    } else if !is_served(tables, denominator) {
        Some(Rule::Service)
    } else if !are_equal(price(town, denominator, numbers), nodes.bound(node)) {
        Some(Rule::Price)
    } else {
        None
    }
}
