//! Judging cuts and making their rows.
ghost use Rattle.std.specs.Prelude.{◌≡◌, ℕ, ◌+◌, ◌*◌, ◌≤◌, true, pos, map, length, IfOk, OnOk};
ghost use Rattle.std.specs.List.{All};
ghost use Rattle.wrp_rules.specs.declared.record.Record.TheVariants.{Conn, Odd, Kc};
ghost use Rattle.wrp_town.specs.Limits.{demand_limit};
ghost use Rattle.wrp_rules.specs.Sets.{crossing_demands};
ghost use Rattle.wrp_rules.specs.Rows.{joining_demands};
ghost use Rattle.wrp_rules.specs.Nodes.{Standing};
ghost use Rattle.wrp_rules.specs.Rules.{is_partition, has_room};
ghost use Rattle.wrp_rows.specs.Marks.{AreMarks};
ghost use Rattle.wrp_rows.specs.Making.{cut_rule, Judges, IsBenchOf};

use crate::chain::{is_chain, is_partition};
use crate::gather::demands_by;
use crate::marks::mark;
use crate::pattern::Pattern;
use crate::sets::{is_parted, junctions_are_there, streets_are_there};
use std::alloc::{AllocError, Global};
use wrp_rules::Rule;
use wrp_town::Town;

/// Room for judging cuts and making their rows. What stands there from earlier cuts makes no
/// difference.
#[derive(Debug, Drop)]
pub(crate) struct Bench {
    /// A mark for each junction.
    pub(crate) marks: Vec<bool>,
    /// A sum for each arc.
    pub(crate) sums: Vec<i128>,
    /// The terms of the row that was made last.
    pub(crate) terms: Vec<(u32, i64)>,
}

impl Bench {
    /// A bench for the cuts of a town.
    pub(crate) fn new(alloc: Global, town: &Town) -> Result<Bench, AllocError>
        ensures { IfOk result (IsBenchOf town.now) }
    {
        Ok(Bench {
            marks: vec![in alloc; false; town.junctions.len()]?,
            sums: vec![in alloc; 0; 2 * town.streets.len()]?,
            terms: Vec::new(alloc),
        })
    }
}

/// Judges a connectivity cut, and marks its set.
pub(crate) fn judge_conn(
    town: &Town,
    marks: &mut [bool],
    room: bool,
    r1: u32,
    r2: u32,
    set: &[u32],
) -> Result<(), Rule>
    requires { length marks.old ≡ length town.now.junctions }
    ensures judged { (s : Standing) → room ≡ has_room s
        → Judges (cut_rule town.now s (Conn r1 r2 set.now)) result }
    ensures room { OnOk result (room ≡ true) }
    ensures marks { OnOk result (AreMarks set.now marks.new) }
{
    if !(streets_are_there(town, r1, r2) && junctions_are_there(town, set)) {
        return Err(Rule::Range);
    }
    if !room {
        return Err(Rule::Cuts);
    }
    mark(marks, set);
    if is_parted(town, marks, r1, r2) {
        Ok(())
    } else {
        Err(Rule::Cross)
    }
}

/// Judges an odd cut, and marks its set. Returns the number of demands that cross it.
pub(crate) fn judge_odd(
    town: &Town,
    marks: &mut [bool],
    room: bool,
    set: &[u32],
) -> Result<u32, Rule>
    requires { length marks.old ≡ length town.now.junctions }
    ensures judged { (s : Standing) → room ≡ has_room s
        → Judges (cut_rule town.now s (Odd set.now)) result }
    ensures room { OnOk result (room ≡ true) }
    ensures marks { OnOk result (AreMarks set.now marks.new) }
    ensures count { IfOk result (λ crossing. crossing ≡ crossing_demands town.now set.now) }
    ensures few { IfOk result (λ crossing. crossing ≤ demand_limit) }
{
    if !junctions_are_there(town, set) {
        return Err(Rule::Range);
    }
    if !room {
        return Err(Rule::Cuts);
    }
    mark(marks, set);
    let crossing = demands_by(town, Pattern::Crossing(marks));
    if crossing % 2 == 0 {
        Err(Rule::Even)
    } else {
        Ok(crossing)
    }
}

/// Judges a K-C cut. Returns the number of demands that join the first set and the last. What
/// stands in `marks` makes no difference.
pub(crate) fn judge_kc(
    town: &Town,
    marks: &mut [bool],
    room: bool,
    k: u32,
    of: &[u32],
) -> Result<u32, Rule>
    requires { length marks.old ≡ length town.now.junctions }
    ensures judged { (s : Standing) → room ≡ has_room s
        → Judges (cut_rule town.now s (Kc k of.now)) result }
    ensures room { OnOk result (room ≡ true) }
    ensures partition { OnOk result (is_partition town.now k of.now ≡ true) }
    ensures low { OnOk result (k ≤ length town.now.junctions + 1) }
    ensures count { IfOk result (λ joining. joining ≡ joining_demands town.now k of.now) }
    ensures few { IfOk result (λ joining. joining ≤ demand_limit) }
{
    if !is_partition(town, k, of) {
        return Err(Rule::Range);
    }
    if !room {
        return Err(Rule::Cuts);
    }
    if is_chain(town, k, of, marks) {
        Ok(demands_by(town, Pattern::Chain { k, of }))
    } else {
        Err(Rule::Chain)
    }
}
