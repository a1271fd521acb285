//! Making the rows of cuts.
ghost use Rattle.std.specs.Prelude.{◌≡◌, ℕ, ◌+◌, ◌-◌, ◌*◌, ◌^◌, ◌≤◌, true, pos, unsigned_abs, map, length, IfOk, OnOk};
ghost use Rattle.std.specs.List.{All};
ghost use Rattle.wrp_town.specs.Limits.{junction_limit, demand_limit};
ghost use Rattle.wrp_rules.specs.declared.record.Record.TheVariants.{Conn, Odd, Round, Kc};
ghost use Rattle.wrp_rules.specs.Ranges.{is_from_one, are_multipliers};
ghost use Rattle.wrp_rules.specs.Contents.{has_number_rules};
ghost use Rattle.wrp_rules.specs.Nodes.{Standing};
ghost use Rattle.wrp_rules.specs.Rules.{is_cut, has_room};
ghost use Rattle.wrp_rows.specs.Pools.{sparse_of};
ghost use Rattle.wrp_rows.specs.Sizes.{most_right_side, IsSmallRow};
ghost use Rattle.wrp_rows.specs.Making.{cut_rule, Refuses, IsRowOf, IsBenchOf, made};

use crate::bench::{Bench, judge_conn, judge_kc, judge_odd};
use crate::fault::RowFault;
use crate::gather::gather;
use crate::pattern::Pattern;
use crate::rounding::judge_round;
use crate::table::Table;
use wrp_rules::Record;
use wrp_town::Town;

impl Bench {
    /// Makes the row of a cut behind the rows of the table: its terms stand in the bench after it,
    /// and its right side is returned.
    pub(crate) fn make(
        &mut self,
        town: &Town,
        table: &Table,
        room: bool,
        item: &Record,
    ) -> Result<i64, RowFault>
        requires bench { IsBenchOf town.now self.old }
        requires rows { All (IsSmallRow (2 * length town.now.streets)) table.now }
        requires cut { is_cut item.now ≡ true }
        requires numbers { has_number_rules item.now ≡ true }
        ensures bench { IsBenchOf town.now self.new }
        ensures judged { (s : Standing) → room ≡ has_room s
            → table.now ≡ map (sparse_of town.now) s.rows
            → Refuses (cut_rule town.now s item.now) result }
        ensures room { OnOk result (room ≡ true) }
        ensures row { (s : Standing) → table.now ≡ map (sparse_of town.now) s.rows
            → IfOk result (λ side. IsRowOf town.now s item.now (made self.new side)) }
        ensures small { IfOk result (λ side. IsSmallRow (2 * length town.now.streets)
            (made self.new side)) }
    {
        match item {
            Record::Conn { r1, r2, set } => self.make_conn(town, room, *r1, *r2, set.as_slice()),
            Record::Odd { set } => self.make_odd(town, room, set.as_slice()),
            Record::Round { divisor, mult } => {
                self.make_round(town, table, room, *divisor, mult.as_slice())
            }
            Record::Kc { k, of } => self.make_kc(town, room, *k, of.as_slice()),
            _ => unreachable!(),
        }
    }

    /// Makes the row of a connectivity cut.
    fn make_conn(
        &mut self,
        town: &Town,
        room: bool,
        r1: u32,
        r2: u32,
        set: &[u32],
    ) -> Result<i64, RowFault>
        requires bench { IsBenchOf town.now self.old }
        ensures bench { IsBenchOf town.now self.new }
        ensures judged { (s : Standing) → room ≡ has_room s
            → Refuses (cut_rule town.now s (Conn r1 r2 set.now)) result }
        ensures room { OnOk result (room ≡ true) }
        ensures row { (s : Standing)
            → IfOk result (λ side. IsRowOf town.now s (Conn r1 r2 set.now) (made self.new side)) }
        ensures small { IfOk result (λ side. IsSmallRow (2 * length town.now.streets)
            (made self.new side)) }
    {
        judge_conn(town, self.marks.as_mut_slice(), room, r1, r2, set)?;
        gather(
            &mut self.terms,
            town,
            Pattern::Leaving(self.marks.as_slice()),
        )?;
        Ok(1)
    }

    /// Makes the row of an odd cut.
    fn make_odd(&mut self, town: &Town, room: bool, set: &[u32]) -> Result<i64, RowFault>
        requires bench { IsBenchOf town.now self.old }
        ensures bench { IsBenchOf town.now self.new }
        ensures judged { (s : Standing) → room ≡ has_room s
            → Refuses (cut_rule town.now s (Odd set.now)) result }
        ensures room { OnOk result (room ≡ true) }
        ensures row { (s : Standing)
            → IfOk result (λ side. IsRowOf town.now s (Odd set.now) (made self.new side)) }
        ensures small { IfOk result (λ side. IsSmallRow (2 * length town.now.streets)
            (made self.new side)) }
    {
        let crossing = judge_odd(town, self.marks.as_mut_slice(), room, set)?;
        gather(
            &mut self.terms,
            town,
            Pattern::Crossing(self.marks.as_slice()),
        )?;
        Ok(i64::from(crossing) + 1)
    }

    /// Makes the row of a rounding.
    fn make_round(
        &mut self,
        town: &Town,
        table: &Table,
        room: bool,
        divisor: u64,
        mult: &[(u32, u64)],
    ) -> Result<i64, RowFault>
        requires bench { IsBenchOf town.now self.old }
        requires rows { All (IsSmallRow (2 * length town.now.streets)) table.now }
        requires divisor { is_from_one (2 ^ 20) divisor ≡ true }
        requires mult { are_multipliers (2 ^ 40) mult.now ≡ true }
        ensures bench { IsBenchOf town.now self.new }
        ensures judged { (s : Standing) → room ≡ has_room s
            → table.now ≡ map (sparse_of town.now) s.rows
            → Refuses (cut_rule town.now s (Round divisor mult.now)) result }
        ensures room { OnOk result (room ≡ true) }
        ensures row { (s : Standing) → table.now ≡ map (sparse_of town.now) s.rows
            → IfOk result (λ side. IsRowOf town.now s (Round divisor mult.now)
            (made self.new side)) }
        ensures small { IfOk result (λ side. IsSmallRow (2 * length town.now.streets)
            (made self.new side)) }
    {
        let side = judge_round(town, table, self.sums.as_mut_slice(), room, divisor, mult)?;
        gather(&mut self.terms, town, Pattern::Sums(self.sums.as_slice()))?;
        Ok(side)
    }

    /// Makes the row of a K-C cut.
    fn make_kc(&mut self, town: &Town, room: bool, k: u32, of: &[u32]) -> Result<i64, RowFault>
        requires bench { IsBenchOf town.now self.old }
        ensures bench { IsBenchOf town.now self.new }
        ensures judged { (s : Standing) → room ≡ has_room s
            → Refuses (cut_rule town.now s (Kc k of.now)) result }
        ensures room { OnOk result (room ≡ true) }
        ensures row { (s : Standing)
            → IfOk result (λ side. IsRowOf town.now s (Kc k of.now) (made self.new side)) }
        ensures small { IfOk result (λ side. IsSmallRow (2 * length town.now.streets)
            (made self.new side)) }
    {
        let joining = judge_kc(town, self.marks.as_mut_slice(), room, k, of)?;
        gather(&mut self.terms, town, Pattern::Chain { k, of })?;
        Ok(chain_side(k, joining))
    }
}

/// The right side of a K-C row that `joining` demands join the first set and the last in.
fn chain_side(k: u32, joining: u32) -> i64
    requires long { 3 ≤ k }
    requires low { k ≤ junction_limit + 1 }
    requires few { joining ≤ demand_limit }
    ensures value { result ≡ pos (2 * (k - 1) + (k - 2) * joining) }
    ensures small { unsigned_abs result ≤ most_right_side }
{
    i64::from(2 * (k - 1) + (k - 2) * joining)
}
