//! One more record in what is kept.
ghost use Rattle.std.specs.Prelude.{◌≡◌, ◌∷◌, [], ◌++◌, ◌+◌, ◌<◌, ◌≤◌, ◌||◌, cond, true, length, IfOk, OnOk};
ghost use Rattle.std.specs.Vec.{vec_len, vec_capacity};
ghost use Rattle.wrp_town.specs.declared.town.Town.{Town};
ghost use Rattle.wrp_rules.specs.Nodes.{Standing};
ghost use Rattle.wrp_rules.specs.Rules.{is_labels, is_cut, broken_rule};
ghost use Rattle.wrp_writer.specs.Limits.{is_writable};
ghost use Rattle.wrp_tree.specs.Indexes.{IsSound};
ghost use Rattle.wrp_tree.specs.Keeping.{IsKept, IsSoundOf, IsDeskOf, is_blind};
ghost use Rattle.wrp_tree.specs.Plans.{Refuses, KindRefuses, IsPlanned, IsReadyFor, IsMade, HasRoomFor, IsHalvable, IsFor, RowIsMade};

use crate::desk::Desk;
use crate::fault::PrepareFault;
use crate::judge::judge;
use crate::kept::Kept;
use crate::plan::Plan;
use std::alloc::AllocError;
use wrp_rows::RowFault;
use wrp_rules::{Record, Rule};
use wrp_town::Town;

/// Whether a record adds a row.
fn is_cut(item: &Record) -> bool
    ensures { result ≡ is_cut item.now }
{
    matches!(
        item,
        Record::Conn { .. } | Record::Odd { .. } | Record::Round { .. } | Record::Kc { .. }
    )
}

/// Whether a record is a blind mark.
fn is_blind(item: &Record) -> bool
    ensures { result ≡ is_blind item.now }
{
    matches!(item, Record::Blind { .. })
}

/// Whether a record has labels.
pub(crate) fn has_labels(item: &Record) -> bool
    ensures { result ≡ is_labels item.now }
{
    matches!(item, Record::Labels { .. })
}

impl<'t> Kept<'t> {
    /// Judges a record by the rules of its kind, and prepares its row.
    fn judge(&mut self, town: &Town, desk: &mut Desk, item: &Record) -> Result<Plan, PrepareFault>
        requires desk { IsDeskOf town.now desk.old }
        requires kept { IsSoundOf town.now self.old }
        requires alone { length self.old.index.nodes ≡ self.old.index.count }
        requires writable { is_writable item.now ≡ true }
        ensures desk { IsDeskOf town.now desk.new }
        ensures same { self.new ≡ record self.old { rows = self.new.rows } }
        ensures kept { (s : Standing) → IsKept town.now s self.old → IsKept town.now s self.new }
        ensures refused { (s : Standing) → IsKept town.now s self.old
            → KindRefuses town.now s item.now result }
        ensures planned { (s : Standing) → IsKept town.now s self.old
            → IfOk result (λ plan. IsPlanned town.now s item.now plan self.new) }
    {
        if is_cut(item) {
            match self.rows.prepare_cut(item) {
                Ok(()) => Ok(Plan::Row),
                Err(RowFault::Broken { rule }) => Err(PrepareFault::Refused { rule }),
                Err(RowFault::Memory) => Err(PrepareFault::Memory),
            }
        } else {
            match judge(town, self, desk, item) {
                Ok(plan) => Ok(plan),
                Err(rule) => Err(PrepareFault::Refused { rule }),
            }
        }
    }

    /// Makes the room that a plan needs.
    fn make_room(&mut self, plan: Plan) -> Result<(), AllocError>
        requires sound { IsSound self.old.index }
        requires alone { length self.old.index.nodes ≡ self.old.index.count }
        requires halves { IsHalvable plan self.old.index }
        ensures kept { (town : Town) (s : Standing) → IsKept town s self.old
            → IsFor town s plan → IsKept town s self.new }
        ensures same { self.new.rows ≡ self.old.rows }
        ensures list { OnOk result (vec_len self.new.records < vec_capacity self.new.records) }
        ensures room { (town : Town) (s : Standing) → IsKept town s self.old → IsFor town s plan
            → RowIsMade plan self.old → OnOk result (HasRoomFor town s plan self.new) }
    {
        self.records.reserve(1)?;
        match plan {
            Plan::Halve { node, arc, k } => self.index.make_children(node, arc, k),
            _ => Ok(()),
        }
    }

    /// Makes ready what a record needs, or says which rule it breaks.
    pub(crate) fn plan(
        &mut self,
        town: &Town,
        desk: &mut Desk,
        item: &Record,
    ) -> Result<Plan, PrepareFault>
        requires desk { IsDeskOf town.now desk.old }
        requires kept { IsSoundOf town.now self.old }
        requires writable { is_writable item.now ≡ true }
        ensures desk { IsDeskOf town.now desk.new }
        ensures kept { (s : Standing) → IsKept town.now s self.old → IsKept town.now s self.new }
        ensures refused { (s : Standing) → IsKept town.now s self.old
            → Refuses (broken_rule town.now s item.now) result }
        ensures ready { (s : Standing) → IsKept town.now s self.old
            → IfOk result (λ plan. IsReadyFor town.now s item.now plan self.new) }
        ensures list { OnOk result (vec_len self.new.records < vec_capacity self.new.records) }
    {
        self.index.drop_children();
        if !self.admits(item) {
            return Err(PrepareFault::Refused { rule: Rule::Lonely });
        }
        match self.judge(town, desk, item) {
            Ok(plan) => {
                self.make_room(plan)?;
                Ok(plan)
            }
            Err(fault) => Err(fault),
        }
    }

    /// Changes the rows and nodes as a record does.
    pub(crate) fn make(&mut self, plan: Plan, item: &Record)
        requires { (town : Town) × (s : Standing) × IsReadyFor town s item.now plan self.old }
        ensures { (town : Town) (s : Standing) → IsReadyFor town s item.now plan self.old
            → IsMade town s item.now self.old self.new }
    {
        if is_cut(item) {
            self.rows.commit_cut();
            return;
        }
        match item {
            Record::Tour { cost, .. } => self.index.lower_upper(*cost),
            Record::Bound { node, .. } => self.index.raise(*node, plan.bound()),
            Record::Empty { node, .. } => self.index.close(*node),
            Record::Apart { node, .. } => self.index.close(*node),
            Record::Split { node, .. } => self.index.split(*node),
            Record::Point { .. } | Record::Blind { .. } | Record::Labels { .. } => {}
            _ => unreachable!(),
        }
    }

    /// Adds a record to the list.
    pub(crate) fn push(&mut self, item: Record)
        requires room { vec_len self.old.records < vec_capacity self.old.records }
        requires few { self.old.blind ≤ vec_len self.old.records }
        ensures others { self.new ≡ record self.old {
          records = self.new.records;
          blind = self.new.blind;
          labelled = self.new.labelled;
        } }
        ensures records { self.new.records.items ≡ self.old.records.items ++ item ∷ [] }
        ensures blind { self.new.blind ≡ self.old.blind + cond (is_blind item) 1 0 }
        ensures labelled { self.new.labelled ≡ (self.old.labelled || is_labels item) }
    {
        if is_blind(&item) {
            self.blind += 1;
        }
        self.labelled = self.labelled || has_labels(&item);
        self.records.push_reserved(item);
    }
}
