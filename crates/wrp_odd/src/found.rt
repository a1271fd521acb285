//! Odd records that were found, each once.
ghost use Rattle.std.specs.Prelude.{◌≡◌, ◌^◌, ◌<◌, ◌∷◌, ◌++◌, [], length, slice_index, replicate, IfOk, OnOk};
ghost use Rattle.wrp_town.specs.declared.town.Town.{Town};
ghost use Rattle.wrp_rules.specs.declared.record.Record.TheVariants.{Odd};
ghost use Rattle.wrp_rows.specs.declared.point.Point.{Point as APoint};
ghost use Rattle.wrp_webs.specs.TownWebs.{IsBrokenOdd};
ghost use Rattle.wrp_odd.specs.Points.{denominator_of, numbers_of};
ghost use Rattle.wrp_odd.specs.Found.{IsFound, GoesOn};

use std::alloc::{AllocError, Global};
use wrp_rules::Record;
use wrp_town::List;

/// Odd records, and for each junction the size of the largest set that begins with it.
#[derive(Drop)]
pub(crate) struct Found {
    pub(crate) records: Vec<Record>,
    pub(crate) longest: Vec<u32>,
}

impl Found {
    /// Nothing yet.
    pub(crate) fn new(alloc: Global, junctions: usize) -> Result<Found, AllocError>
        ensures found { (town : Town) (point : APoint) → length town.junctions ≡ junctions
            → IfOk result (IsFound town point) }
        ensures none { IfOk result (λ found. found.records.items ≡ []) }
        ensures zeros { IfOk result (λ found. found.longest.items ≡ replicate junctions 0) }
    {
        Ok(Found {
            records: Vec::new(alloc),
            longest: vec![in alloc; 0; junctions]?,
        })
    }

    /// Adds the record of a set, where none is there that begins with the same junction and isn't
    /// smaller.
    pub(crate) fn add(&mut self, alloc: Global, set: &[u32]) -> Result<(), AllocError>
        requires some { 0 < length set.now }
        requires first { slice_index set.now 0 < length self.old.longest.items }
        requires few { length set.now < 2 ^ 32 }
        ensures { OnOk result (GoesOn set.now self.old self.new) }
    {
        let first = set[0] as usize;
        if (self.longest[first] as usize) < set.len() {
            self.records.push(Record::Odd {
                set: List::from_vec(Vec::from_slice(alloc, set)?),
            })?;
            self.longest[first] = set.len() as u32;
        }
        Ok(())
    }
}
