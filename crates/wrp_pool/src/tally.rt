//! Sums of numbers for arcs, which cost what is added and nothing for the other arcs of the town.
ghost use Rattle.std.specs.Prelude.{◌≡◌, ℕ, ◌+◌, ◌*◌, ◌^◌, ◌<◌, ◌≤◌, true, pos, unsigned_abs, length, IfOk, OnOk};
ghost use Rattle.wrp_town.specs.Arcs.{is_legal};
ghost use Rattle.wrp_pool.specs.Tallies.{number_of, IsTally, IsBlank, AreWithin, Lists, Adds};

use std::alloc::{AllocError, Global};
use wrp_town::Town;

/// A number for each arc. The arcs to which something was added are listed and marked.
#[derive(Debug, Drop)]
pub struct Tally {
    pub(crate) numbers: Vec<i128>,
    pub(crate) marks: Vec<bool>,
    pub(crate) listed: Vec<u16>,
}

impl Tally {
    /// The number 0 for each arc.
    ///
    /// # Errors
    ///
    /// Want of memory alone.
    pub fn new(alloc: Global, town: &Town) -> Result<Tally, AllocError>
        ensures { IfOk result (λ tally. IsBlank town.now tally) }
    {
        let arcs = 2 * town.streets.len();
        Ok(Tally {
            numbers: vec![in alloc; 0i128; arcs]?,
            marks: vec![in alloc; false; arcs]?,
            listed: Vec::new(alloc),
        })
    }

    /// The number of an arc.
    pub fn number(&self, arc: u16) -> i128
        requires { arc < length self.now.numbers.items }
        ensures { result ≡ number_of self.now arc }
    {
        self.numbers[arc as usize]
    }

    /// The arcs that are listed, each once.
    pub fn listed(&self) -> &[u16]
        ensures { result.now ≡ self.now.listed.items }
    {
        self.listed.as_slice()
    }

    /// Lists an arc, where it isn't listed.
    ///
    /// # Errors
    ///
    /// Want of memory alone.
    pub fn list(&mut self, town: &Town, arc: u16) -> Result<(), AllocError>
        requires tally { IsTally town.now self.old }
        requires legal { is_legal town.now arc ≡ true }
        ensures { OnOk result (Lists town.now arc self.old self.new) }
    {
        if !self.marks[arc as usize] {
            self.listed.push(arc)?;
            self.marks[arc as usize] = true;
        }
        Ok(())
    }

    /// Adds to the number of an arc.
    ///
    /// # Errors
    ///
    /// Want of memory alone.
    pub fn add(&mut self, town: &Town, arc: u16, number: i128) -> Result<(), AllocError>
        requires tally { IsTally town.now self.old }
        requires legal { is_legal town.now arc ≡ true }
        requires room { AreWithin (2 ^ 125) self.old }
        requires small { unsigned_abs number ≤ 2 ^ 125 }
        ensures { OnOk result (Adds town.now arc number self.old self.new) }
    {
        self.list(town, arc)?;
        self.numbers[arc as usize] += number;
        Ok(())
    }

    /// Takes every number away.
    pub fn clear(&mut self, town: &Town)
        requires { IsTally town.now self.old }
        ensures { IsBlank town.now self.new }
    {
        while let Some(arc) = self.listed.pop() {
            self.numbers[arc as usize] = 0;
            self.marks[arc as usize] = false;
        }
    }
}
