//! A set of junctions, in which a junction is found at once.
ghost use Rattle.std.specs.Prelude.{◌≡◌, ◌<◌, IfOk, OnOk};
ghost use Rattle.wrp_rules.specs.Sets.{is_in};
ghost use Rattle.wrp_pool.specs.Members.{none_of, with_member};

use std::alloc::{AllocError, Global};
use std::marker::Model;

/// Junctions below a number, each marked, in the order in which they were added. Contracts see the
/// number and the list.
#[derive(Debug, Drop)]
pub struct JunctionSet {
    marks: Vec<bool>,
    listed: Vec<u32>,
}

impl Model for JunctionSet {
    ghost use Rattle.std.specs.Prelude.{◌≡◌, ℕ, length, slice_index_or, false};
    ghost use Rattle.std.specs.List.{All};
    ghost use Rattle.std.specs.Prelude.{◌<◌};
    ghost use Rattle.wrp_rules.specs.Sets.{is_in};
    ghost use Rattle.wrp_pool.specs.Members.{Members};

    ghost Value = { Members };

    ghost view = { λ s. record { among = length s.marks.items; set = s.listed.items } };

    ghost invariant = { λ s. ((j : ℕ) → slice_index_or s.marks.items j false
        ≡ is_in s.listed.items j) × All (λ j. j < length s.marks.items) s.listed.items };
}

impl JunctionSet {
    /// No junction of so many.
    ///
    /// # Errors
    ///
    /// Want of memory alone.
    pub fn new(alloc: Global, among: usize) -> Result<JunctionSet, AllocError>
        ensures { IfOk result (λ set. set ≡ none_of among) }
    {
        Ok(JunctionSet {
            marks: vec![in alloc; false; among]?,
            listed: Vec::new(alloc),
        })
    }

    /// The number that all junctions are below.
    pub fn among(&self) -> usize
        ensures { result ≡ self.now.among }
    {
        self.marks.len()
    }

    /// Adds a junction.
    ///
    /// # Errors
    ///
    /// Want of memory alone.
    pub fn add(&mut self, junction: u32) -> Result<(), AllocError>
        requires { junction < self.old.among }
        ensures { OnOk result (self.new ≡ with_member self.old junction) }
    {
        self.listed.push(junction)?;
        self.marks[junction as usize] = true;
        Ok(())
    }

    /// Whether a junction is in the set.
    pub fn contains(&self, junction: u32) -> bool
        requires { junction < self.now.among }
        ensures { result ≡ is_in self.now.set junction }
    {
        self.marks[junction as usize]
    }

    /// Lends the junctions.
    pub fn as_slice(&self) -> &[u32]
        ensures { result.now ≡ self.now.set }
    {
        self.listed.as_slice()
    }

    /// Takes every junction out.
    pub fn clear(&mut self)
        ensures { self.new ≡ none_of self.old.among }
    {
        while let Some(junction) = self.listed.pop() {
            self.marks[junction as usize] = false;
        }
    }
}
