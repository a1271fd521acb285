// The junctions of a table, in the order in which its rows name them.

ghost use Rattle.std.specs.Prelude.{◌≡◌, ◌<◌, ◌^◌, [], length, IfOk, OnOk};
ghost use Rattle.wrp_street.specs.Tables.{with_junction, number_of};

use indexmap::IndexSet;
use std::alloc::{AllocError, AllocFailed, Global};
use std::marker::Model;
use wrp_town::{List, Name};

/// Different names, each with its number. In a clause they are the list of the names.
#[derive(Drop)]
pub struct Junctions {
    names: IndexSet<Name>,
}

impl Model for Junctions {
    ghost use Rattle.std.specs.Prelude.{ℕ, List};

    ghost Value = { List (List ℕ) };

    ghost view = { λ j. j.names.keys };
}

impl Junctions {
    /// No junctions.
    pub fn new(alloc: Global) -> Junctions
        ensures { result ≡ [] }
    {
        Junctions {
            names: IndexSet::new(alloc),
        }
    }

    /// How many junctions there are.
    pub fn len(&self) -> usize
        ensures { result ≡ length self.now }
    {
        self.names.len()
    }

    /// The number of the junction of this name, which is added where it isn't there.
    pub fn add(&mut self, name: Name) -> Result<u32, AllocFailed<Name>>
        requires { length self.old < 2 ^ 32 }
        ensures names { OnOk result (self.new ≡ with_junction self.old name) }
        ensures number { IfOk result (λ number. number ≡ number_of self.old name) }
    {
        let (number, _) = self.names.insert_full(name)?;
        Ok(number as u32)
    }

    /// The names, in the order of their numbers.
    pub fn into_list(self, alloc: Global) -> Result<List<Name>, AllocError>
        ensures { IfOk result (λ list. list ≡ self) }
    {
        let names = self.names.into_iter().collect::<Vec<Name>>(alloc)?;
        Ok(List::from_vec(names))
    }
}
