//! Components that grow as streets are added, each known by its least junction.
ghost use Rattle.std.specs.Prelude.{◌≡◌, ℕ, ◌<◌, ◌≤◌, length, slice_index, IfOk};
ghost use Rattle.wrp_odd.specs.Merging.{AreParents, AreLabels};

use std::alloc::{AllocError, Global};

/// Junctions, each joined to a lesser one or to itself.
#[derive(Drop)]
pub(crate) struct Merged {
    parents: Vec<u32>,
}

impl Merged {
    /// Each junction by itself.
    pub(crate) fn new(alloc: Global, count: u32) -> Result<Merged, AllocError>
        ensures { IfOk result (λ merged. AreParents count merged.parents.items) }
    {
        Ok(Merged {
            parents: own_labels(alloc, count)?,
        })
    }

    /// Makes one component of those of two junctions.
    pub(crate) fn join(&mut self, i: u32, j: u32)
        requires parents { AreParents (length self.old.parents.items) self.old.parents.items }
        requires i { i < length self.old.parents.items }
        requires j { j < length self.old.parents.items }
        ensures { AreParents (length self.old.parents.items) self.new.parents.items }
    {
        let i = self.root(i);
        let j = self.root(j);
        if i < j {
            self.parents[j as usize] = i;
        } else {
            self.parents[i as usize] = j;
        }
    }

    /// The least junction of a component. The way to it is halved.
    fn root(&mut self, j: u32) -> u32
        requires parents { AreParents (length self.old.parents.items) self.old.parents.items }
        requires j { j < length self.old.parents.items }
        ensures parents { AreParents (length self.old.parents.items) self.new.parents.items }
        ensures low { result ≤ j }
        ensures root { slice_index self.new.parents.items result ≡ result }
    {
        let mut at = j;
        while self.parents[at as usize] != at {
            let next = self.parents[self.parents[at as usize] as usize];
            self.parents[at as usize] = next;
            at = next;
        }
        at
    }

    /// The least junction of each junction's component.
    pub(crate) fn labels(&self, alloc: Global) -> Result<Vec<u32>, AllocError>
        requires parents { AreParents (length self.now.parents.items) self.now.parents.items }
        ensures { IfOk result (λ labels. AreLabels self.now.parents.items labels.items) }
    {
        let mut labels = Vec::with_capacity(alloc, self.parents.len())?;
        for (j, parent) in self.parents.iter().enumerate() {
            let label = if *parent as usize == j {
                *parent
            } else {
                labels[*parent as usize]
            };
            labels.push(label)?;
        }
        Ok(labels)
    }
}

/// Each junction's own number.
pub fn own_labels(alloc: Global, count: u32) -> Result<Vec<u32>, AllocError>
    ensures long { IfOk result (λ labels. length labels.items ≡ count) }
    ensures own { IfOk result (λ labels. (j : ℕ) → j < count → slice_index labels.items j ≡ j) }
{
    let labels: Vec<u32> = (0..count).collect(alloc)?;
    Ok(labels)
}
