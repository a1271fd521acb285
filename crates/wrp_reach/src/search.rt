//! The search for strongly connected components: a path of junctions that is cut into groups, each
//! of junctions that reach each other. Where an arc leads back, the groups from there on become
//! one; where none leads on, the last group is a component.
ghost use Rattle.std.specs.Prelude.{◌≡◌, ℕ, ◌+◌, ◌*◌, ◌<◌, ◌≤◌, Bool, true, false, [], ◌∷◌, ◌++◌, map, length, slice_index, IfOk, OnOk, MatchOption};
ghost use Rattle.std.specs.List.{All, Contains};
ghost use Rattle.wrp_town.specs.Arcs.{is_legal, head_of};
ghost use Rattle.wrp_reach.specs.declared.search.Mark.TheVariants.{Done};
ghost use Rattle.wrp_reach.specs.Search.{mark_at, AreAscending, IsLastGroup, IsSearch, HasTodo, Enters, Joins, Drops, Closes, GoesOn, IsAtRoot};

use std::alloc::{AllocError, Global};
use wrp_graph::Graph;
use wrp_town::Town;

/// What the search knows of a junction.
#[derive(Clone, Copy)]
pub(crate) enum Mark {
    New,
    /// It stands on the path, at this place.
    OnPath { place: usize },
    /// Its component is done, and has this label.
    Done { label: u32 },
}

/// A group of junctions that reach each other: where it starts on the path, and where the junctions
/// start that are to be visited from it.
#[derive(Clone, Copy)]
pub(crate) struct Group {
    start: usize,
    todo: usize,
}

/// A search for components. Labels are given in the order in which components are done, so an arc
/// leads to no higher label.
#[derive(Drop)]
pub(crate) struct Search {
    pub(crate) marks: Vec<Mark>,
    path: Vec<u32>,
    todo: Vec<u32>,
    groups: Vec<Group>,
    /// How many components are done.
    pub(crate) count: u32,
}

impl Search {
    /// A search in which every junction is new.
    pub(crate) fn new(alloc: Global, town: &Town) -> Result<Search, AllocError>
        ensures { IfOk result (λ search. IsAtRoot town.now 0 search) }
    {
        Ok(Search {
            marks: vec![in alloc; Mark::New; town.junctions.len()]?,
            path: Vec::new(alloc),
            todo: Vec::new(alloc),
            groups: Vec::new(alloc),
            count: 0,
        })
    }

    /// Finds the components of all that a junction reaches, where it is new.
    pub(crate) fn reach_from(&mut self, graph: &Graph, root: u32) -> Result<(), AllocError>
        requires root { root < length graph.now.junctions }
        requires search { IsAtRoot graph.now root self.old }
        ensures { OnOk result (IsAtRoot graph.now (root + 1) self.new) }
    {
        if let Mark::New = self.marks[root as usize] {
            self.enter(graph, root)?;
            while self.step(graph)? {}
        }
        Ok(())
    }

    /// The last group, where there is one.
    fn last_group(&self) -> Option<Group>
        ensures { MatchOption result (length self.now.groups.items ≡ 0)
            (λ group. IsLastGroup self.now.groups.items group) }
    {
        self.groups.last().copied()
    }

    /// Visits a junction from the last group, or closes that group. The answer is false where there
    /// is no group.
    fn step(&mut self, graph: &Graph) -> Result<bool, AllocError>
        requires { IsSearch graph.now self.old }
        ensures on { IfOk result (λ went. went ≡ true → GoesOn graph.now self.old self.new) }
        ensures over { IfOk result (λ went. went ≡ false
            → (self.new ≡ self.old) × (length self.old.groups.items ≡ 0)) }
    {
        match self.last_group() {
            None => Ok(false),
            Some(group) => {
                if self.todo.len() > group.todo {
                    self.visit(graph)?;
                } else {
                    self.close(group);
                }
                Ok(true)
            }
        }
    }

    /// Visits the last junction that is to be visited. A new one is entered, and stays to be
    /// visited once more.
    fn visit(&mut self, graph: &Graph) -> Result<(), AllocError>
        requires search { IsSearch graph.now self.old }
        requires some { HasTodo self.old }
        ensures { OnOk result (GoesOn graph.now self.old self.new) }
    {
        let j = self.todo[self.todo.len() - 1];
        match self.marks[j as usize] {
            Mark::New => self.enter(graph, j),
            Mark::OnPath { place } => {
                self.join(place);
                self.drop_last();
                Ok(())
            }
            Mark::Done { .. } => {
                self.drop_last();
                Ok(())
            }
        }
    }

    /// Puts a junction on the path as a group by itself.
    fn enter(&mut self, graph: &Graph, j: u32) -> Result<(), AllocError>
        requires there { j < length graph.now.junctions }
        requires marks { length self.old.marks.items ≡ length graph.now.junctions }
        ensures { OnOk result (Enters graph.now j self.old self.new) }
    {
        self.groups.push(Group {
            start: self.path.len(),
            todo: self.todo.len(),
        })?;
        self.marks[j as usize] = Mark::OnPath {
            place: self.path.len(),
        };
        self.path.push(j)?;
        push_heads(graph.town(), graph.out_of(j), &mut self.todo)
    }

    /// Makes one group of that of a place and all that start behind the place.
    fn join(&mut self, place: usize)
        requires { AreAscending self.old.groups.items }
        ensures { Joins place self.old self.new }
    {
        while let Some(group) = self.last_group() {
            if group.start <= place {
                return;
            }
            self.groups.truncate(self.groups.len() - 1);
        }
    }

    /// Drops the last junction that is to be visited.
    fn drop_last(&mut self)
        requires { 0 < length self.old.todo.items }
        ensures { Drops self.old self.new }
    {
        self.todo.truncate(self.todo.len() - 1);
    }

    /// Gives the next label to the junctions of the last group, which is a component.
    fn close(&mut self, group: Group)
        requires last { IsLastGroup self.old.groups.items group }
        requires start { group.start ≤ length self.old.path.items }
        requires path { All (λ j. j < length self.old.marks.items) self.old.path.items }
        requires few { self.old.count < u32.MAX }
        ensures { Closes self.old self.new }
    {
        mark_done(&self.path[group.start..], self.count, &mut self.marks);
        self.path.truncate(group.start);
        self.groups.truncate(self.groups.len() - 1);
        self.count += 1;
    }
}

/// Adds the heads of arcs.
fn push_heads(town: &Town, arcs: &[u32], heads: &mut Vec<u32>) -> Result<(), AllocError>
    requires { All (λ arc. is_legal town.now arc ≡ true) arcs.now }
    ensures { OnOk result
        (heads.new.items ≡ heads.old.items ++ map (head_of town.now) arcs.now) }
{
    for arc in arcs {
        heads.push(town.head(*arc))?;
    }
    Ok(())
}

/// Gives a label to junctions.
fn mark_done(junctions: &[u32], label: u32, marks: &mut [Mark])
    requires { All (λ j. j < length marks.old) junctions.now }
    ensures marked { All (λ j. mark_at marks.new j ≡ Done label) junctions.now }
    ensures others { (j : ℕ) → (Contains junctions.now j → ⊥)
        → mark_at marks.new j ≡ mark_at marks.old j }
{
    for j in junctions {
        marks[*j as usize] = Mark::Done { label };
    }
}
