//! The streets and junctions of the turn town.
ghost use Rattle.std.specs.Prelude.{◌≡◌, ◌*◌, ◌<◌, ◌≤◌, ◌++◌, length, map, IfOk, OnOk};
ghost use Rattle.std.specs.List.{All};
ghost use Rattle.wrp_turn.specs.Turns.{is_turn};
ghost use Rattle.wrp_turn.specs.TurnTowns.{arcs_of, place_of as place_of_arc, before as place_before, behind as place_behind, arc_street as street_of_arc, turn_street as street_of_turn, turn_junctions, turns_of, arc_limit};

use crate::arcs::{is_demanded, place_of};
use crate::names::{before_name, behind_name, turn_name};
use crate::turns::Turns;
use std::alloc::{AllocError, Global};
use wrp_town::{List, Name, Need, Street, Town};

/// A town with the arcs that have a street in its turn town, of which each has its place there.
#[derive(Drop)]
pub(crate) struct Places<'a> {
    pub(crate) town: &'a Town,
    pub(crate) arcs: &'a [u32],
    pub(crate) ghost own: { arcs.now ≡ arcs_of town.now },
}

impl<'a> Places<'a> {
    /// The place of an arc, or the number of the arcs where it has no street.
    fn place(&self, arc: u32) -> u32
        ensures place { result ≡ place_of_arc self.now.town.now arc }
        ensures within { result ≤ arc_limit }
    {
        place_of(self.arcs, arc)
    }

    /// The junction before an arc.
    fn before(&self, arc: u32) -> u32
        ensures { result ≡ place_before self.now.town.now arc }
    {
        2 * self.place(arc)
    }

    /// The junction behind an arc.
    fn behind(&self, arc: u32) -> u32
        ensures { result ≡ place_behind self.now.town.now arc }
    {
        2 * self.place(arc) + 1
    }

    /// The names of all junctions.
    pub(crate) fn junctions(&self, alloc: Global) -> Result<List<Name>, AllocError>
        ensures { IfOk result (λ junctions. junctions ≡ turn_junctions self.now.town.now) }
    {
        let mut junctions = List::new(alloc);
        for arc in self.arcs {
            junctions.push(before_name(alloc, *arc)?)?;
            junctions.push(behind_name(alloc, *arc)?)?;
        }
        Ok(junctions)
    }

    /// The street of an arc.
    fn arc_street(&self, alloc: Global, arc: u32) -> Result<Street, AllocError>
        requires { arc < 2 * length self.now.town.now.streets }
        ensures { IfOk result (λ street. street ≡ street_of_arc self.now.town.now arc) }
    {
        let name = &self.town.streets.as_slice()[(arc / 2) as usize].name;
        let is_required = is_demanded(self.town, arc);
        Ok(Street {
            name: name.clone()?,
            from: self.before(arc),
            to: self.behind(arc),
            forward: self.town.cost(arc),
            backward: None,
            need: if is_required { Need::Either } else { Need::No },
        })
    }

    /// The streets of the arcs.
    pub(crate) fn arc_streets(&self, alloc: Global) -> Result<List<Street>, AllocError>
        ensures { IfOk result (λ streets. streets
            ≡ map (street_of_arc self.now.town.now) (arcs_of self.now.town.now)) }
    {
        let mut streets = List::new(alloc);
        for arc in self.arcs {
            streets.push(self.arc_street(alloc, *arc)?)?;
        }
        Ok(streets)
    }

    /// The street of a turn.
    fn turn_street(&self, alloc: Global, first: u32, second: u32) -> Result<Street, AllocError>
        requires first { first < arc_limit }
        requires second { second < arc_limit }
        ensures { IfOk result (λ street. street
            ≡ street_of_turn self.now.town.now (first, second)) }
    {
        Ok(Street {
            name: turn_name(alloc, first, second)?,
            from: self.behind(first),
            to: self.before(second),
            forward: Some(0),
            backward: None,
            need: Need::No,
        })
    }

    /// Adds the streets of the turns from an arc to others.
    fn push_turns_from(
        &self,
        alloc: Global,
        first: u32,
        seconds: &[u32],
        streets: &mut List<Street>,
    ) -> Result<(), AllocError>
        requires first { first < arc_limit }
        requires seconds { All (λ second. second < arc_limit) seconds.now }
        ensures { OnOk result (streets.new ≡ streets.old
            ++ map (λ second. street_of_turn self.now.town.now (first, second)) seconds.now) }
    {
        for second in seconds {
            streets.push(self.turn_street(alloc, first, *second)?)?;
        }
        Ok(())
    }

    /// Adds the streets of all turns of the town.
    pub(crate) fn push_turns(
        &self,
        alloc: Global,
        turns: &Turns<'_, '_>,
        streets: &mut List<Street>,
    ) -> Result<(), AllocError>
        requires { turns.now.graph.now ≡ self.now.town.now }
        ensures { OnOk result (streets.new ≡ streets.old
            ++ map (street_of_turn self.now.town.now)
            (turns_of self.now.town.now turns.now.bans.now)) }
    {
        for first in 0..2 * self.town.streets.len() as u32 {
            if self.town.cost(first).is_some() {
                let seconds = turns.seconds(alloc, first)?;
                self.push_turns_from(alloc, first, seconds.as_slice(), streets)?;
            }
        }
        Ok(())
    }
}
