use crate::name::Name;

/// Which directions of a street have to be driven.
#[derive(Clone, Copy, Debug, PartialEq, Eq)]
pub enum Need {
    /// The street only connects.
    No,
    /// One of its two directions, whichever it is.
    Either,
    /// From its first end to its second.
    Forward,
    /// From its second end to its first.
    Backward,
    /// Each of its two directions.
    Both,
}

/// A street between two junctions. A direction is legal exactly where its cost stands.
#[derive(Debug, Drop, Clone, PartialEq, Eq)]
pub struct Street {
    pub name: Name,
    /// The junction at its first end.
    pub from: u32,
    /// The junction at its second end.
    pub to: u32,
    /// The cost of driving from its first end to its second.
    pub forward: Option<u32>,
    /// The cost of driving back.
    pub backward: Option<u32>,
    pub need: Need,
}

/// One step of a walk: a street, driven from its first end to its second, or back.
#[derive(Clone, Copy, Debug, PartialEq, Eq)]
pub struct Step {
    pub street: u32,
    pub back: bool,
}
