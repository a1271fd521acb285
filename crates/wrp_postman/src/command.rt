//! The commands of the program.

/// A command and what it names.
#[derive(Clone, Copy, Debug, PartialEq, Eq)]
pub enum Names<'a> {
    /// Searches for the cheapest tour of the streets in one file, and writes a proof to another.
    Solve {
        streets: &'a str,
        proof: &'a str,
        log: Option<&'a str>,
        budget: u64,
    },
    /// Checks the proof in one file over the street table in another.
    Check {
        streets: &'a str,
        proof: &'a str,
    },
    /// Tells what a street table holds.
    Info {
        streets: &'a str,
    },
    /// Writes the street table of a town that is drawn from a seed.
    Town {
        seed: u32,
        width: u32,
        height: u32,
    },
    /// Searches a town that is drawn from a seed, and tells what it finds.
    Demo {
        seed: u32,
        width: u32,
        height: u32,
        budget: u64,
    },
}
