//! A disk of bytes, with what a crash at any moment may leave of it, in memory and over a file.
#![tactic(auto)]

mod change;
mod choice;
mod disk;
mod file;
mod image;
mod mem;
mod put;
mod steady;
#[cfg(test)]
mod tests;

pub use choice::Choice;
pub use disk::Disk;
pub use file::FileDisk;
pub use mem::MemDisk;
pub use steady::SteadyDisk;
