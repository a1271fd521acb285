//! Trials: what the relaxations, the searches for cuts, the tree and the checker answer on worked
//! towns, where a person knows the answer, and on drawn ones, where a plain enumeration or the
//! other side gives it.
#![tactic(auto)]

#[cfg(test)]
mod alike_tests;
#[cfg(test)]
mod conn_tests;
#[cfg(test)]
mod draw;
#[cfg(test)]
mod drawn_records;
#[cfg(test)]
mod kc_tests;
#[cfg(test)]
mod lists;
#[cfg(test)]
mod lp_tests;
#[cfg(test)]
mod odd_tests;
#[cfg(test)]
mod plain;
#[cfg(test)]
mod points;
#[cfg(test)]
mod relaxing;
#[cfg(test)]
mod tour_tests;
#[cfg(test)]
mod towns;
#[cfg(test)]
mod tree_tests;
