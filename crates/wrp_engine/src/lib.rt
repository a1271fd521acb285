//! The search for the cheapest tour: turns at open nodes, each with rounds of cuts, until no node
//! is open or a budget is spent. The policy (which cuts, which arc, when tours are tried) takes no
//! part in any proof but those of its limits.
#![tactic(auto)]

mod close;
mod cut;
mod cuts;
mod desk;
mod fault;
mod found;
mod left;
mod offer;
mod rounds;
mod searching;
mod show;
mod sight;
mod split;
#[cfg(test)]
mod tests;
mod tours;
mod turn;

pub use fault::SearchFault;
pub use found::Found;
pub use searching::search;
