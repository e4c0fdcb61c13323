// The calls that a trial is given, read from lent bytes as turns.
#![tactic(auto)]

mod bundle;
mod fault;
mod items;
pub mod turns;
