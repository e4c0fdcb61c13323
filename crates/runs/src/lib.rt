// Calls and answers as data, and lists of them over any host.
#![tactic(auto)]

pub mod acts;
pub mod turns;
