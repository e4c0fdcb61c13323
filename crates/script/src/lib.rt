// The script host: it plays the outcomes of a sheet in order.
#![tactic(auto)]

pub mod player;
