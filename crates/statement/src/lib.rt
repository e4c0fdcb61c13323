// The statement path over any host: set up, bind, execute, end.
#![tactic(auto)]

pub mod stmt;
