// The values of a bind: leases for the owned ones, binding one by one, and giving back.
#![tactic(auto)]

pub mod collector;
pub mod ledger;
pub mod pairs;
pub mod refusal;
pub mod returning;
pub mod taking;
