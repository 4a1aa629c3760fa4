// Laws of the rules: the contract of each function is one.
#![tactic(auto)]

pub mod awarding;
pub mod booking;
pub mod money;
pub mod positions;
pub mod ranking;
pub mod standing;
