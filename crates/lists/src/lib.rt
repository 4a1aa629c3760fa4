// Lists of numbers that come from outside: what one holds, and the check that goes before its use.
#![tactic(auto)]

pub mod check;
pub mod counted;
pub mod layout;
