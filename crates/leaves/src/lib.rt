// The measures of the rules as functions: each answers what its definition says.
#![tactic(auto)]

pub mod awards;
pub mod credit;
pub mod positions;
