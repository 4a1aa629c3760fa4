// The rules of a Trading Day: their definitions stand in specs/, and the records that code and definitions share here.
#![tactic(auto)]

pub mod crr;
pub mod entries;
pub mod figures;
pub mod stages;
