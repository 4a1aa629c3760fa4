// The words of the market: letters, the day, segments of a curve, bounds, faults and refusals.
#![tactic(auto)]

pub mod bounded;
pub mod bounds;
pub mod day;
pub mod fault;
pub mod fault_text;
pub mod letters;
pub mod segment;
pub mod word_text;
pub mod words;
