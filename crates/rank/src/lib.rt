// One pick for every order: the element of a list that has a given rank.
#![tactic(auto)]

pub mod order;
pub mod orders;
pub mod pick;
pub mod spread;
pub mod standing;
