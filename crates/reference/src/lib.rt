// Reference prices: what a policy is, and the policies that come with the book.
#![tactic(auto)]

pub mod figures;
pub mod history;
mod hours;
pub mod percentile;
pub mod policy;
pub mod posted;
pub mod unposted;
