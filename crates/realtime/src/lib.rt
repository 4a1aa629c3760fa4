// Real-time prices: sources of averages held to their meaning, the feed over a list, a source that counts its questions.
#![tactic(auto)]

pub mod asking;
pub mod counting;
pub mod feed;
pub mod source;
