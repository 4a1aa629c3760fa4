// Tests at the edges of the rules, with expected values worked out by hand.
#![tactic(auto)]

#[cfg(test)]
mod averages;
#[cfg(test)]
mod numbers;
#[cfg(test)]
mod ranks;
#[cfg(test)]
mod references;
#[cfg(test)]
mod shown;
#[cfg(test)]
mod words;
