//! Trials of types and of equivalence: tables of cases whose answers were worked out by hand.
#![tactic(auto)]

#[cfg(test)]
mod comparisons;
#[cfg(test)]
mod equivalence;
#[cfg(test)]
mod kinds;
#[cfg(test)]
mod moves;
#[cfg(test)]
mod texts;
#[cfg(test)]
mod types;
