//! Trials of labels, refusals, grammars and bases: tables of cases whose answers were worked out by hand.
#![tactic(auto)]

#[cfg(test)]
mod bases;
#[cfg(test)]
mod grammars;
#[cfg(test)]
mod labels;
#[cfg(test)]
mod refusals;
