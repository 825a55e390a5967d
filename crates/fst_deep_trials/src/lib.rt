//! Trials of the deepest types that the limits allow: tables of cases whose answers were worked out by hand.
#![tactic(auto)]

#[cfg(test)]
mod chains;
#[cfg(test)]
mod nested;
