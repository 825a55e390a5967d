//! Trials of bytes, tokens, readers and the program: tables of cases whose answers were worked out by hand.
#![tactic(auto)]

#[cfg(test)]
mod checking;
#[cfg(test)]
mod ends;
#[cfg(test)]
mod failing;
#[cfg(test)]
mod limits;
#[cfg(test)]
mod program;
#[cfg(test)]
mod reading;
#[cfg(test)]
mod resolving;
