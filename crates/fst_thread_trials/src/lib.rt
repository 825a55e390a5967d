//! Trials of threads: a cell call by call, two threads at the ends of one, and two workers of a run.
#![tactic(auto)]

#[cfg(test)]
mod calls;
#[cfg(test)]
mod threads;
#[cfg(test)]
mod workers;
