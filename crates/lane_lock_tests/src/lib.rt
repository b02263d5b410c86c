//! The lane lock at work: lanes in threads of one scope, over a machine that counts its steps.
//!
//! Nothing here is used by another crate. `tally` is the machine, `lanes` runs its lanes and has the tests.
#![tactic(auto)]

#[cfg(test)]
mod lanes;
#[cfg(test)]
mod tally;
