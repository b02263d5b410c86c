//! Images that are written by hand, part by part, and what an import makes of them.
//!
//! Nothing here is used by another crate. `chains` reads the five chains under a seal, `pools` imports whole images,
//! `damage` has seals and parts that break a rule, and `faults` has disks whose calls fail. `parts` has the records, the
//! chains and the seals that they share, and `importing` the one way in which an image is imported. What comes out is
//! written out from what was put in; none of it was taken from a run.
#![tactic(auto)]

#[cfg(test)]
mod chains;
#[cfg(test)]
mod comparing;
#[cfg(test)]
mod damage;
#[cfg(test)]
mod faults;
#[cfg(test)]
mod importing;
#[cfg(test)]
mod parts;
#[cfg(test)]
mod pools;
