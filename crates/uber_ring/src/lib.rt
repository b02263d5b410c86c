//! The ring of seals: the roots of a pool image.
//!
//! A seal is all that a pool's program has to know to find the rest: the pool's settings, the state of
//! the table's logs, the pointers to the first pages, and sums that the pages must agree with. A seal's
//! body fills one sector. Its last 32 bytes are the SHA-256 of all before them, and what lacks this
//! digest is no body. The group of a seal modulo 16 is the slot of the ring that it belongs in, and a
//! body in another slot holds no seal.
//!
//! A gate is a sector that is open exactly where its first 8 bytes say so, and whatever is behind them.
//!
//! What a body says is written down in `specs/Seals.antt`, how one is spelled in `specs/Spelling.antt`, and
//! which seal counts in `specs/Ring.antt`. Laws of `proofs/` tie them: a seal is read back from its body, by
//! its version and in its group's slot, and a body is spelled again, `SealLaws.{length-body_bytes,
//! body_seal-body_bytes, body_bytes-seal_in}`; what is written to open a gate opens it, and what is written
//! to close it doesn't, `Gates.{opens, closes, length-open_gate, length-closed_gate}`; the seal that counts
//! is valid and no valid one is higher, `Newest.{newest_valid, newest_highest}`; and which seal counts once
//! one slot has changed, `Newest.{newest_stays, newest_becomes, newest_begins, newest_none}`.
//! Nothing here takes memory.
#![tactic(auto)]

mod body;
mod gate;
mod ring;
mod seal;

pub use ring::{FEWEST_SECTORS, SLOTS, close_slot, find, gate_open, open_slot, write_body};
pub use seal::{Seal, seal_fits};
