ghost use Rattle.std.specs.Prelude.{◌≡◌};
ghost use Rattle.uber_ring.specs.Seals.{is_open};
ghost use Rattle.uber_ring.specs.Spelling.{open_gate, closed_gate};

use arrayvec::ArrayVec;
use page_tree::front::{full_array, pad_to, put};

/// What an open gate begins with.
const OPEN_TEXT: [u8; 8] = *b"DDTOPEN1";

/// Whether a gate is open.
#[tactic(auto, unfolding(crate::specs::Seals::is_open))]
pub(crate) fn is_gate_open(gate: &[u8; 4096]) -> bool
    ensures { result ≡ is_open gate.now }
{
    gate.split_at(8).0 == OPEN_TEXT.as_slice()
}

/// What an open gate is written as.
#[tactic(auto, unfolding(crate::specs::Spelling::open_gate))]
pub(crate) fn open_gate_bytes() -> [u8; 4096]
    ensures { result ≡ open_gate }
{
    let mut front = ArrayVec::new();
    put(&mut front, &OPEN_TEXT);
    pad_to(&mut front, 4096);
    full_array(front)
}

/// What a closed gate is written as.
#[tactic(auto, unfolding(crate::specs::Spelling::closed_gate))]
pub(crate) fn closed_gate_bytes() -> [u8; 4096]
    ensures { result ≡ closed_gate }
{
    let mut front = ArrayVec::new();
    pad_to(&mut front, 4096);
    full_array(front)
}
