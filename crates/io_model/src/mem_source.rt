ghost use Rattle.std.specs.Prelude.{◌≡◌, ◌<◌, ◌↔◌, min, length, drop, Some, IsErr, IfOk, OnErr};
ghost use Rattle.std.specs.Io.{ReadsAtMost};
ghost use Rattle.std.specs.Io.KnownBytes.{ReadConsumes};
ghost use Rattle.io_model.specs.Outside.{HasCause, KeepsBehind};
ghost use Rattle.io_model.specs.Calls.{no_calls, NextIsListed, one_call, one_fault};

use crate::planned_calls::PlannedCalls;
use crate::source::Source;
use disk_model::Failed;
use std::marker::Model;

/// A source whose bytes stand in memory. It gives at most a piece of them at each call, tells what is
/// left, and fails at the calls that it was told to fail.
#[derive(Debug, Drop)]
pub struct MemSource {
    bytes: Vec<u8>,
    given: usize,
    piece: usize,
    calls: PlannedCalls,
}

impl Model for MemSource {
    ghost use Rattle.std.specs.Prelude.{◌<◌, ◌≤◌, length, drop};
    ghost use Rattle.io_model.specs.Memory.{Supply};

    ghost Value = { Supply };

    ghost view = { λ source.
        record { left = drop source.given source.bytes.items; piece = source.piece; calls = source.calls } };

    ghost invariant = { λ source. (source.given ≤ length source.bytes.items) × (0 < source.piece) };
}

impl MemSource {
    /// A source of these bytes that gives at most `piece` of them at each call. Its calls whose numbers,
    /// counted from 1, stand in `fails` fail. Takes no memory.
    pub fn new(bytes: Vec<u8>, piece: usize, fails: Vec<u64>) -> MemSource
        requires { 0 < piece }
        ensures { result
            ≡ record { left = bytes.items; piece = piece; calls = no_calls fails.items } }
    {
        MemSource {
            bytes,
            given: 0,
            piece,
            calls: PlannedCalls::new(fails),
        }
    }
}

impl Source for MemSource {
    ghost left = { λ source. Some source.left };

    ghost faults = { λ source. source.calls.failed };

    fn read(&mut self, out: &mut [u8]) -> Result<usize, Failed>
        ensures bound { ReadsAtMost result out.new }
        ensures bytes { ReadConsumes (Some self.old.left) (Some self.new.left) result out.new }
        ensures behind { KeepsBehind result out.old out.new }
        ensures cause { HasCause self.old.calls.failed self.new.calls.failed result }

        // It fails where it is told to, and otherwise gives as much as it may.
        ensures fails { IsErr result ↔ NextIsListed self.old.calls }
        ensures gives { IfOk result (λ n.
            n ≡ min self.old.piece (min (length out.old) (length self.old.left))) }
        ensures ok { IfOk result (λ n.
            self.new ≡ record self.old { left = drop n self.old.left; calls = one_call self.old.calls }) }
        ensures err { OnErr result (self.new ≡ record self.old { calls = one_fault self.old.calls }) }
    {
        if self.calls.next_is_listed() {
            self.calls.count_fault();
            return Err(Failed);
        }
        self.calls.count_call();
        let left = &self.bytes[self.given..];
        let count = self.piece.min(out.len()).min(left.len());
        out[..count].copy_from_slice(&left[..count]);
        self.given += count;
        Ok(count)
    }
}
