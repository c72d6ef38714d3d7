ghost use Rattle.std.specs.Prelude.{◌≡◌, ℕ, [], ◌∷◌, ◌++◌, ◌-◌, length, min, false, true, IfOk, OnOk, OnErr, MatchResult};
ghost use Rattle.inv_base.specs.Outside.{Accepts};
ghost use Rattle.inv_base.specs.Memory.{Taken, sink_of, is_refused, behind_refusal, behind_write};

use crate::outside::{Failed, Sink};
use std::alloc::{AllocError, Global};
use std::marker::Model;

/// A sink in memory with a room in bytes, which fails at the calls that it is told to.
///
/// Its writes are counted from 1. It fails exactly at its listed calls and where its room is full. It
/// counts its calls and its faults in numbers that stop at the greatest `u64`, and every later call has
/// that last number.
pub struct MemSink {
    bytes: Vec<u8>,
    room: usize,
    failing: Vec<u64>,
    calls: u64,
    faults: u64,
}

impl Drop for MemSink {
    fn drop(self) {
        let MemSink {
            bytes,
            room: _,
            failing,
            calls: _,
            faults: _,
        } = self;
        drop(bytes);
        drop(failing);
    }
}

impl Model for MemSink {
    ghost use Rattle.std.specs.Prelude.{ℕ, ◌+◌, ◌≤◌, vec_len, vec_capacity};
    ghost use Rattle.inv_base.specs.Memory.{Taken};

    ghost Value = { Taken };

    ghost view = { λ s. record { bytes = s.bytes.items; room = s.room; failing = s.failing.items; calls = s.calls; faults = s.faults } };

    ghost invariant = { λ s. (s.room ≤ vec_capacity s.bytes) × (vec_len s.bytes ≤ s.room) };
}

impl MemSink {
    /// A sink that has taken nothing, with this room in bytes, which it reserves.
    pub fn new(alloc: Global, room: usize) -> Result<MemSink, AllocError>
        ensures { IfOk result (λ sink. sink ≡ record { bytes = []; room = room; failing = []; calls = 0; faults = 0 }) }
    {
        Ok(MemSink {
            bytes: Vec::with_capacity(alloc, room)?,
            room,
            failing: Vec::new(alloc),
            calls: 0,
            faults: 0,
        })
    }

    /// Lets the write of that number fail, counted from 1.
    pub fn fail_at(&mut self, call: u64) -> Result<(), AllocError>
        ensures ok { OnOk result (self.new ≡ record self.old { failing = self.old.failing ++ call ∷ [] }) }
        ensures err { OnErr result (self.new ≡ self.old) }
    {
        self.failing.push(call)?;
        Ok(())
    }

    /// The bytes that it took so far.
    pub fn bytes(&self) -> &[u8]
        ensures { result.now ≡ self.now.bytes }
    {
        self.bytes.as_slice()
    }
}

impl Sink for MemSink {
    ghost view = { sink_of };

    fn write(&mut self, piece: &[u8]) -> Result<usize, Failed>
        ensures accepts { Accepts result piece.now (sink_of self.old) (sink_of self.new) }
        ensures exact { MatchResult result
            (λ n. (is_refused self.old ≡ false) × (n ≡ min (length piece.now) (self.old.room - length self.old.bytes)) ×
            (self.new ≡ behind_write n piece.now self.old))
            (λ _. (is_refused self.old ≡ true) × (self.new ≡ behind_refusal self.old)) }
    {
        self.calls = self.calls.saturating_add(1);
        if self.failing.contains(&self.calls) || self.room <= self.bytes.len() {
            self.faults = self.faults.saturating_add(1);
            return Err(Failed);
        }
        let count = piece.len().min(self.room - self.bytes.len());
        self.bytes.extend_from_slice(&piece[..count]).unwrap();
        Ok(count)
    }
}
