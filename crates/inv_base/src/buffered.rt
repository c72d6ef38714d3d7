ghost use Rattle.std.specs.Prelude.{◌≡◌, ℕ, ◌+◌, ◌≤◌, List, [], length, drop, vec_len, vec_capacity, IfOk, OnOk, OnErr};
ghost use Rattle.inv_base.specs.Counts.{Rose, CountsFaults};
ghost use Rattle.inv_base.specs.Outside.{Accepts, appended};
ghost use Rattle.inv_base.specs.Buffering.{with_held};

use crate::outside::{Failed, Sink};
use std::alloc::{AllocError, Global};

/// How many bytes are held back at most.
pub const ROOM: usize = 65536;

/// A sink in front of another one that holds bytes back, so that the other one gets them in pieces of
/// some 64 KiB. What it holds back counts as taken; `finish` hands on the rest.
#[derive(Drop)]
pub struct Buffered<K: Sink> {
    sink: K,
    held: Vec<u8>,
    sent: usize,
    ghost within: { sent ≤ vec_len held },
    ghost few: { vec_len held ≤ 65536 },
    ghost room: { 65536 ≤ vec_capacity held },
}

impl<K: Sink + Drop> Buffered<K> {
    /// A buffer that holds nothing, in front of the sink.
    pub fn new(alloc: Global, sink: K) -> Result<Buffered<K>, AllocError>
        ensures { IfOk result (λ buffered. ⟦<Buffered<K> as Sink>⟧.view buffered ≡ with_held (K.view sink) []) }
    {
        let held = Vec::with_capacity(alloc, ROOM)?;
        Ok(Buffered {
            sink,
            held,
            sent: 0,
        })
    }

    /// Hands on what is held back; behind a failure the rest stays.
    fn hand_on(&mut self) -> Result<(), Failed>
        ensures told { (⟦<Buffered<K> as Sink>⟧.view self.new).told ≡ (⟦<Buffered<K> as Sink>⟧.view self.old).told }
        ensures faults { CountsFaults result (⟦<Buffered<K> as Sink>⟧.view self.old).faults (⟦<Buffered<K> as Sink>⟧.view self.new).faults }
        ensures empty { OnOk result (self.new.held.items ≡ []) }
    {
        'pieces: while self.sent < self.held.len() {
            match self.sink.write(self.held.split_at(self.sent).1) {
                Ok(taken) => self.sent += taken,
                Err(failed) => return Err(failed),
            }
        }
        self.sent = 0;
        self.held.clear();
        Ok(())
    }

    /// Hands on the rest, and answers the sink behind. Where it fails, the rest is lost.
    pub fn finish(self) -> (K, Result<(), Failed>)
        ensures told { OnOk result.1 ((K.view result.0).told ≡ (⟦<Buffered<K> as Sink>⟧.view self).told) }
        ensures front { (rest : List ℕ) × (appended rest (K.view result.0).told ≡ (⟦<Buffered<K> as Sink>⟧.view self).told) }
        ensures faults { CountsFaults result.1 (⟦<Buffered<K> as Sink>⟧.view self).faults (K.view result.0).faults }
    {
        let mut buffered = self;
        let handed = buffered.hand_on();
        let Buffered {
            sink,
            held: _,
            sent: _,
        } = buffered;
        (sink, handed)
    }
}

impl<K: Sink + Drop> Sink for Buffered<K> {
    ghost view = { λ buffered. with_held (K.view buffered.sink) (drop buffered.sent buffered.held.items) };

    fn write(&mut self, piece: &[u8]) -> Result<usize, Failed> {
        if ROOM <= piece.len() {
            return match self.hand_on() {
                Ok(()) => self.sink.write(piece),
                Err(failed) => Err(failed),
            };
        }
        if ROOM - self.held.len() < piece.len() {
            self.hand_on()?;
        }
        let _ = self.held.extend_from_slice(piece);
        Ok(piece.len())
    }
}
