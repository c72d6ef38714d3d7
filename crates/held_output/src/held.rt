ghost use Rattle.std.specs.Prelude.{◌≡◌, ℕ, ◌+◌, ◌≤◌, [], None, drop, vec_len, OnOk};
ghost use Rattle.inv_base.specs.Counts.{CountsFaults};
ghost use Rattle.inv_base.specs.Outside.{SinkView, Accepts};
ghost use Rattle.inv_base.specs.Buffering.{with_held};
ghost use Rattle.held_output.specs.Origins.{IsSince, TakesFront, Hands};

use inv_base::{Failed, Sink};
use std::alloc::Global;
use std::marker::{Brand, PhantomData};

/// How many bytes are held back at most.
const ROOM: usize = 65536;

/// Where an output stood when bytes began to be held back in front of it: what it showed then, and which one it is.
pub trait Origin {
    ghost start: { SinkView };

    ghost name: { ℕ };
}

impl Origin for Brand {
    ghost start = { record { told = None; faults = 0 } };

    ghost name = { 0 };
}

/// An output that is lent to a buffer, and given back by it: the very same reference.
#[derive(Drop)]
pub struct Lent<'a, K> {
    pub sink: &'a mut K,
}

/// A sink in front of another one that holds bytes back, so that the other one gets them in pieces of some 64 KiB. What
/// it holds back counts as taken, until it is lost. Where there is no memory to hold bytes in, it passes them on at once.
///
/// It knows which output stands behind it and what that showed at the start, so what is known of the output survives
/// whatever wrote to it.
#[derive(Drop)]
pub struct HeldOutput<'a, K: Sink, B: Origin> {
    sink: &'a mut K,
    held: Vec<u8>,
    sent: usize,
    of: PhantomData<B>,
    ghost within: { sent ≤ vec_len held },
    ghost same: { sink.ghost_name ≡ B.name },
    ghost since: { IsSince B.start (K.view sink.now) },
}

impl<'a, K: Sink, B: Origin> HeldOutput<'a, K, B> {
    /// A buffer that holds nothing, in front of the sink.
    pub fn new(alloc: Global, lent: Lent<'a, K>) -> HeldOutput<'a, K, B>
        requires name { lent.sink.ghost_name ≡ B.name }
        requires start { K.view lent.sink.now ≡ B.start }
        ensures { ⟦<HeldOutput<'a, K, B> as Sink>⟧.view result ≡ with_held (K.view lent.entry.sink.now) [] }
    {
        let Lent { sink } = lent;
        let held = match Vec::with_capacity(alloc, ROOM) {
            Ok(held) => held,
            Err(_) => Vec::new(alloc),
        };
        HeldOutput {
            sink,
            held,
            sent: 0,
            of: PhantomData,
        }
    }

    /// Hands on what is held back; behind a failure the rest stays.
    fn hand_on(&mut self) -> Result<(), Failed>
        ensures told { (⟦<HeldOutput<'a, K, B> as Sink>⟧.view self.new).told ≡ (⟦<HeldOutput<'a, K, B> as Sink>⟧.view self.old).told }
        ensures faults { CountsFaults result (⟦<HeldOutput<'a, K, B> as Sink>⟧.view self.old).faults (⟦<HeldOutput<'a, K, B> as Sink>⟧.view self.new).faults }
        ensures empty { OnOk result (self.new.held.items ≡ []) }
    {
        'pieces: while self.sent < self.held.len() {
            match self.sink.write(self.held.split_at(self.sent).1) {
                Ok(taken) => self.sent += taken,
                Err(failed) => return Err(failed),
            }
        }
        self.sent = 0;
        self.held.clear();
        Ok(())
    }

    /// Takes bytes of a piece where nothing is held back: it holds all, or passes on what has no room.
    fn take_first(&mut self, piece: &[u8]) -> Result<usize, Failed>
        requires { self.old.held.items ≡ [] }
        ensures { Accepts result piece.now (⟦<HeldOutput<'a, K, B> as Sink>⟧.view self.old) (⟦<HeldOutput<'a, K, B> as Sink>⟧.view self.new) }
    {
        if piece.len() <= self.held.capacity() - self.held.len() {
            let _ = self.held.extend_from_slice(piece);
            return Ok(piece.len());
        }
        self.sink.write(piece)
    }

    /// Hands on the rest, and gives the sink back. Where it fails, the rest is lost.
    pub fn finish(self) -> (Lent<'a, K>, Result<(), Failed>)
        ensures name { result.0.sink.ghost_name ≡ B.name }
        ensures hands { Hands result.1 B.start (⟦<HeldOutput<'a, K, B> as Sink>⟧.view self.entry) (K.view result.0.sink.now) }
    {
        let mut output = self;
        let handed = output.hand_on();
        let HeldOutput {
            sink,
            held,
            sent: _,
            of: _,
        } = output;
        drop(held);
        (Lent { sink }, handed)
    }

    /// Gives the sink back. What is still held back is lost.
    pub fn into_sink(self) -> Lent<'a, K>
        ensures name { result.sink.ghost_name ≡ B.name }
        ensures front { TakesFront B.start (⟦<HeldOutput<'a, K, B> as Sink>⟧.view self.entry) (K.view result.sink.now) }
    {
        let HeldOutput {
            sink,
            held,
            sent: _,
            of: _,
        } = self;
        drop(held);
        Lent { sink }
    }
}

impl<'a, K: Sink, B: Origin> Sink for HeldOutput<'a, K, B> {
    ghost view = { λ output. with_held (K.view output.sink.now) (drop output.sent output.held.items) };

    fn write(&mut self, piece: &[u8]) -> Result<usize, Failed> {
        if piece.len() <= self.held.capacity() - self.held.len() {
            let _ = self.held.extend_from_slice(piece);
            return Ok(piece.len());
        }
        match self.hand_on() {
            Ok(()) => self.take_first(piece),
            Err(failed) => Err(failed),
        }
    }
}
