ghost use Rattle.std.specs.Prelude.{◌≡◌, ◌+◌, ◌<◌, ◌≤◌, ℕ, List, [], ◌∷◌, length, position, option_map, get_or, IfOk};
ghost use Rattle.std.specs.Option.{ForSome};
ghost use Rattle.std.specs.List.Sorted.{IsNonDecreasing};
ghost use Rattle.line_places.specs.Places.{is_feed, place_in, count_to, AreLinesOf, EndsLine, GoesOn, Gives};

use crate::place::LinePlace;
use crate::receiver::ByteReceiver;
use inv_base::{Stops, front_len};
use std::alloc::{AllocError, Global};
use std::marker::Model;
use std::simd::prelude::*;

/// Where the lines of a file start.
pub struct LineStarts {
    // The places behind line feeds.
    starts: Vec<u32>,
    // How many bytes there are.
    length: u32,
}

impl Drop for LineStarts {
    fn drop(self) {
        let LineStarts { starts, length: _ } = self;
        drop(starts);
    }
}

impl Model for LineStarts {
    ghost use Rattle.line_places.specs.Places.{Lines, Rise};

    ghost Value = { Lines };

    ghost view = { λ s. record { starts = s.starts.items; length = s.length } };

    ghost invariant = { λ s. Rise 0 s.starts.items s.length };
}

impl LineStarts {
    /// Of no bytes.
    pub fn new(alloc: Global) -> LineStarts
        ensures { AreLinesOf result [] }
    {
        LineStarts {
            starts: Vec::new(alloc),
            length: 0,
        }
    }

    /// The line and the column of a place; of one past the end those of the end.
    pub fn place(&self, byte: u64) -> LinePlace
        ensures { (content : List ℕ) → AreLinesOf self.now content → result ≡ place_in content byte }
    {
        let within = byte.min(self.length as u64);
        let count = count_to(&self.starts, within);
        let start = start_of(&self.starts, count);
        LinePlace {
            line: count as u64 + 1,
            column: within - start as u64 + 1,
        }
    }

    /// A line of so many bytes comes behind, its line feed among them.
    fn end_line(&mut self, len: usize) -> Result<(), AllocError>
        requires { 0 < len }
        ensures { IfOk result (λ _. EndsLine len self.old self.new) }
    {
        let length = counted(self.length, len)?;
        self.starts.push(length)?;
        self.length = length;
        Ok(())
    }

    /// Bytes without a line feed come behind.
    fn go_on(&mut self, len: usize) -> Result<(), AllocError>
        ensures { IfOk result (λ _. GoesOn len self.old self.new) }
    {
        self.length = counted(self.length, len)?;
        Ok(())
    }

    /// A piece comes behind.
    fn give(&mut self, piece: &[u8]) -> Result<(), AllocError>
        ensures { IfOk result (λ _. Gives piece.now self.old self.new) }
    {
        let mut rest = piece;
        'lines: while let Some(len) = first_line(rest) {
            let (_, behind) = rest.split_at(len);
            self.end_line(len)?;
            rest = behind;
        }
        self.go_on(rest.len())
    }
}

impl ByteReceiver for LineStarts {
    ghost taken = { λ lines content. AreLinesOf lines content };

    fn take(&mut self, piece: &[u8]) -> Result<(), AllocError> {
        self.give(piece)
    }
}

/// So many bytes more.
fn counted(length: u32, count: usize) -> Result<u32, AllocError>
    ensures { IfOk result (λ all. all ≡ length + count) }
{
    match u32::try_from(count) {
        Ok(more) => match length.checked_add(more) {
            Some(all) => Ok(all),
            None => Err(AllocError),
        },
        Err(_) => Err(AllocError),
    }
}

/// Line feeds.
struct Feeds;

impl Stops for Feeds {
    ghost stops = { is_feed };

    fn is_stop(byte: u8) -> bool {
        byte == b'\n'
    }

    #[inline(always)]
    fn stops_in(block: u8x16) -> u64 {
        block.simd_eq(u8x16::splat(b'\n')).to_bitmask()
    }
}

/// How many bytes the first line has that ends, its line feed among them.
fn first_line(bytes: &[u8]) -> Option<usize>
    ensures exact { result ≡ option_map (λ feed. feed + 1) (position is_feed bytes.now) }
    ensures within { ForSome result (λ len. (0 < len) × (len ≤ length bytes.now)) }
{
    let before = front_len::<Feeds>(bytes);
    if before < bytes.len() {
        Some(before + 1)
    } else {
        None
    }
}

/// How many lines behind the first one start at the place or before it: found by halving.
fn count_to(starts: &[u32], place: u64) -> usize
    requires { IsNonDecreasing starts.now }
    ensures { result ≡ count_to place starts.now }
{
    starts.partition_point(|start| *start as u64 <= place)
}

/// Where the line starts that has so many before it.
fn start_of(starts: &[u32], count: usize) -> u32
    requires { count ≤ length starts.now }
    ensures { result ≡ get_or (0 ∷ starts.now) count 0 }
{
    if count == 0 { 0 } else { starts[count - 1] }
}
