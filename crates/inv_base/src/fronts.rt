//! How many bytes stand before the first at which a search stops, told 16 at a time.
ghost use Rattle.std.specs.Prelude.{◌≡◌, ◌+◌, ◌≤◌, ℕ, Bool, length, take, drop, map};
ghost use Rattle.std.specs.List.{position_or_len};
ghost use Rattle.std.specs.Simd.Lanes.{mask_l};

use std::simd::prelude::*;

/// How many bytes are told at once.
const LANES: usize = 16;

/// The bytes at which a search stops, told one by one and in blocks.
pub trait Stops {
    ghost stops: { ℕ → Bool };

    /// Whether the search stops at the byte.
    fn is_stop(byte: u8) -> bool
        ensures { result ≡ stops byte };

    /// A bit for each byte of the block, the lowest for the first: whether the search stops at it.
    fn stops_in(block: u8x16) -> u64
        ensures { result ≡ mask_l (map stops block) };
}

/// How many bytes of the block at that place stand before the first stop; 16 where there is none.
#[inline(always)]
fn front_of_block<S: Stops>(bytes: &[u8], place: usize) -> usize
    requires { place + LANES ≤ length bytes.now }
    ensures exact { result ≡ position_or_len S.stops (take LANES (drop place bytes.now)) }
    ensures bound { result ≤ LANES }
{
    let marks = S::stops_in(u8x16::from_slice(&bytes[place..]));
    if marks == 0 {
        LANES
    } else {
        marks.trailing_zeros() as usize
    }
}

/// The same of few bytes, one by one.
fn front_of_few<S: Stops>(bytes: &[u8]) -> usize
    ensures { result ≡ position_or_len S.stops bytes.now }
{
    let mut count = 0;
    'bytes: while count < bytes.len() {
        if S::is_stop(bytes[count]) {
            return count;
        }
        count += 1;
    }
    count
}

/// How many bytes stand before the first stop; all where there is none. The last block overlaps the one before it.
pub fn front_len<S: Stops>(bytes: &[u8]) -> usize
    ensures exact { result ≡ position_or_len S.stops bytes.now }
    ensures bound { result ≤ length bytes.now }
{
    if bytes.len() < LANES {
        return front_of_few::<S>(bytes);
    }
    let last = bytes.len() - LANES;
    let mut place = 0;
    'pieces: while place < last {
        let front = front_of_block::<S>(bytes, place);
        if front < LANES {
            return place + front;
        }
        place += LANES;
    }
    last + front_of_block::<S>(bytes, last)
}
