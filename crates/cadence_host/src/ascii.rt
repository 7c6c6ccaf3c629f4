//! The test whether bytes are ASCII. Those of 2 to 32 bytes are tested by two words, which may overlap.
ghost use Rattle.std.specs.Prelude.{◌+◌, ◌<◌, ◌↔◌, ◌≤◌, IsTrue, length};
ghost use Rattle.std.specs.Str.{IsAscii};
ghost use Rattle.cadence_host.specs.Ascii.{IsAsciiBetween};

use std::simd::prelude::*;

/// Returns whether the bytes are ASCII.
pub(crate) fn is_ascii(bytes: &[u8]) -> bool
    ensures { IsTrue result ↔ IsAscii bytes.now }
{
    let len = bytes.len();
    if 8 <= len {
        if len <= 16 {
            return is_ascii_by::<8>(bytes);
        }
        if len <= 32 {
            return is_ascii_by::<16>(bytes);
        }
        return bytes.is_ascii();
    }
    // Settings without tags have an empty text.
    if len == 0 {
        return true;
    }
    if 4 <= len {
        return is_ascii_by::<4>(bytes);
    }
    if 2 <= len {
        return is_ascii_by::<2>(bytes);
    }
    bytes[0] < 128
}

// Returns whether at least N bytes, and at most twice as many, are ASCII. The first N and the last N are all of them.
#[inline(always)]
fn is_ascii_by<const N: usize>(bytes: &[u8]) -> bool
    requires lanes { (0 < N) × (N ≤ 64) }
    requires length { (N ≤ length bytes.now) × (length bytes.now ≤ N + N) }
    ensures { IsTrue result ↔ IsAscii bytes.now }
{
    is_ascii_at::<N>(bytes, 0) & is_ascii_at::<N>(bytes, bytes.len() - N)
}

// Returns whether the N bytes from this place on are ASCII.
#[inline(always)]
fn is_ascii_at<const N: usize>(bytes: &[u8], at: usize) -> bool
    requires lanes { (0 < N) × (N ≤ 64) }
    requires room { at + N ≤ length bytes.now }
    ensures { IsTrue result ↔ IsAsciiBetween bytes.now at (at + N) }
{
    let word = Simd::<u8, N>::from_slice(&bytes[at..]);
    word.simd_ge(Simd::splat(128)).to_bitmask() == 0
}
