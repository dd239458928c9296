//! Runs of bytes that pass a test, sixteen bytes at a time.

ghost use Rattle.std.specs.Prelude.{◌≡◌, ◌+◌, ◌≤◌, length, drop};
ghost use Rattle.std.specs.List.{prefix_len};
ghost use Rattle.path_name.specs.Bytes.{is_blank};
ghost use Rattle.json_ordered.specs.Json.{is_plain};
ghost use Rattle.json_ordered.specs.JsonPrinting.{is_kept};
ghost use Rattle.json_ordered.specs.JsonScans.{failing};

use path_name::is_blank;
use std::simd::prelude::*;

/// A test of bytes.
pub(crate) trait ByteTest {
    ghost use Rattle.std.specs.Prelude.{ℕ, Bool};

    ghost passes: { ℕ → Bool };

    /// Whether a byte passes.
    fn is_passed(byte: u8) -> bool
        ensures { result ≡ passes byte };

    /// The bytes that fail, a bit for each, the first one lowest.
    fn failing(bytes: u8x16) -> u64
        ensures { result ≡ failing passes bytes };
}

/// The bytes that stand for themselves in a string.
pub(crate) struct Plain;

/// Blanks.
pub(crate) struct Blank;

/// The bytes that the compact form has as they are: ASCII from space on, apart from `"`, `\` and `/`.
pub(crate) struct Kept;

impl ByteTest for Plain {
    ghost passes = { is_plain };

    fn is_passed(byte: u8) -> bool {
        byte >= 0x20 && byte != b'"' && byte != b'\\'
    }

    #[inline(always)]
    fn failing(bytes: u8x16) -> u64 {
        (bytes.simd_eq(u8x16::splat(b'"'))
            | bytes.simd_eq(u8x16::splat(b'\\'))
            | bytes.simd_lt(u8x16::splat(0x20))).to_bitmask()
    }
}

impl ByteTest for Blank {
    ghost passes = { is_blank };

    fn is_passed(byte: u8) -> bool {
        is_blank(byte)
    }

    #[inline(always)]
    fn failing(bytes: u8x16) -> u64 {
        (bytes.simd_ne(u8x16::splat(b' '))
            & bytes.simd_ne(u8x16::splat(b'\n'))
            & bytes.simd_ne(u8x16::splat(b'\t'))
            & bytes.simd_ne(u8x16::splat(b'\r'))).to_bitmask()
    }
}

impl ByteTest for Kept {
    ghost passes = { is_kept };

    fn is_passed(byte: u8) -> bool {
        0x20 <= byte && byte < 0x80 && !(byte == b'"' || byte == b'\\' || byte == b'/')
    }

    #[inline(always)]
    fn failing(bytes: u8x16) -> u64 {
        (bytes.simd_eq(u8x16::splat(b'"'))
            | bytes.simd_eq(u8x16::splat(b'\\'))
            | bytes.simd_eq(u8x16::splat(b'/'))
            | bytes.simd_lt(u8x16::splat(0x20))
            | bytes.simd_ge(u8x16::splat(0x80))).to_bitmask()
    }
}

// The end of the run, one byte at a time, where it reaches up to `from`.
fn run_len_from<T: ByteTest>(text: &[u8], from: usize) -> usize
    requires { from ≤ length text.now }
    ensures { result ≡ from + prefix_len T.passes (drop from text.now) }
{
    let mut len = from;
    while len < text.len() && T::is_passed(text[len]) {
        len += 1;
    }
    len
}

/// How many bytes at the front pass a test.
#[inline(always)]
pub(crate) fn run_len<T: ByteTest>(text: &[u8]) -> usize
    ensures { result ≡ prefix_len T.passes text.now }
{
    let mut len = 0;
    while text.len() - len >= 16 {
        let failing = T::failing(u8x16::from_slice(&text[len..]));
        if failing != 0 {
            return len + failing.trailing_zeros() as usize;
        }
        len += 16;
    }
    run_len_from::<T>(text, len)
}
