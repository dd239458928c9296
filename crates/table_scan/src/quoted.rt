//! Single-quoted texts of PHP.

ghost use Rattle.std.specs.Prelude.{◌≡◌, ◌≢◌, ◌++◌, ◌+◌, ◌≤◌, ◌<◌, List, ℕ, [], ◌∷◌, Some, None, Ok, length, take, slice_index, IfOk, IfSome, MatchOption, if◌then◌else◌, false, true};
ghost use Rattle.std.specs.Option.{option_map};
ghost use Rattle.table_scan.specs.TableTokens.{is_special, in_front, unquoted, piece_at, tokens};
ghost use Rattle.table_scan.specs.TableSteps.{IsNoGap, Reads, quoted_at};
ghost use Rattle.table_scan.specs.Stops.{rest_of, IsShorter};

use crate::stop::Stop;
use memchr::{memchr, memchr2};
use std::alloc::{AllocError, Global};

const QUOTE: u8 = b'\'';

const ESCAPE: u8 = b'\\';

/// How many bytes stand before the first `\` or `'`.
fn plain_len(text: &[u8]) -> usize
    ensures within { result ≤ length text.now }
    ensures plain { (k : ℕ) → k < result → is_special (slice_index text.now k) ≡ false }
    ensures special { result < length text.now → is_special (slice_index text.now result) ≡ true }
{
    memchr2(ESCAPE, QUOTE, text).unwrap_or(text.len())
}

/// Where a run of plain bytes stops.
enum Stopped<'a> {
    /// At the text's end.
    End,
    /// At a `'`, with what follows it.
    Quote(&'a [u8]),
    /// At a `\`, with the byte that it means, alone or with the byte behind it, and what follows.
    Byte(u8, &'a [u8]),
}

fn stopped_at(text: &[u8]) -> Stopped<'_>
    requires { 0 < length text.now → is_special (slice_index text.now 0) ≡ true }
    ensures rest { rest_of result ≡ unquoted text.now }
    ensures shorter { IsShorter result (length text.now) }
{
    match text.split_first() {
        None => Stopped::End,
        Some((first, rest)) => {
            if *first == QUOTE {
                Stopped::Quote(rest)
            } else {
                escaped(rest)
            }
        }
    }
}

/// What a `\` before the text means.
fn escaped(text: &[u8]) -> Stopped<'_>
    ensures rest { rest_of result ≡ unquoted (92 ∷ text.now) }
    ensures shorter { IsShorter result (length text.now + 1) }
{
    match text.split_first() {
        None => Stopped::End,
        Some((byte, rest)) => {
            if *byte == ESCAPE || *byte == QUOTE {
                Stopped::Byte(*byte, rest)
            } else {
                Stopped::Byte(ESCAPE, text)
            }
        }
    }
}

/// A text behind its opening quote, and what follows its closing quote. None where it is not closed.
fn closed_text(alloc: Global, text: &[u8]) -> Result<Option<(Vec<u8>, &[u8])>, AllocError>
    ensures exact { IfOk result (λ read. option_map (λ x. (x.0.items, x.1.now)) read ≡ unquoted text.now) }
    ensures shorter { IfOk result (λ read. IfSome read (λ x. length x.1.now < length text.now)) }
{
    let mut bytes = Vec::with_capacity(alloc, memchr(QUOTE, text).unwrap_or(0))?;
    let mut rest = text;
    loop {
        let (run, behind) = rest.split_at(plain_len(rest));
        bytes.extend_from_slice(run)?;
        match stopped_at(behind) {
            Stopped::End => return Ok(None),
            Stopped::Quote(tail) => return Ok(Some((bytes, tail))),
            Stopped::Byte(byte, tail) => {
                bytes.push(byte)?;
                rest = tail;
            }
        }
    }
}

/// What follows a `'`.
fn behind_quote(text: &[u8]) -> Option<&[u8]>
    ensures { MatchOption result ((rest : List ℕ) → text.now ≡ 39 ∷ rest → ⊥) (λ rest. text.now ≡ 39 ∷ rest.now) }
{
    match text.split_first() {
        None => None,
        Some((first, rest)) => { if *first == QUOTE { Some(rest) } else { None } }
    }
}

/// What the quoted text at the front means, and what follows it.
pub fn quoted(alloc: Global, text: &[u8]) -> Result<(Vec<u8>, &[u8]), Stop>
    requires { IsNoGap (piece_at text.now) }
    ensures reads { Reads (λ x. (x.0.items, tokens x.1.now)) (quoted_at (tokens text.now)) result }
    ensures shorter { IfOk result (λ x. length x.1.now < length text.now) }
{
    let Some(inside) = behind_quote(text) else {
        return Err(Stop::Bad(text.len()));
    };
    match closed_text(alloc, inside)? {
        None => Err(Stop::Bad(text.len())),
        Some(read) => Ok(read),
    }
}

/// A quoted text without any `\`, which means itself, and what follows it. None where something else
/// stands at the front.
pub fn plain_quoted(text: &[u8]) -> Option<(&[u8], &[u8])>
    ensures reads { IfSome result (λ x. quoted_at (tokens text.now) ≡ Ok (x.0.now, tokens x.1.now)) }
    ensures shorter { IfSome result (λ x. length x.1.now < length text.now) }
{
    match behind_quote(text) {
        None => None,
        Some(inside) => plain_closed(inside),
    }
}

/// A text without any `\` behind its opening quote, and what follows its closing quote.
fn plain_closed(text: &[u8]) -> Option<(&[u8], &[u8])>
    ensures reads { IfSome result (λ x. unquoted text.now ≡ Some (x.0.now, x.1.now)) }
    ensures shorter { IfSome result (λ x. length x.1.now < length text.now) }
{
    let (run, behind) = text.split_at(plain_len(text));
    match behind_quote(behind) {
        None => None,
        Some(rest) => Some((run, rest)),
    }
}
