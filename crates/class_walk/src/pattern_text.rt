//! The texts of patterns.

ghost use Rattle.std.specs.Prelude.{◌≡◌, ◌≢◌, ℕ, ◌+◌, ◌<◌, ◌≤◌, ◌∷◌, [], ◌++◌, length, slice_index, MatchOption, IfOk, OnOk};
ghost use Rattle.std.specs.List.{slice_split};
ghost use Rattle.path_name.specs.Joined.{HasNoSlash, IsSlashAt};
ghost use Rattle.path_name.specs.Paths.{is_slash};
ghost use Rattle.class_walk.specs.Patterns.{cleaned, parts_of, star_or_byte};
ghost use Rattle.class_walk.specs.Matching.{with_part};

use crate::pattern::PatternPart;
use std::alloc::{AllocError, Global};

/// A text without `/` at its ends, and with one `/` for those in a row.
#[tactic(auto, using(crate::proofs::CleanTexts::cleaned_is))]
pub fn cleaned(alloc: Global, text: &[u8]) -> Result<Vec<u8>, AllocError>
    ensures { IfOk result (λ clean. clean.items ≡ cleaned text.now) }
{
    let mut clean = Vec::with_capacity(alloc, text.len())?;
    let mut rest = Some(text);
    while let Some(left) = rest {
        let (part, after) = first_part(left);
        put_part(&mut clean, part)?;
        rest = after;
    }
    Ok(clean)
}

/// The place of the first `/`.
fn first_slash(text: &[u8]) -> Option<usize>
    ensures { MatchOption result (HasNoSlash text.now 0) (λ at. IsSlashAt text.now at
        × ((k : ℕ) → k < at → slice_index text.now k ≢ 47)) }
{
    text.iter().position(|byte| *byte == b'/')
}

/// The part up to the first `/`, and what follows that `/`.
fn first_part(text: &[u8]) -> (&[u8], Option<&[u8]>)
    ensures parts { MatchOption result.1 (slice_split is_slash text.now ≡ result.0.now ∷ [])
        (λ rest. slice_split is_slash text.now ≡ result.0.now ∷ slice_split is_slash rest.now) }
    ensures shorter { MatchOption result.1 (length result.0.now ≡ length text.now)
        (λ rest. length result.0.now + 1 + length rest.now ≡ length text.now) }
{
    match first_slash(text) {
        None => (text, None),
        Some(end) => (&text[..end], Some(&text[end + 1..])),
    }
}

/// Puts a part behind those before it.
fn put_part(clean: &mut Vec<u8>, part: &[u8]) -> Result<(), AllocError>
    ensures { OnOk result (clean.new.items ≡ with_part clean.old.items part.now) }
{
    if part.is_empty() {
        return Ok(());
    }
    if !clean.is_empty() {
        clean.push(b'/')?;
    }
    clean.extend_from_slice(part)
}

/// What a clean text matches, part by part.
pub fn read_parts(alloc: Global, text: &[u8]) -> Result<Vec<PatternPart>, AllocError>
    ensures { IfOk result (λ parts. parts.items ≡ parts_of text.now) }
{
    let mut parts = Vec::with_capacity(alloc, text.len())?;
    let mut rest = text;
    while let Some((byte, behind)) = rest.split_first() {
        rest = read_part(&mut parts, *byte, behind)?;
    }
    Ok(parts)
}

/// Reads the part that begins with a byte. What stands behind the part is what is left.
fn read_part<'a>(
    parts: &mut Vec<PatternPart>,
    byte: u8,
    behind: &'a [u8],
) -> Result<&'a [u8], AllocError>
    ensures part { IfOk result (λ rest. parts.new.items ++ parts_of rest.now ≡ parts.old.items ++ parts_of (byte ∷ behind.now)) }
    ensures shorter { IfOk result (λ rest. length rest.now ≤ length behind.now) }
{
    match behind.split_first() {
        Some((next, rest)) if byte == b'*' && *next == b'*' => {
            parts.push(PatternPart::Across)?;
            Ok(rest)
        }
        _ => {
            parts.push(star_or_byte(byte))?;
            Ok(behind)
        }
    }
}

fn star_or_byte(byte: u8) -> PatternPart
    ensures { result ≡ star_or_byte byte }
{
    if byte == b'*' {
        PatternPart::Within
    } else {
        PatternPart::Byte(byte)
    }
}
