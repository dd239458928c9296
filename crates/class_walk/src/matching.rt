//! Patterns matched.

ghost use Rattle.std.specs.Prelude.{◌≡◌, ◌+◌, ℕ, List, [], ◌∷◌, length, IfOk};
ghost use Rattle.class_walk.specs.Patterns.{is_taken, matches_front};
ghost use Rattle.class_walk.specs.Matching.{AreStates};

use crate::pattern::PatternPart;
use std::alloc::{AllocError, Global};

/// Whether the parts match a text from its first byte up to its end or up to a `/`. The text is read from its end, and for
/// each of the last parts of the pattern it is kept whether they match what was read: so the work is the bytes times the
/// parts, however many `*` there are. Its one refusal is want of memory.
pub fn matches_front(alloc: Global, parts: &[PatternPart], text: &[u8]) -> Result<bool, AllocError>
    ensures { IfOk result (λ found. found ≡ matches_front parts.now text.now) }
{
    let mut states = states_at_end(alloc, parts)?;
    for len in (0..text.len()).rev() {
        advance(parts, &mut states, text[len]);
    }
    Ok(states[0])
}

/// What the last parts of a pattern match at the end of a text: the empty rest alone.
fn states_at_end(alloc: Global, parts: &[PatternPart]) -> Result<Vec<bool>, AllocError>
    ensures { IfOk result (λ states. AreStates parts.now states.items []) }
{
    let mut states = Vec::new(alloc);
    for _ in parts {
        states.push(false)?;
    }
    states.push(true)?;
    Ok(states)
}

/// Reads one more byte.
fn advance(parts: &[PatternPart], states: &mut Vec<bool>, byte: u8)
    requires { length states.old.items ≡ length parts.now + 1 }
    ensures { (text : List ℕ) → AreStates parts.now states.old.items text → AreStates parts.now states.new.items (byte ∷ text) }
{
    for at in 0..parts.len() {
        states[at] = is_taken(parts[at], byte, states[at + 1], states[at]);
    }
    states[parts.len()] = byte == b'/';
}

fn is_taken(part: PatternPart, byte: u8, follows: bool, goes_on: bool) -> bool
    ensures { result ≡ is_taken part byte follows goes_on }
{
    match part {
        PatternPart::Byte(wanted) => byte == wanted && follows,
        PatternPart::Within => byte != b'/' && (follows || goes_on),
        PatternPart::Across => follows || goes_on,
    }
}
