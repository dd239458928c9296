//! Numbers, as they are spelled (RFC 8259, section 6).

ghost use Rattle.std.specs.Prelude.{◌≡◌, ◌<◌, ◌≤◌, length, IfOk};
ghost use Rattle.json_ordered.specs.JsonReading.{part_after, may_end};
ghost use Rattle.json_ordered.specs.JsonSteps.{Ended, NumberSteps};

use crate::stop::Stop;

/// The part of a number that has come last.
#[derive(Clone, Copy, Debug, PartialEq, Eq)]
pub(crate) enum Part {
    Minus,
    Zero,
    Int,
    Point,
    Frac,
    E,
    Sign,
    Exp,
}

/// The part that one more byte makes, or none where the number doesn't go on with it.
pub(crate) fn part_after(part: Part, byte: u8) -> Option<Part>
    ensures { result ≡ part_after part byte }
{
    match (part, byte) {
        (Part::Minus, b'0') => Some(Part::Zero),
        (Part::Minus | Part::Int, b'0'..=b'9') => Some(Part::Int),
        (Part::Zero | Part::Int, b'.') => Some(Part::Point),
        (Part::Point | Part::Frac, b'0'..=b'9') => Some(Part::Frac),
        (Part::Zero | Part::Int | Part::Frac, b'e' | b'E') => Some(Part::E),
        (Part::E, b'+' | b'-') => Some(Part::Sign),
        (Part::E | Part::Sign | Part::Exp, b'0'..=b'9') => Some(Part::Exp),
        _ => None,
    }
}

/// Whether a number may end behind this part.
pub(crate) fn may_end(part: Part) -> bool
    ensures { result ≡ may_end part }
{
    match part {
        Part::Zero | Part::Int | Part::Frac | Part::Exp => true,
        Part::Minus | Part::Point | Part::E | Part::Sign => false,
    }
}

// The first `len` bytes as a number, if it may end behind this part.
fn ended(text: &[u8], len: usize, part: Part) -> Result<(&[u8], &[u8]), Stop>
    requires { len ≤ length text.now }
    ensures { Ended text.now len part result }
{
    if may_end(part) {
        Ok(text.split_at(len))
    } else {
        Err(Stop::Syntax(text.len() - len))
    }
}

/// A number whose first byte makes `first`, and what follows it.
pub(crate) fn number(text: &[u8], first: Part) -> Result<(&[u8], &[u8]), Stop>
    requires { 0 < length text.now }
    ensures steps { NumberSteps text.now first result }
    ensures shorter { IfOk result (λ x. length x.1.now < length text.now) }
{
    let mut part = first;
    let mut len = 1;
    while len < text.len() {
        match part_after(part, text[len]) {
            Some(next) => part = next,
            None => return ended(text, len, part),
        }
        len += 1;
    }
    ended(text, len, part)
}
