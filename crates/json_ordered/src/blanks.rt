//! What every part of the reader needs: blanks, single bytes and words.

ghost use Rattle.std.specs.Prelude.{◌≡◌, ◌≤◌, length, IfOk};
ghost use Rattle.json_ordered.specs.JsonSteps.{Skips, NextByte, ByteSteps, WordSteps};

use crate::scan::{Blank, run_len};
use crate::stop::Stop;
use path_name::is_blank;

/// What follows the blanks.
pub(crate) fn after_blanks(text: &[u8]) -> &[u8]
    ensures { Skips text.now result.now }
{
    if let Some((byte, _rest)) = text.split_first() {
        if !is_blank(*byte) {
            return text;
        }
    }
    text.split_at(run_len::<Blank>(text)).1
}

/// The next byte, and what follows it: the one place where a text may end too early.
pub(crate) fn next_byte(text: &[u8]) -> Result<(u8, &[u8]), Stop>
    ensures { NextByte text.now result }
{
    match text.split_first() {
        Some((byte, rest)) => Ok((*byte, rest)),
        None => Err(Stop::Syntax(0)),
    }
}

/// What follows this byte.
pub(crate) fn after_byte(text: &[u8], wanted: u8) -> Result<&[u8], Stop>
    ensures { ByteSteps text.now wanted result }
{
    let (byte, rest) = next_byte(text)?;
    if byte != wanted {
        return Err(Stop::Syntax(text.len()));
    }
    Ok(rest)
}

/// What follows the rest of a word.
pub(crate) fn after_word<'a>(text: &'a [u8], word: &[u8]) -> Result<&'a [u8], Stop>
    ensures steps { WordSteps text.now word.now result }
    ensures shorter { IfOk result (λ rest. length rest.now ≤ length text.now) }
{
    let mut rest = text;
    for wanted in word {
        rest = after_byte(rest, *wanted)?;
    }
    Ok(rest)
}
