//! The state of tables.

ghost use Rattle.std.specs.Prelude.{◌≡◌};
ghost use Rattle.table_scan.specs.TableTokens.{Quoted, tokens, text_tokens};
ghost use Rattle.table_scan.specs.TableReading.{mode_of, before_mode, before_generation};
ghost use Rattle.table_scan.specs.TableGrammar.{mode_text, mode_key, generation_key};
ghost use Rattle.table_scan.specs.TableSteps.{Reads, Stands, token_at, tokens_at, mode_at, generation_at, state_end_at, values_at, state_at};
ghost use Rattle.table_scan.specs.TableFaults.{state_of};

use crate::gap::after_gaps;
use crate::list::{Separator, behind_item};
use crate::mark::{Mark, ends, expect, marks, opened};
use crate::number::number;
use crate::quoted::quoted;
use crate::stop::Stop;
use crate::types::{Mode, State};
use path_name::read_number;
use std::alloc::Global;

/// What follows this quoted text, where it is the next token.
fn behind_text<'a>(alloc: Global, text: &'a [u8], wanted: &[u8]) -> Result<&'a [u8], Stop>
    ensures { Reads (λ rest. tokens rest.now) (token_at (Quoted wanted.now) (tokens text.now)) result }
{
    let here = after_gaps(text);
    let (found, rest) = quoted(alloc, here)?;
    if wanted == found.as_slice() {
        Ok(rest)
    } else {
        Err(Stop::Bad(here.len()))
    }
}

#[tactic(auto, unfolding(crate::specs::TableGrammar::mode_text))]
fn mode_text(mode: Mode) -> &'static [u8]
    ensures { result.now ≡ mode_text mode }
{
    match mode {
        Mode::Plain => b"plain",
        Mode::Optimised => b"optimised",
        Mode::Authoritative => b"authoritative",
    }
}

#[tactic(auto, unfolding(crate::specs::TableGrammar::mode_key))]
fn mode_key() -> &'static [u8]
    ensures { result.now ≡ mode_key }
{
    b"mode"
}

#[tactic(auto, unfolding(crate::specs::TableGrammar::generation_key))]
fn generation_key() -> &'static [u8]
    ensures { result.now ≡ generation_key }
{
    b"generation"
}

/// The mode that a text names.
fn mode_of(text: &[u8]) -> Option<Mode>
    ensures { result ≡ mode_of text.now }
{
    if mode_text(Mode::Plain) == text {
        Some(Mode::Plain)
    } else if mode_text(Mode::Optimised) == text {
        Some(Mode::Optimised)
    } else if mode_text(Mode::Authoritative) == text {
        Some(Mode::Authoritative)
    } else {
        None
    }
}

/// The mode that the next token names, and what follows it.
fn mode(alloc: Global, text: &[u8]) -> Result<(Mode, &[u8]), Stop>
    ensures { Reads (λ x. (x.0, tokens x.1.now)) (mode_at (tokens text.now)) result }
{
    let here = after_gaps(text);
    let (name, rest) = quoted(alloc, here)?;
    match mode_of(name.as_slice()) {
        Some(mode) => Ok((mode, rest)),
        None => Err(Stop::Bad(here.len())),
    }
}

/// The number that is the next token, one below 2^64, and what follows it.
#[tactic(auto, using(crate::proofs::Spelled::few_digits))]
fn generation(text: &[u8]) -> Result<(u64, &[u8]), Stop>
    ensures { Stands (λ x. (x.0, tokens x.1.now)) (generation_at (tokens text.now)) result }
{
    let here = after_gaps(text);
    let (digits, rest) = number(here)?;
    match read_number(digits) {
        Some(generation) => Ok((generation, rest)),
        None => Err(Stop::Bad(here.len())),
    }
}

/// What follows the end of a state, behind its generation.
fn behind_end(text: &[u8]) -> Result<&[u8], Stop>
    ensures { Stands (λ rest. tokens rest.now) (state_end_at (tokens text.now)) result }
{
    match behind_item(text)? {
        Separator::Comma(rest) => marks(rest, &[Mark::Close, Mark::Semicolon]),
        Separator::Close(rest) => expect(rest, Mark::Semicolon),
    }
}

/// What follows the beginning of a state, up to the `=>` behind the first key.
fn behind_mode_key(alloc: Global, text: &[u8]) -> Result<&[u8], Stop>
    ensures { Reads (λ rest. tokens rest.now) (tokens_at before_mode (text_tokens text.now)) result }
{
    let start = opened(text)?;
    let inside = marks(start, &[Mark::Return, Mark::Array, Mark::Open])?;
    let behind_key = behind_text(alloc, inside, mode_key())?;
    Ok(expect(behind_key, Mark::Arrow)?)
}

/// What follows the `=>` behind the second key.
fn behind_generation_key(alloc: Global, text: &[u8]) -> Result<&[u8], Stop>
    ensures { Reads (λ rest. tokens rest.now) (tokens_at before_generation (tokens text.now)) result }
{
    let next = expect(text, Mark::Comma)?;
    let behind_key = behind_text(alloc, next, generation_key())?;
    Ok(expect(behind_key, Mark::Arrow)?)
}

/// The state behind its first key, up to the end of the text.
fn values(alloc: Global, text: &[u8]) -> Result<State, Stop>
    ensures { Reads (λ state. state) (values_at (tokens text.now)) result }
{
    let (mode, behind_mode) = mode(alloc, text)?;
    let next = behind_generation_key(alloc, behind_mode)?;
    let (generation, rest) = generation(next)?;
    let end = behind_end(rest)?;
    ends(end)?;
    Ok(State { mode, generation })
}

/// The state of a text's tokens.
fn state_steps(alloc: Global, text: &[u8]) -> Result<State, Stop>
    ensures { Reads (λ state. state) (state_at (text_tokens text.now)) result }
{
    let first = behind_mode_key(alloc, text)?;
    Ok(values(alloc, first)?)
}

/// The state that a text holds.
pub fn state(alloc: Global, text: &[u8]) -> Result<State, Stop>
    ensures { Reads (λ state. state) (state_of text.now) result }
{
    state_steps(alloc, text)
}
