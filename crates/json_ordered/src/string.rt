//! Strings and their escapes (RFC 8259, section 7).

ghost use Rattle.std.specs.Prelude.{◌≡◌, ◌<◌, ◌≤◌, ◌++◌, length, true, cond, nat_eq, OnOk, IfOk, IfErr};
ghost use Rattle.std.specs.List.{list_all};
ghost use Rattle.std.specs.Char.{IsScalar, encode_utf8};
ghost use Rattle.std.specs.Char.Utf16.{is_high_surrogate};
ghost use Rattle.json_ordered.specs.Json.{is_plain, escaped};
ghost use Rattle.json_ordered.specs.JsonSteps.{StopsPlain, HexSteps, UnitSteps, LowSteps, EscapeSteps, StringSteps};

use crate::blanks::{after_byte, next_byte};
use crate::scan::{Plain, run_len};
use crate::stop::Stop;
use std::alloc::Global;

/// The longest front of bytes that stand for themselves, and what follows it.
pub(crate) fn plain_run(text: &[u8]) -> (&[u8], &[u8])
    ensures parts { text.now ≡ result.0.now ++ result.1.now }
    ensures plain { list_all is_plain result.0.now ≡ true }
    ensures stops { StopsPlain result.1.now }
{
    text.split_at(run_len::<Plain>(text))
}

// What `\` and this letter stand for.
fn escaped(letter: u8) -> Option<u8>
    ensures { result ≡ escaped letter }
{
    match letter {
        b'"' | b'\\' | b'/' => Some(letter),
        b'b' => Some(8),
        b'f' => Some(12),
        b'n' => Some(10),
        b'r' => Some(13),
        b't' => Some(9),
        _ => None,
    }
}

// The value of a hexadecimal digit, if it is at least `least` and below `end`, and what follows it.
fn hex(text: &[u8], least: u32, end: u32) -> Result<(u32, &[u8]), Stop>
    requires { end ≤ 16 }
    ensures { HexSteps text.now least end result }
{
    let (byte, rest) = next_byte(text)?;
    match char::from(byte).to_digit(16) {
        None => Err(Stop::Syntax(text.len())),
        Some(value) => {
            if value < least || end <= value {
                return Err(Stop::Syntax(text.len()));
            }
            Ok((value, rest))
        }
    }
}

// Adds the UTF-8 of a character.
fn push_char(out: &mut Vec<u8>, code: u32) -> Result<(), Stop>
    requires { IsScalar code }
    ensures ok { OnOk result (out.new.items ≡ out.old.items ++ encode_utf8 code) }
    ensures err { IfErr result (λ e. e ≡ Stop.OutOfMemory) }
{
    match char::from_u32(code) {
        Some(c) => {
            let mut buffer = [0u8; 4];
            out.extend_from_slice(c.encode_utf8(&mut buffer).as_bytes())?;
            Ok(())
        }
        None => unreachable!(),
    }
}

// After `\u` and the first half of a pair: adds the pair's character.
fn low<'a>(out: &mut Vec<u8>, high: u32, text: &'a [u8]) -> Result<&'a [u8], Stop>
    requires { is_high_surrogate high ≡ true }
    ensures steps { LowSteps high text.now out.old.items out.new.items result }
    ensures shorter { IfOk result (λ rest. length rest.now < length text.now) }
{
    let slash = after_byte(text, b'\\')?;
    let u = after_byte(slash, b'u')?;
    let (a, rest) = hex(u, 13, 14)?;
    let (b, rest) = hex(rest, 12, 16)?;
    let (c, rest) = hex(rest, 0, 16)?;
    let (d, rest) = hex(rest, 0, 16)?;
    let low = ((a * 16 + b) * 16 + c) * 16 + d;
    push_char(out, 0x1_0000 + (high - 0xD800) * 0x400 + (low - 0xDC00))?;
    Ok(rest)
}

// Whether a unit is the first half of a pair.
fn is_high(unit: u32) -> bool
    ensures { result ≡ is_high_surrogate unit }
{
    0xD800 <= unit && unit < 0xDC00
}

// What the second digit is below: a low surrogate doesn't come first.
fn second_end(first: u32) -> u32
    ensures value { result ≡ cond (nat_eq first 13) 12 16 }
    ensures bound { result ≤ 16 }
{
    if first == 13 { 12 } else { 16 }
}

// After `\u`: adds the character that the digits spell, with those of the other half of a pair.
fn unit<'a>(out: &mut Vec<u8>, text: &'a [u8]) -> Result<&'a [u8], Stop>
    ensures steps { UnitSteps text.now out.old.items out.new.items result }
    ensures shorter { IfOk result (λ rest. length rest.now < length text.now) }
{
    let (a, rest) = hex(text, 0, 16)?;
    let (b, rest) = hex(rest, 0, second_end(a))?;
    let (c, rest) = hex(rest, 0, 16)?;
    let (d, rest) = hex(rest, 0, 16)?;
    let unit = ((a * 16 + b) * 16 + c) * 16 + d;
    if is_high(unit) {
        return low(out, unit, rest);
    }
    push_char(out, unit)?;
    Ok(rest)
}

// After `\`: adds what the escape stands for.
fn escape<'a>(out: &mut Vec<u8>, text: &'a [u8]) -> Result<&'a [u8], Stop>
    ensures steps { EscapeSteps text.now out.old.items out.new.items result }
    ensures shorter { IfOk result (λ rest. length rest.now < length text.now) }
{
    let (letter, rest) = next_byte(text)?;
    if letter == b'u' {
        return unit(out, rest);
    }
    match escaped(letter) {
        None => Err(Stop::Syntax(text.len())),
        Some(byte) => {
            out.push(byte)?;
            Ok(rest)
        }
    }
}

// The bytes of a string that has begun, run by run, and what follows its end.
#[inline(never)]
fn string_by_runs(alloc: Global, text: &[u8]) -> Result<(Vec<u8>, &[u8]), Stop>
    ensures steps { StringSteps text.now result }
    ensures shorter { IfOk result (λ x. length x.1.now ≤ length text.now) }
{
    let mut out = Vec::new(alloc);
    let mut rest = text;
    loop {
        let (run, end) = plain_run(rest);
        out.extend_from_slice(run)?;
        let (byte, after) = next_byte(end)?;
        if byte == b'"' {
            return Ok((out, after));
        }
        if byte != b'\\' {
            return Err(Stop::Syntax(end.len()));
        }
        rest = escape(&mut out, after)?;
    }
}

/// The bytes of a string that has begun, and what follows its end. Most have no escape, and are copied in
/// one piece.
pub(crate) fn string(alloc: Global, text: &[u8]) -> Result<(Vec<u8>, &[u8]), Stop>
    ensures steps { StringSteps text.now result }
    ensures shorter { IfOk result (λ x. length x.1.now ≤ length text.now) }
{
    let (run, end) = plain_run(text);
    if let Some((byte, rest)) = end.split_first() {
        if *byte == b'"' {
            return Ok((Vec::from_slice(alloc, run)?, rest));
        }
    }
    string_by_runs(alloc, text)
}
