//! The pretty form of a value.

ghost use Rattle.std.specs.Prelude.{◌≡◌, ◌≤◌, ◌++◌, ℕ, List, [], ◌∷◌, length, map, Ok, OnOk, IfOk};
ghost use Rattle.std.specs.List.{flat_map};
ghost use Rattle.json_ordered.specs.JsonTree.{array_of, object_of, items_of, members_of};
ghost use Rattle.json_ordered.specs.Json.{IsJson, most_levels};
ghost use Rattle.json_ordered.specs.JsonFaults.{json_of};
ghost use Rattle.json_ordered.specs.JsonDocuments.{IsDocument};
ghost use Rattle.json_ordered.specs.Docs.{tree_of, pair_of};
ghost use Rattle.json_ordered.specs.JsonTexts.{pretty_byte, pretty_string, pretty_at, pretty_text};
ghost use Rattle.json_ordered.specs.JsonPrinting.{pretty_from_item, pretty_from_member};

use crate::doc::Doc;
use crate::escape::{add_comma, add_control};
use crate::string::plain_run;
use path_name::{Name, Text};
use std::alloc::{AllocError, Global};

// How much further in a level's lines begin.
const BLANKS: [u8; 4] = *b"    ";

// Adds a byte of a string.
fn add_byte(out: &mut Vec<u8>, byte: u8) -> Result<(), AllocError>
    ensures { OnOk result (out.new.items ≡ out.old.items ++ pretty_byte byte) }
{
    if byte < 0x20 {
        return add_control(out, byte);
    }
    if byte == 34 || byte == 92 {
        return out.extend_from_slice(&[b'\\', byte]);
    }
    out.push(byte)?;
    Ok(())
}

// Adds a string.
#[tactic(auto, unfolding(crate::specs::JsonTexts::pretty_string))]
fn add_string(out: &mut Vec<u8>, text: &[u8]) -> Result<(), AllocError>
    ensures { OnOk result (out.new.items ≡ out.old.items ++ pretty_string text.now) }
{
    out.push(b'"')?;
    let mut rest = text;
    loop {
        let (run, end) = plain_run(rest);
        out.extend_from_slice(run)?;
        let Some((byte, after)) = end.split_first() else {
            break;
        };
        add_byte(out, *byte)?;
        rest = after;
    }
    out.push(b'"')?;
    Ok(())
}

// Adds a value inside such a line.
#[cycle(pretty)]
#[tactic(auto, unfolding(crate::specs::JsonTexts::pretty_at))]
fn add_value(out: &mut Vec<u8>, line: &mut Vec<u8>, doc: &Doc) -> Result<(), AllocError>
    ensures text { OnOk result (out.new.items ≡ out.old.items ++ pretty_at line.old.items (tree_of doc.now)) }
    ensures line { OnOk result (line.new.items ≡ line.old.items) }
{
    match doc {
        Doc::Null => out.extend_from_slice(b"null"),
        Doc::Bool(true) => out.extend_from_slice(b"true"),
        Doc::Bool(false) => out.extend_from_slice(b"false"),
        Doc::Num(text) => out.extend_from_slice(text.as_slice()),
        Doc::Str(text) => add_string(out, text.as_slice()),
        Doc::List(items) => add_array(out, line, items.as_slice()),
        Doc::Obj(members) => add_object(out, line, members.as_slice()),
    }
}

// Adds an array.
#[cycle(pretty)]
fn add_array(out: &mut Vec<u8>, line: &mut Vec<u8>, items: &[Doc]) -> Result<(), AllocError>
    ensures text { OnOk result (out.new.items ≡ out.old.items ++ pretty_at line.old.items (array_of (map tree_of items.now))) }
    ensures line { OnOk result (line.new.items ≡ line.old.items) }
{
    if items.is_empty() {
        return out.extend_from_slice(b"[]");
    }
    out.push(b'[')?;
    line.extend_from_slice(&BLANKS)?;
    for i in 0..items.len() {
        add_comma(out, i)?;
        out.extend_from_slice(line.as_slice())?;
        add_value(out, line, &items[i])?;
    }
    line.truncate(line.len() - BLANKS.len());
    out.extend_from_slice(line.as_slice())?;
    out.push(b']')?;
    Ok(())
}

// Adds an object.
#[cycle(pretty)]
fn add_object(
    out: &mut Vec<u8>,
    line: &mut Vec<u8>,
    members: &[(Name, Doc)],
) -> Result<(), AllocError>
    ensures text { OnOk result (out.new.items ≡ out.old.items ++ pretty_at line.old.items (object_of (map pair_of members.now))) }
    ensures line { OnOk result (line.new.items ≡ line.old.items) }
{
    if members.is_empty() {
        return out.extend_from_slice(b"{}");
    }
    out.push(b'{')?;
    line.extend_from_slice(&BLANKS)?;
    for i in 0..members.len() {
        add_comma(out, i)?;
        out.extend_from_slice(line.as_slice())?;
        let member = &members[i];
        add_string(out, member.0.as_slice())?;
        out.extend_from_slice(b": ")?;
        add_value(out, line, &member.1)?;
    }
    line.truncate(line.len() - BLANKS.len());
    out.extend_from_slice(line.as_slice())?;
    out.push(b'}')?;
    Ok(())
}

/// The pretty form of a value: one entry a line, four blanks a level, `"name": value`; `[]` and `{}` for
/// empty ones. In names and strings `"` and `\` are preceded by `\`; bytes below space are `\b`, `\f`,
/// `\n`, `\r`, `\t` or `\u00xx`, and all else stands as it is, as do numbers. There is no LF at the end.
/// What it gives for a value that [`read`](crate::read) gave is read as that value again.
///
/// Its one refusal is want of memory.
pub fn print_pretty(alloc: Global, doc: &Doc) -> Result<Text, AllocError>
    // The text is the value's pretty form.
    ensures text { IfOk result (λ text. text ≡ pretty_text (tree_of doc.now)) }
    // What some text's value is printed as has that value.
    ensures read_back { IfOk result (λ text. (source : List ℕ) → IsJson source (tree_of doc.now) → json_of text ≡ Ok (tree_of doc.now)) }
    // The same without a text: names distinct, UTF-8, numbers spelled as such, at most 128 levels.
    ensures value { IfOk result (λ text. IsDocument most_levels (tree_of doc.now) → IsJson text (tree_of doc.now)) }
{
    let mut out = Vec::new(alloc);
    let mut line = Vec::from_slice(alloc, b"\n")?;
    add_value(&mut out, &mut line, doc)?;
    Ok(Text::of(out))
}
