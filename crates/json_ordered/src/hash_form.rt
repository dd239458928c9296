//! The compact form of a value.

ghost use Rattle.std.specs.Prelude.{◌≡◌, ◌<◌, ◌≤◌, ◌++◌, length, take, map, slice_index_or, true, OnOk, IfOk};
ghost use Rattle.std.specs.List.{list_all, flat_map};
ghost use Rattle.std.specs.Char.{IsScalar};
ghost use Rattle.std.specs.Char.Escape.{encode_utf16};
ghost use Rattle.std.specs.Str.{IsUtf8, chars};
ghost use Rattle.json_ordered.specs.JsonTree.{array_of, object_of, items_of, members_of, HasUtf8Texts, EachHasUtf8Texts, MembersHaveUtf8Texts};
ghost use Rattle.json_ordered.specs.Docs.{tree_of, pair_of};
ghost use Rattle.json_ordered.specs.JsonTexts.{unit_text, compact_char, compact_string, compact_text, are_places};
ghost use Rattle.path_name.specs.Decimals.{decimal_text};
ghost use Rattle.path_name.specs.Orders.{bytes_are_equal};
ghost use Rattle.json_ordered.specs.JsonPrinting.{is_kept, values_text, members_text};

use crate::doc::Doc;
use crate::escape::{add_comma, add_control, add_unit};
use crate::scan::{Kept, run_len};
use itoa::Buffer;
use path_name::{Name, Text};
use std::alloc::{AllocError, Global};
use std::str;

// The longest front of bytes that are kept, and what follows it.
fn kept_run(text: &str) -> (&str, &str)
    ensures parts { text.now ≡ result.0.now ++ result.1.now }
    ensures kept { list_all is_kept result.0.now ≡ true }
    ensures utf8 { IsUtf8 result.1.now }
{
    text.split_at(run_len::<Kept>(text.as_bytes()))
}

// Adds the UTF-16 of a character.
fn add_units(out: &mut Vec<u8>, code: u32) -> Result<(), AllocError>
    requires { IsScalar code }
    ensures { OnOk result (out.new.items ≡ out.old.items ++ flat_map unit_text (encode_utf16 code)) }
{
    if code < 0x1_0000 {
        return add_unit(out, code as u16);
    }
    let past = code - 0x1_0000;
    add_unit(out, (0xD800 + past / 0x400) as u16)?;
    add_unit(out, (0xDC00 + past % 0x400) as u16)
}

// Adds a character.
fn add_char(out: &mut Vec<u8>, c: char) -> Result<(), AllocError>
    ensures { OnOk result (out.new.items ≡ out.old.items ++ compact_char c) }
{
    let code = c as u32;
    if code < 0x20 {
        return add_control(out, code as u8);
    }
    if code == 34 || code == 92 || code == 47 {
        return out.extend_from_slice(&[b'\\', code as u8]);
    }
    if code < 0x80 {
        out.push(code as u8)?;
        return Ok(());
    }
    add_units(out, code)
}

// Adds characters.
fn add_chars(out: &mut Vec<u8>, text: &str) -> Result<(), AllocError>
    ensures { OnOk result (out.new.items ≡ out.old.items ++ flat_map compact_char (chars text.now)) }
{
    let mut rest = text;
    loop {
        let (kept, end) = kept_run(rest);
        out.extend_from_slice(kept.as_bytes())?;
        let mut left = end.chars();
        let Some(c) = left.next() else {
            return Ok(());
        };
        add_char(out, c)?;
        rest = left.as_str();
    }
}

// Adds a string.
#[tactic(auto, unfolding(crate::specs::JsonTexts::compact_string))]
fn add_string(out: &mut Vec<u8>, text: &[u8]) -> Result<(), AllocError>
    requires { IsUtf8 text.now }
    ensures { OnOk result (out.new.items ≡ out.old.items ++ compact_string text.now) }
{
    match str::from_utf8(text) {
        Ok(text) => {
            out.push(b'"')?;
            add_chars(out, text)?;
            out.push(b'"')?;
            Ok(())
        }
        Err(_) => unreachable!(),
    }
}

// Whether a name is a number's decimal digits.
fn is_place(name: &[u8], place: usize) -> bool
    ensures { result ≡ bytes_are_equal name.now (decimal_text place) }
{
    let mut buffer = Buffer::new();
    name == buffer.format(place).as_bytes()
}

// Whether the names are `0`, `1` and so on.
fn are_places(members: &[(Name, Doc)]) -> bool
    ensures { result ≡ are_places 0 (members_of (map pair_of members.now)) }
{
    for i in 0..members.len() {
        let member = &members[i];
        if !is_place(member.0.as_slice(), i) {
            return false;
        }
    }
    true
}

// The texts of an array's item are UTF-8 where all of the array's are: for proofs, no code runs.
fn note_item(items: &[Doc], place: usize, item: &Doc)
    requires texts { EachHasUtf8Texts (items_of (map tree_of items.now)) }
    requires within { place < length items.now }
    requires is { item.now ≡ slice_index_or items.now place item.now }
    ensures { HasUtf8Texts (tree_of item.now) }
{}

// The same of a member.
fn note_member(members: &[(Name, Doc)], place: usize, member: &(Name, Doc))
    requires texts { MembersHaveUtf8Texts (members_of (map pair_of members.now)) }
    requires within { place < length members.now }
    requires is { member.now ≡ slice_index_or members.now place member.now }
    ensures name { IsUtf8 member.now.0 }
    ensures value { HasUtf8Texts (tree_of member.now.1) }
{}

// Adds a value.
#[cycle(compact)]
#[tactic(auto, unfolding(crate::specs::JsonTexts::compact_text))]
fn add_value(out: &mut Vec<u8>, doc: &Doc) -> Result<(), AllocError>
    requires { HasUtf8Texts (tree_of doc.now) }
    ensures { OnOk result (out.new.items ≡ out.old.items ++ compact_text (tree_of doc.now)) }
{
    match doc {
        Doc::Null => out.extend_from_slice(b"null"),
        Doc::Bool(true) => out.extend_from_slice(b"true"),
        Doc::Bool(false) => out.extend_from_slice(b"false"),
        Doc::Num(text) => out.extend_from_slice(text.as_slice()),
        Doc::Str(text) => add_string(out, text.as_slice()),
        Doc::List(items) => add_items(out, items.as_slice()),
        Doc::Obj(members) => add_object(out, members.as_slice()),
    }
}

// Adds an array.
#[cycle(compact)]
fn add_items(out: &mut Vec<u8>, items: &[Doc]) -> Result<(), AllocError>
    requires { EachHasUtf8Texts (items_of (map tree_of items.now)) }
    ensures { OnOk result (out.new.items ≡ out.old.items ++ compact_text (array_of (map tree_of items.now))) }
{
    out.push(b'[')?;
    for i in 0..items.len() {
        add_comma(out, i)?;
        let item = &items[i];
        note_item(items, i, item);
        add_value(out, item)?;
    }
    out.push(b']')?;
    Ok(())
}

// Adds an object.
#[cycle(compact)]
fn add_object(out: &mut Vec<u8>, members: &[(Name, Doc)]) -> Result<(), AllocError>
    requires { MembersHaveUtf8Texts (members_of (map pair_of members.now)) }
    ensures { OnOk result (out.new.items ≡ out.old.items ++ compact_text (object_of (map pair_of members.now))) }
{
    if are_places(members) {
        add_values(out, members)
    } else {
        add_members(out, members)
    }
}

// Adds the values of members, as an array.
#[cycle(compact)]
fn add_values(out: &mut Vec<u8>, members: &[(Name, Doc)]) -> Result<(), AllocError>
    requires { MembersHaveUtf8Texts (members_of (map pair_of members.now)) }
    ensures { OnOk result (out.new.items ≡ out.old.items ++ values_text (map pair_of members.now)) }
{
    out.push(b'[')?;
    for i in 0..members.len() {
        add_comma(out, i)?;
        let member = &members[i];
        note_member(members, i, member);
        add_value(out, &member.1)?;
    }
    out.push(b']')?;
    Ok(())
}

// Adds members with their names.
#[cycle(compact)]
fn add_members(out: &mut Vec<u8>, members: &[(Name, Doc)]) -> Result<(), AllocError>
    requires { MembersHaveUtf8Texts (members_of (map pair_of members.now)) }
    ensures { OnOk result (out.new.items ≡ out.old.items ++ members_text (map pair_of members.now)) }
{
    out.push(b'{')?;
    for i in 0..members.len() {
        add_comma(out, i)?;
        let member = &members[i];
        note_member(members, i, member);
        add_string(out, member.0.as_slice())?;
        out.push(b':')?;
        add_value(out, &member.1)?;
    }
    out.push(b'}')?;
    Ok(())
}

/// Adds the compact form of a value, as [`print_hash_form`] gives it, to the end of `out`.
///
/// Its one refusal is want of memory; a part of the text may then have been added.
pub fn add_hash_form(out: &mut Vec<u8>, doc: &Doc) -> Result<(), AllocError>
    requires { HasUtf8Texts (tree_of doc.now) }
    ensures { OnOk result (out.new.items ≡ out.old.items ++ compact_text (tree_of doc.now)) }
{
    add_value(out, doc)
}

/// The compact form of a value, as PHP's `json_encode` without flags prints it: no blanks; `"`, `\` and
/// `/` preceded by `\`; `\b`, `\f`, `\n`, `\r`, `\t`, and `\u00xx` for other bytes below space; each
/// character past ASCII as `\uxxxx` in lower-case digits, past U+FFFF as a surrogate pair. An object
/// whose names are `0`, `1`, .. in that order is written as a list of its values, so an empty one is
/// `[]`. Numbers stand as they are spelled. Names and strings have to be UTF-8, as those of what
/// [`read`](crate::read) gives are.
///
/// Its one refusal is want of memory.
pub fn print_hash_form(alloc: Global, doc: &Doc) -> Result<Text, AllocError>
    requires { HasUtf8Texts (tree_of doc.now) }
    ensures { IfOk result (λ text. text ≡ compact_text (tree_of doc.now)) }
{
    let mut out = Vec::new(alloc);
    add_value(&mut out, doc)?;
    Ok(Text::of(out))
}
