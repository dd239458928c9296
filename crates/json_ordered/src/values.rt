//! Reading a text.

ghost use Rattle.std.specs.Prelude.{◌≡◌, ◌<◌, ◌≤◌, ◌+◌, [], ◌∷◌, length, take, drop, map, IfOk, IfErr};
ghost use Rattle.json_ordered.specs.Json.{most_levels};
ghost use Rattle.json_ordered.specs.Docs.{tree_of};
ghost use Rattle.json_ordered.specs.JsonReading.{Plain, As_value, Before_value, In_word, In_number, In_string};
ghost use Rattle.json_ordered.specs.JsonFrames.{in_frames, NameSteps, Turn, ValueSteps, ArrayLeft, ObjectLeft, FrameLeft, Ends, WholeSteps};

use crate::blanks::{after_blanks, after_byte, after_word, next_byte};
use crate::doc::Doc;
use crate::frame::Frame;
use crate::members::joined;
use crate::number::{Part, number};
use crate::room::Room;
use crate::start::{Start, start_of};
use crate::step::Step;
use crate::stop::Stop;
use crate::string::string;
use path_name::{Name, Text};
use std::alloc::Global;

/// How many levels of arrays and objects may be open at any place.
pub const LEVELS: usize = 128;

// A name up to its `:`, and what follows.
fn member_name(alloc: Global, text: &[u8]) -> Result<(Vec<u8>, &[u8]), Stop>
    ensures steps { NameSteps text.now result }
    ensures shorter { IfOk result (λ x. length x.1.now < length text.now) }
{
    let text = after_blanks(text);
    let quoted = after_byte(text, b'"')?;
    let (name, rest) = string(alloc, quoted)?;
    let colon = after_blanks(rest);
    let rest = after_byte(colon, b':')?;
    Ok((name, rest))
}

// A string that has begun, and what follows.
fn string_value(alloc: Global, text: &[u8]) -> Result<(Step, &[u8]), Stop>
    ensures steps { ValueSteps (In_string As_value [] Plain) text.now result }
    ensures shorter { IfOk result (λ x. length x.1.now ≤ length text.now) }
{
    let (bytes, rest) = string(alloc, text)?;
    Ok((Step::Ended(Doc::Str(Text::of(bytes))), rest))
}

// A number, and what follows.
fn number_value(alloc: Global, text: &[u8], first: Part) -> Result<(Step, &[u8]), Stop>
    requires { 0 < length text.now }
    ensures steps { ValueSteps (In_number first (take 1 text.now)) (drop 1 text.now) result }
    ensures shorter { IfOk result (λ x. length x.1.now < length text.now) }
{
    let (digits, rest) = number(text, first)?;
    let bytes = Vec::from_slice(alloc, digits)?;
    Ok((Step::Ended(Doc::Num(Text::of(bytes))), rest))
}

// The document that a word stands for, and what follows the rest of the word.
fn word_value<'a>(text: &'a [u8], word: &[u8], doc: Doc) -> Result<(Step, &'a [u8]), Stop>
    ensures steps { ValueSteps (In_word word.now (tree_of doc)) text.now result }
    ensures shorter { IfOk result (λ x. length x.1.now ≤ length text.now) }
{
    let rest = after_word(text, word)?;
    Ok((Step::Ended(doc), rest))
}

// Opens an array behind its `[`, with `left` bytes from the `[` on; an empty one ends at once.
fn open_array<'a>(
    room: &mut Room,
    stack: &mut Vec<Frame>,
    left: usize,
    text: &'a [u8],
) -> Result<(Step, &'a [u8]), Stop>
    requires { left ≡ length text.now + 1 }
    ensures steps { Turn (in_frames stack.old.items Before_value) (91 ∷ text.now) stack.new.items result }
    ensures shorter { IfOk result (λ x. length x.1.now ≤ length text.now) }
    ensures bound { length stack.old.items ≤ most_levels → length stack.new.items ≤ most_levels }
{
    if stack.len() >= LEVELS {
        return Err(Stop::TooDeep(left));
    }
    let text = after_blanks(text);
    let (byte, rest) = next_byte(text)?;
    if byte == b']' {
        return Ok((Step::Ended(Doc::List(Vec::new(room.alloc))), rest));
    }
    let empty = room.items();
    stack.push(Frame::Array { items: empty })?;
    Ok((Step::Coming, text))
}

// Opens an object behind its `{`, with `left` bytes from the `{` on; an empty one ends at once.
fn open_object<'a>(
    room: &mut Room,
    stack: &mut Vec<Frame>,
    left: usize,
    text: &'a [u8],
) -> Result<(Step, &'a [u8]), Stop>
    requires { left ≡ length text.now + 1 }
    ensures steps { Turn (in_frames stack.old.items Before_value) (123 ∷ text.now) stack.new.items result }
    ensures shorter { IfOk result (λ x. length x.1.now ≤ length text.now) }
    ensures bound { length stack.old.items ≤ most_levels → length stack.new.items ≤ most_levels }
{
    if stack.len() >= LEVELS {
        return Err(Stop::TooDeep(left));
    }
    let text = after_blanks(text);
    let (byte, rest) = next_byte(text)?;
    if byte == b'}' {
        return Ok((Step::Ended(Doc::Obj(Vec::new(room.alloc))), rest));
    }
    let (name, rest) = member_name(room.alloc, text)?;
    let empty = room.members();
    stack.push(Frame::Object {
        members: empty,
        name,
    })?;
    Ok((Step::Coming, rest))
}

// Goes on behind the last item so far of an array.
fn leave_array<'a>(
    room: &mut Room,
    stack: &mut Vec<Frame>,
    items: Vec<Doc>,
    text: &'a [u8],
) -> Result<(Step, &'a [u8]), Stop>
    requires { length stack.old.items < most_levels }
    ensures steps { ArrayLeft items.items text.now stack.old.items stack.new.items result }
    ensures shorter { IfOk result (λ x. length x.1.now < length text.now) }
    ensures bound { length stack.new.items ≤ most_levels }
{
    let text = after_blanks(text);
    let (byte, rest) = next_byte(text)?;
    if byte == b',' {
        stack.push(Frame::Array { items })?;
        return Ok((Step::Coming, rest));
    }
    if byte != b']' {
        return Err(Stop::Syntax(text.len()));
    }
    Ok((Step::Ended(Doc::List(room.all_items(items)?)), rest))
}

// Goes on behind the last member so far of an object.
fn leave_object<'a>(
    room: &mut Room,
    stack: &mut Vec<Frame>,
    members: Vec<(Name, Doc)>,
    text: &'a [u8],
) -> Result<(Step, &'a [u8]), Stop>
    requires { length stack.old.items < most_levels }
    ensures steps { ObjectLeft members.items text.now stack.old.items stack.new.items result }
    ensures shorter { IfOk result (λ x. length x.1.now < length text.now) }
    ensures bound { length stack.new.items ≤ most_levels }
{
    let text = after_blanks(text);
    let (byte, rest) = next_byte(text)?;
    if byte == b',' {
        let (name, rest) = member_name(room.alloc, rest)?;
        stack.push(Frame::Object { members, name })?;
        return Ok((Step::Coming, rest));
    }
    if byte != b'}' {
        return Err(Stop::Syntax(text.len()));
    }
    let all = joined(room.alloc, members)?;
    Ok((Step::Ended(Doc::Obj(room.all_members(all)?)), rest))
}

// Goes on behind a value inside this frame.
fn leave<'a>(
    room: &mut Room,
    stack: &mut Vec<Frame>,
    frame: Frame,
    doc: Doc,
    text: &'a [u8],
) -> Result<(Step, &'a [u8]), Stop>
    requires { length stack.old.items < most_levels }
    ensures steps { FrameLeft frame doc text.now stack.old.items stack.new.items result }
    ensures shorter { IfOk result (λ x. length x.1.now < length text.now) }
    ensures bound { length stack.new.items ≤ most_levels }
{
    match frame {
        Frame::Array { mut items } => {
            items.push(doc)?;
            leave_array(room, stack, items, text)
        }
        Frame::Object { mut members, name } => {
            members.push((Name::of(name), doc))?;
            leave_object(room, stack, members, text)
        }
    }
}

// Goes on where a value comes.
fn enter<'a>(
    room: &mut Room,
    stack: &mut Vec<Frame>,
    text: &'a [u8],
) -> Result<(Step, &'a [u8]), Stop>
    ensures steps { Turn (in_frames stack.old.items Before_value) text.now stack.new.items result }
    ensures shorter { IfOk result (λ x. length x.1.now < length text.now) }
    ensures bound { length stack.old.items ≤ most_levels → length stack.new.items ≤ most_levels }
{
    let text = after_blanks(text);
    let (byte, rest) = next_byte(text)?;
    match start_of(byte) {
        Start::Array => open_array(room, stack, text.len(), rest),
        Start::Object => open_object(room, stack, text.len(), rest),
        Start::Quote => string_value(room.alloc, rest),
        Start::NullWord => word_value(rest, b"ull", Doc::Null),
        Start::TrueWord => word_value(rest, b"rue", Doc::Bool(true)),
        Start::FalseWord => word_value(rest, b"alse", Doc::Bool(false)),
        Start::Number(first) => number_value(room.alloc, text, first),
        Start::Nothing => Err(Stop::Syntax(text.len())),
    }
}

// The document of a text that ends behind it.
fn whole(doc: Doc, text: &[u8]) -> Result<Doc, Stop>
    ensures { Ends doc text.now result }
{
    let rest = after_blanks(text);
    if rest.is_empty() {
        Ok(doc)
    } else {
        Err(Stop::Syntax(rest.len()))
    }
}

/// The document of a whole text, apart from whether it is UTF-8.
pub(crate) fn document(alloc: Global, text: &[u8]) -> Result<Doc, Stop>
    ensures { WholeSteps text.now result }
{
    let mut room = Room::new(alloc);
    let mut stack = Vec::new(alloc);
    let mut step = Step::Coming;
    let mut rest = text;
    loop {
        (step, rest) = match step {
            Step::Coming => enter(&mut room, &mut stack, rest)?,
            Step::Ended(doc) => match stack.pop() {
                None => return whole(doc, rest),
                Some(frame) => leave(&mut room, &mut stack, frame, doc, rest)?,
            },
        };
    }
}
