//! Quoted elements with nested code in them.

ghost use Rattle.std.specs.Prelude.{◌≡◌, ◌+◌, ◌^◌, ◌<◌, ◌≤◌, length};
ghost use Rattle.php_lex.specs.Openings.{element_of};
ghost use Rattle.php_lex.specs.Cut.{inner_levels};
ghost use Rattle.php_lex.specs.Pieces.{IsPiece, EndsAt, EndsFrom};
ghost use Rattle.php_lex.specs.Stacks.{innermost, HasRoom, IsStep};

use crate::opening::Opening;
use crate::piece::{Piece, nested_piece, quoted_piece};
use arrayvec::ArrayVec;

/// How many quoted elements may be open inside the outermost one.
pub(crate) const LEVELS: usize = 32;

/// A quoted element that is open, and how many braces of nested code are open in it.
#[derive(Clone, Copy)]
pub(crate) struct Open<'a> {
    pub(crate) opening: Opening<'a>,
    pub(crate) braces: usize,
}

impl Default for Open<'_> {
    fn default() -> Self {
        Open {
            opening: Opening::Single,
            braces: 0,
        }
    }
}

/// What one piece leads to.
#[derive(Clone, Copy)]
pub(crate) enum Step<'a> {
    /// So many bytes on, this element is the innermost.
    GoesOn(Open<'a>, usize),
    /// So many bytes on, the outermost element has ended.
    Ends(usize),
    /// Too many elements would be open, so the outermost has no end.
    Fails,
}

// What a closing byte or label leads to.
fn close<'a>(
    top: Open<'a>,
    below: &mut ArrayVec<Open<'a>, LEVELS>,
    text: &'a [u8],
    len: usize,
) -> Step<'a>
    requires piece { IsPiece (innermost top) text.now (Piece.Closed len) }
    requires levels { length below.old.items ≤ inner_levels }
    requires room { HasRoom (length text.now) below.old.items }
    requires top_room { top.braces + length text.now < 2 ^ 64 }
    ensures { IsStep top.entry below.old.items text.now below.new.items result }
{
    if top.braces > 0 {
        let outer = Open {
            opening: top.opening,
            braces: top.braces - 1,
        };
        return Step::GoesOn(outer, len);
    }
    match below.pop() {
        Some(outer) => Step::GoesOn(outer, len),
        None => Step::Ends(len),
    }
}

// What a piece of the innermost element leads to.
fn follow<'a>(
    top: Open<'a>,
    below: &mut ArrayVec<Open<'a>, LEVELS>,
    text: &'a [u8],
    piece: Piece<'a>,
) -> Step<'a>
    requires piece { IsPiece (innermost top) text.now piece }
    requires levels { length below.old.items ≤ inner_levels }
    requires room { HasRoom (length text.now) below.old.items }
    requires top_room { top.braces + length text.now < 2 ^ 64 }
    ensures { IsStep top.entry below.old.items text.now below.new.items result }
{
    match piece {
        Piece::Plain(len) => Step::GoesOn(top, len),
        Piece::Nested(len) => {
            let inner = Open {
                opening: top.opening,
                braces: top.braces + 1,
            };
            Step::GoesOn(inner, len)
        }
        Piece::Quoted(opening, len) => match below.try_push(top) {
            Ok(()) => Step::GoesOn(Open { opening, braces: 0 }, len),
            Err(_) => Step::Fails,
        },
        Piece::Closed(len) => close(top, below, text, len),
    }
}

// What the first piece of the innermost element leads to.
fn advance<'a>(top: Open<'a>, below: &mut ArrayVec<Open<'a>, LEVELS>, text: &'a [u8]) -> Step<'a>
    requires some { 0 < length text.now }
    requires levels { length below.old.items ≤ inner_levels }
    requires room { HasRoom (length text.now) below.old.items }
    requires top_room { top.braces + length text.now < 2 ^ 64 }
    ensures { IsStep top.entry below.old.items text.now below.new.items result }
{
    if top.braces == 0 {
        let piece = quoted_piece(top.opening, text);
        return follow(top, below, text, piece);
    }
    let piece = nested_piece(text);
    follow(top, below, text, piece)
}

/// From inside a quoted element, the length up to behind its end, if it has one.
#[inline(never)]
pub(crate) fn nested_len<'a>(opening: Opening<'a>, text: &'a [u8]) -> Option<usize>
    ensures { EndsAt inner_levels (element_of opening.entry) text.now result }
{
    let mut below = ArrayVec::new();
    let mut top = Open { opening, braces: 0 };
    let mut at = 0;
    while at < text.len() {
        match advance(top, &mut below, text.split_at(at).1) {
            Step::GoesOn(next, len) => {
                top = next;
                at += len;
            }
            Step::Ends(len) => return Some(at + len),
            Step::Fails => return None,
        }
    }
    None
}

// From a place inside a quoted element, the length up to behind its end, if it has one.
fn nested_end<'a>(opening: Opening<'a>, text: &'a [u8], at: usize) -> Option<usize>
    requires { at ≤ length text.now }
    ensures { EndsFrom inner_levels (element_of opening.entry) text.now at result }
{
    match nested_len(opening, text.split_at(at).1) {
        Some(len) => Some(at + len),
        None => None,
    }
}

/// From inside a quoted element, the length up to behind its end, if it has one.
#[inline(always)]
pub(crate) fn quoted_len<'a>(opening: Opening<'a>, text: &'a [u8]) -> Option<usize>
    ensures { EndsAt inner_levels (element_of opening.entry) text.now result }
{
    let mut at = 0;
    while at < text.len() {
        match quoted_piece(opening, text.split_at(at).1) {
            Piece::Plain(len) => at += len,
            Piece::Closed(len) => return Some(at + len),
            _ => return nested_end(opening, text, at),
        }
    }
    None
}
