//! What comes first inside a quoted element, or inside the code nested in one.

ghost use Rattle.std.specs.Prelude.{◌≡◌, ◌≢◌, ◌+◌, ◌-◌, ◌<◌, ◌==◌, ℕ, true, false, length, drop};
ghost use Rattle.php_lex.specs.Places.{begins_with, has_first, is_line_end};
ghost use Rattle.php_lex.specs.Quotes.{Single, Double, Nowdoc, Heredoc, Nested, closing};
ghost use Rattle.php_lex.specs.Lengths.{IsLengthOf};
ghost use Rattle.php_lex.specs.Openings.{element_of};
ghost use Rattle.php_lex.specs.Pieces.{opens_code_at, IsPiece};

use crate::bytes::{
    begins_with, can_open_at, continues_identifier_at, find2, find3, has_at, has_line_end_at,
    spaces_len,
};
use crate::comments::comment_len;
use crate::opening::{Opening, can_open_heredoc, heredoc, quoted};

/// What comes first, with the length up to behind it.
#[derive(Clone, Copy)]
pub(crate) enum Piece<'a> {
    /// Bytes of the element, which open and close nothing.
    Plain(usize),
    /// The end of the element.
    Closed(usize),
    /// The opening of nested code, or of braces in it.
    Nested(usize),
    /// In nested code, the opening of a quoted element.
    Quoted(Opening<'a>, usize),
}

// The length up to behind the closing label, where it begins the line behind this line's end.
#[inline(never)]
fn closing_len(text: &[u8], label: &[u8]) -> Option<usize>
    requires { has_first is_line_end text.now ≡ true }
    ensures { IsLengthOf text.now result (closing label.now text.now) }
{
    let line = text.split_at(1).1;
    let spaces = spaces_len(line);
    let rest = line.split_at(spaces).1;
    if begins_with(rest, label) & !continues_identifier_at(rest, label.len()) {
        Some(1 + (spaces + label.len()))
    } else {
        None
    }
}

// Inside single quotes.
#[inline(always)]
fn single_piece(text: &[u8]) -> Piece<'_>
    requires { 0 < length text.now }
    ensures { IsPiece Single text.now result }
{
    let at = find2(text, 0, b'\'', b'\\');
    if at == text.len() {
        Piece::Plain(at)
    } else if has_at(text, at, b'\'') {
        Piece::Closed(at + 1)
    } else if at + 1 == text.len() {
        Piece::Plain(at + 1)
    } else {
        Piece::Plain(at + 2)
    }
}

// Whether this byte stands before a place.
#[inline(always)]
fn stands_before(text: &[u8], at: usize, byte: u8) -> bool
    ensures yes { result ≡ true → (0 < at) × (has_first (λ b. b == byte) (drop (at - 1) text.now) ≡ true) }
    ensures other { result ≡ false → (j : ℕ) → j + 1 ≡ at → has_first (λ b. b == byte) (drop j text.now) ≡ false }
{
    0 < at && has_at(text, at - 1, byte)
}

// Inside double quotes or backticks.
#[inline(always)]
fn double_piece(text: &[u8], quote: u8) -> Piece<'_>
    requires some { 0 < length text.now }
    requires other { quote ≢ 36 }
    ensures { IsPiece (Double quote) text.now result }
{
    let at = find3(text, 0, quote, b'\\', b'$');
    if at == text.len() {
        Piece::Plain(at)
    } else if has_at(text, at, quote) {
        Piece::Closed(at + 1)
    } else if has_at(text, at, b'\\') {
        if at + 1 == text.len() {
            Piece::Plain(at + 1)
        } else {
            Piece::Plain(at + 2)
        }
    } else if stands_before(text, at, b'{') {
        Piece::Nested(at + 1)
    } else if has_at(text, at + 1, b'{') {
        Piece::Nested(at + 2)
    } else {
        Piece::Plain(at + 1)
    }
}

// Inside a nowdoc.
#[inline(always)]
fn nowdoc_piece<'a>(text: &'a [u8], label: &[u8]) -> Piece<'a>
    requires { 0 < length text.now }
    ensures { IsPiece (Nowdoc label.now) text.now result }
{
    let at = find2(text, 0, b'\n', b'\r');
    if at == text.len() {
        return Piece::Plain(at);
    }
    match closing_len(text.split_at(at).1, label) {
        Some(len) => Piece::Closed(at + len),
        None => Piece::Plain(at + 1),
    }
}

// Whether `{$` or `${` stands here.
#[inline(always)]
fn opens_code(text: &[u8]) -> bool
    ensures { result ≡ opens_code_at text.now }
{
    (has_at(text, 0, b'{') & has_at(text, 1, b'$'))
        | (has_at(text, 0, b'$') & has_at(text, 1, b'{'))
}

// Inside a heredoc.
#[inline(always)]
fn heredoc_piece<'a>(text: &'a [u8], label: &[u8]) -> Piece<'a>
    requires { 0 < length text.now }
    ensures { IsPiece (Heredoc label.now) text.now result }
{
    if has_line_end_at(text, 0) {
        match closing_len(text, label) {
            Some(len) => Piece::Closed(len),
            None => Piece::Plain(1),
        }
    } else if has_at(text, 0, b'\\') {
        if text.len() == 1 {
            Piece::Plain(1)
        } else if has_line_end_at(text, 1) {
            Piece::Plain(1)
        } else {
            Piece::Plain(2)
        }
    } else if opens_code(text) {
        Piece::Nested(2)
    } else {
        Piece::Plain(1)
    }
}

/// Inside a quoted element.
#[inline(always)]
pub(crate) fn quoted_piece<'a>(opening: Opening<'a>, text: &'a [u8]) -> Piece<'a>
    requires { 0 < length text.now }
    ensures { IsPiece (element_of opening.entry) text.now result }
{
    match opening {
        Opening::Single => single_piece(text),
        Opening::Double => double_piece(text, b'"'),
        Opening::Backtick => double_piece(text, b'`'),
        Opening::Nowdoc(label) => nowdoc_piece(text, label),
        Opening::Heredoc(label) => heredoc_piece(text, label),
    }
}

// Inside nested code, where `<` stands.
#[inline(never)]
fn angle_piece(text: &[u8]) -> Piece<'_>
    requires { has_first (λ b. b == 60) text.now ≡ true }
    ensures { IsPiece Nested text.now result }
{
    if !can_open_heredoc(text) {
        return Piece::Plain(1);
    }
    match heredoc(text) {
        Some((opening, len)) => Piece::Quoted(opening, len),
        None => Piece::Plain(1),
    }
}

// Inside nested code, where neither a brace nor `<` stands.
#[inline(never)]
fn opening_piece(text: &[u8]) -> Piece<'_>
    requires some { 0 < length text.now }
    requires no_opening { has_first (λ b. b == 123) text.now ≡ false }
    requires no_closing { has_first (λ b. b == 125) text.now ≡ false }
    requires no_angle { has_first (λ b. b == 60) text.now ≡ false }
    ensures { IsPiece Nested text.now result }
{
    if let Some(len) = comment_len(text) {
        return Piece::Plain(len);
    }
    if let Some((opening, len)) = quoted(text) {
        return Piece::Quoted(opening, len);
    }
    Piece::Plain(1)
}

/// Inside nested code.
#[inline(always)]
pub(crate) fn nested_piece(text: &[u8]) -> Piece<'_>
    requires { 0 < length text.now }
    ensures { IsPiece Nested text.now result }
{
    if has_at(text, 0, b'{') {
        return Piece::Nested(1);
    }
    if has_at(text, 0, b'}') {
        return Piece::Closed(1);
    }
    if !can_open_at(text, 0) {
        return Piece::Plain(1);
    }
    if has_at(text, 0, b'<') {
        return angle_piece(text);
    }
    opening_piece(text)
}
