//! The lexeme that stands first.

ghost use Rattle.std.specs.Prelude.{◌≡◌, ◌<◌, ◌==◌, false, true, length};
ghost use Rattle.path_name.specs.Bytes.{is_blank};
ghost use Rattle.php_lex.specs.Places.{has_first};
ghost use Rattle.php_lex.specs.Comments.{is_close_tag};
ghost use Rattle.php_lex.specs.Lengths.{Opens, IsFirst};

use crate::bytes::{
    begins_word_at, blanks_len, has_at, is_blank_at, is_mark_at, starts_identifier_at,
};
use crate::comments::{comment_len, is_close_tag};
use crate::lexeme::LexKind;
use crate::nested::quoted_len;
use crate::opening::{Opening, can_open_heredoc, heredoc, quoted};
use crate::signs::is_lone_sign;
use crate::tags::{html_len, is_tag, tag_len};
use crate::word::{is_variable, name, variable, word};

// A quoted element, from inside its opening.
#[inline(always)]
fn quoted_lexeme<'a>(text: &'a [u8], opening: Opening<'a>, len: usize) -> (LexKind, usize)
    requires { Opens text.now opening len }
    ensures { IsFirst true text.now result }
{
    match quoted_len(opening, text.split_at(len).1) {
        Some(more) => (LexKind::Quoted, len + more),
        None => (LexKind::Quoted, text.len()),
    }
}

// In code, where `<` stands.
#[inline(never)]
fn angle_lexeme(text: &[u8]) -> (LexKind, usize)
    requires { has_first (λ b. b == 60) text.now ≡ true }
    ensures { IsFirst true text.now result }
{
    if !can_open_heredoc(text) {
        return (LexKind::Mark, 1);
    }
    match heredoc(text) {
        Some((opening, len)) => quoted_lexeme(text, opening, len),
        None => (LexKind::Mark, 1),
    }
}

// In code, where neither a blank, `?>` nor `<` stands.
#[inline(never)]
fn other_lexeme(text: &[u8]) -> (LexKind, usize)
    requires some { 0 < length text.now }
    requires other { has_first is_blank text.now ≡ false }
    requires stays { is_close_tag text.now ≡ false }
    requires no_angle { has_first (λ b. b == 60) text.now ≡ false }
    ensures { IsFirst true text.now result }
{
    if let Some(len) = comment_len(text) {
        return (LexKind::Comment, len);
    }
    if let Some((opening, len)) = quoted(text) {
        return quoted_lexeme(text, opening, len);
    }
    word(text)
}

// In code.
#[inline(always)]
fn code_lexeme(text: &[u8]) -> (LexKind, usize)
    requires { 0 < length text.now }
    ensures { IsFirst true text.now result }
{
    if starts_identifier_at(text, 0) {
        return name(text);
    }
    if is_blank_at(text, 0) {
        return (LexKind::Blank, 1 + blanks_len(text.split_at(1).1));
    }
    if is_mark_at(text, 0) {
        return (LexKind::Mark, 1);
    }
    if is_variable(text) {
        return variable(text);
    }
    if is_lone_sign(text) {
        return (LexKind::Mark, 1);
    }
    if is_close_tag(text) {
        return (LexKind::Close, 2);
    }
    if begins_word_at(text, 0) {
        return word(text);
    }
    if has_at(text, 0, b'<') {
        return angle_lexeme(text);
    }
    other_lexeme(text)
}

// Outside code.
#[inline(never)]
fn outer_lexeme(text: &[u8]) -> (LexKind, usize)
    requires { 0 < length text.now }
    ensures { IsFirst false text.now result }
{
    if is_tag(text) {
        (LexKind::Open, tag_len(text))
    } else {
        (LexKind::Html, html_len(text))
    }
}

/// The kind and the length of the lexeme that stands first, in code or outside.
#[inline(always)]
pub(crate) fn first_lexeme(in_code: bool, text: &[u8]) -> (LexKind, usize)
    requires { 0 < length text.now }
    ensures { IsFirst in_code text.now result }
{
    if in_code {
        code_lexeme(text)
    } else {
        outer_lexeme(text)
    }
}
