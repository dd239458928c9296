//! Variables, names, numbers and signs.

ghost use Rattle.std.specs.Prelude.{◌≡◌, ◌<◌, ◌≤◌, true, length, drop};
ghost use Rattle.path_name.specs.Bytes.{starts_identifier, continues_identifier};
ghost use Rattle.php_lex.specs.Places.{has_first, after_run};
ghost use Rattle.php_lex.specs.Lexemes.{joins, continues_name, after_name, named, sign, word};
ghost use Rattle.php_lex.specs.Marks.{is_variable};
ghost use Rattle.php_lex.specs.Lengths.{IsWhole};

use crate::bytes::{
    continues_identifier_at, has_at, identifier_len, is_digit_at, starts_identifier_at,
};
use crate::lexeme::LexKind;

// Whether `\` before an identifier stands at a place.
#[inline(always)]
fn joins_at(text: &[u8], at: usize) -> bool
    requires { at ≤ length text.now }
    ensures { result ≡ joins (drop at text.now) }
{
    let rest = text.split_at(at).1;
    has_at(rest, 0, b'\\') & starts_identifier_at(rest, 1)
}

// Whether a name goes on at a place.
#[inline(always)]
fn continues_name_at(text: &[u8], at: usize) -> bool
    requires { at ≤ length text.now }
    ensures { result ≡ continues_name (drop at text.now) }
{
    continues_identifier_at(text, at) || joins_at(text, at)
}

// The length of identifiers joined by `\`, from inside the first one.
fn name_len(text: &[u8]) -> usize
    ensures rest { drop result text.now ≡ after_name text.now }
    ensures within { result ≤ length text.now }
{
    let mut len = 0;
    while len < text.len() {
        if !continues_name_at(text, len) {
            return len;
        }
        len += 1;
    }
    len
}

/// The name that stands here, which begins with an identifier, and its length.
#[inline(always)]
pub(crate) fn name(text: &[u8]) -> (LexKind, usize)
    requires { has_first starts_identifier text.now ≡ true }
    ensures { IsWhole text.now result (named (after_run continues_identifier text.now)) }
{
    let len = 1 + identifier_len(text.split_at(1).1);
    if joins_at(text, len) {
        (LexKind::Qualified, len + name_len(text.split_at(len).1))
    } else {
        (LexKind::Plain, len)
    }
}

// `::`, `->`, `?->`, or any one byte.
fn sign(text: &[u8]) -> (LexKind, usize)
    requires { 0 < length text.now }
    ensures { IsWhole text.now result (sign text.now) }
{
    if (has_at(text, 0, b':') & has_at(text, 1, b':'))
        | (has_at(text, 0, b'-') & has_at(text, 1, b'>'))
    {
        (LexKind::Member, 2)
    } else if has_at(text, 0, b'?') & has_at(text, 1, b'-') & has_at(text, 2, b'>') {
        (LexKind::Member, 3)
    } else {
        (LexKind::Mark, 1)
    }
}

/// Whether a variable stands here.
#[inline(always)]
pub(crate) fn is_variable(text: &[u8]) -> bool
    ensures { result ≡ is_variable text.now }
{
    has_at(text, 0, b'$') & starts_identifier_at(text, 1)
}

/// The variable that stands here, and its length.
#[inline(always)]
pub(crate) fn variable(text: &[u8]) -> (LexKind, usize)
    requires { is_variable text.now ≡ true }
    ensures { IsWhole text.now result (word text.now) }
{
    (LexKind::Variable, 1 + identifier_len(text.split_at(1).1))
}

/// The variable, name, number or sign that stands here, and its length.
pub(crate) fn word(text: &[u8]) -> (LexKind, usize)
    requires { 0 < length text.now }
    ensures { IsWhole text.now result (word text.now) }
{
    if is_variable(text) {
        variable(text)
    } else if starts_identifier_at(text, 0) {
        name(text)
    } else if joins_at(text, 0) {
        (LexKind::Qualified, 1 + name_len(text.split_at(1).1))
    } else if is_digit_at(text, 0) {
        (LexKind::Number, 1 + identifier_len(text.split_at(1).1))
    } else {
        sign(text)
    }
}
