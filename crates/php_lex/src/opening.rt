//! Where quoted elements open.

ghost use Rattle.std.specs.Prelude.{◌≡◌, ◌≤◌, ◌==◌, false, [], ◌∷◌, length, None};
ghost use Rattle.php_lex.specs.Places.{has_first};
ghost use Rattle.php_lex.specs.Quotes.{opens_heredoc, label, heredoc, quoted};
ghost use Rattle.php_lex.specs.Openings.{IsOpening, IsLabelled};

use crate::bytes::{has_at, has_line_end_at, identifier_len, spaces_len, starts_identifier_at};

/// A quoted element that opens.
#[derive(Clone, Copy)]
pub(crate) enum Opening<'a> {
    /// In single quotes.
    Single,
    /// In double quotes.
    Double,
    /// In backticks.
    Backtick,
    /// A heredoc whose label is in single quotes, by its label.
    Nowdoc(&'a [u8]),
    /// Another heredoc, by its label.
    Heredoc(&'a [u8]),
}

// The label that stands here without quotes, which a line's end follows; and the length up to there.
fn bare_label(text: &[u8]) -> Option<(&[u8], usize)>
    ensures { IsLabelled [] text.now 0 result }
{
    let len = identifier_len(text);
    if starts_identifier_at(text, 0) & has_line_end_at(text, len) {
        Some((text.split_at(len).0, len))
    } else {
        None
    }
}

// The label that stands behind the first byte, before this quote and a line's end; and the length up to there.
fn quoted_label(text: &[u8], quote: u8) -> Option<(&[u8], usize)>
    requires { 1 ≤ length text.now }
    ensures { IsLabelled (quote ∷ []) text.now 1 result }
{
    let inside = text.split_at(1).1;
    let len = identifier_len(inside);
    if starts_identifier_at(inside, 0)
        & has_at(inside, len, quote)
        & has_line_end_at(inside, len + 1)
    {
        Some((inside.split_at(len).0, len + 2))
    } else {
        None
    }
}

// The heredoc's label behind `<<<` and its spaces, in quotes or not, and the length up to the line's end.
fn label(text: &[u8]) -> Option<(Opening<'_>, usize)>
    ensures { IsOpening text.now result (label text.now) }
{
    if has_at(text, 0, b'\'') {
        match quoted_label(text, b'\'') {
            Some((name, len)) => Some((Opening::Nowdoc(name), len)),
            None => None,
        }
    } else if has_at(text, 0, b'"') {
        match quoted_label(text, b'"') {
            Some((name, len)) => Some((Opening::Heredoc(name), len)),
            None => None,
        }
    } else {
        match bare_label(text) {
            Some((name, len)) => Some((Opening::Heredoc(name), len)),
            None => None,
        }
    }
}

// Whether `<<<` stands here.
#[inline(always)]
fn opens_heredoc(text: &[u8]) -> bool
    ensures { result ≡ opens_heredoc text.now }
{
    has_at(text, 0, b'<') & has_at(text, 1, b'<') & has_at(text, 2, b'<')
}

/// Whether `<<<` stands here, and no further `<`: else no heredoc opens here.
#[inline(always)]
pub(crate) fn can_open_heredoc(text: &[u8]) -> bool
    ensures { result ≡ false → heredoc text.now ≡ None }
{
    opens_heredoc(text) & !has_at(text, 3, b'<')
}

/// The heredoc or nowdoc that opens here, if one does, and the length up to the end of that line.
#[inline(never)]
pub(crate) fn heredoc(text: &[u8]) -> Option<(Opening<'_>, usize)>
    ensures { IsOpening text.now result (heredoc text.now) }
{
    if !opens_heredoc(text) {
        return None;
    }
    let inside = text.split_at(3).1;
    let spaces = spaces_len(inside);
    match label(inside.split_at(spaces).1) {
        Some((opening, len)) => Some((opening, 3 + (spaces + len))),
        None => None,
    }
}

/// The string in quotes or backticks that opens here, if one does, and the length of its opening.
#[inline(always)]
pub(crate) fn quoted(text: &[u8]) -> Option<(Opening<'_>, usize)>
    requires { has_first (λ b. b == 60) text.now ≡ false }
    ensures { IsOpening text.now result (quoted text.now) }
{
    if has_at(text, 0, b'\'') {
        Some((Opening::Single, 1))
    } else if has_at(text, 0, b'"') {
        Some((Opening::Double, 1))
    } else if has_at(text, 0, b'`') {
        Some((Opening::Backtick, 1))
    } else {
        None
    }
}
