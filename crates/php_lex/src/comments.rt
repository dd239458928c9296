//! Comments.

ghost use Rattle.std.specs.Prelude.{◌≡◌, ◌<◌, ◌≤◌, length, drop};
ghost use Rattle.php_lex.specs.Comments.{is_line_comment, is_close_tag, opens_block, closes_block, after_line, after_block, comment};
ghost use Rattle.php_lex.specs.Lengths.{IsLengthOf};

use crate::bytes::{find, find3, has_at, has_line_end_at};

// Whether `//`, or `#` that is not followed by `[`, stands here.
#[inline(always)]
fn is_line_comment(text: &[u8]) -> bool
    ensures { result ≡ is_line_comment text.now }
{
    (has_at(text, 0, b'/') & has_at(text, 1, b'/'))
        | (has_at(text, 0, b'#') & !has_at(text, 1, b'['))
}

/// Whether `?>` stands here.
#[inline(always)]
pub(crate) fn is_close_tag(text: &[u8]) -> bool
    ensures { result ≡ is_close_tag text.now }
{
    has_at(text, 0, b'?') & has_at(text, 1, b'>')
}

// Whether `/*` stands here.
#[inline(always)]
fn opens_block(text: &[u8]) -> bool
    ensures { result ≡ opens_block text.now }
{
    has_at(text, 0, b'/') & has_at(text, 1, b'*')
}

// Whether `*/` stands here.
#[inline(always)]
fn closes_block(text: &[u8]) -> bool
    ensures { result ≡ closes_block text.now }
{
    has_at(text, 0, b'*') & has_at(text, 1, b'/')
}

// The length up to behind the line's end or up to `?>`, looked for behind the first byte.
fn line_len(text: &[u8]) -> usize
    requires { 1 ≤ length text.now }
    ensures rest { drop result text.now ≡ after_line (drop 1 text.now) }
    ensures some { 1 ≤ result }
    ensures within { result ≤ length text.now }
{
    let mut at = 1;
    while at < text.len() {
        at = find3(text, at, b'\n', b'\r', b'?');
        if at == text.len() {
            return at;
        }
        if has_line_end_at(text, at) {
            return at + 1;
        }
        if is_close_tag(text.split_at(at).1) {
            return at;
        }
        at += 1;
    }
    at
}

// The length up to behind the first `*/` behind the first two bytes, or the whole length.
fn block_len(text: &[u8]) -> usize
    requires { 2 ≤ length text.now }
    ensures rest { drop result text.now ≡ after_block (drop 2 text.now) }
    ensures some { 2 ≤ result }
    ensures within { result ≤ length text.now }
{
    let mut at = 2;
    while at < text.len() {
        at = find(text, at, b'*');
        if at == text.len() {
            return at;
        }
        if closes_block(text.split_at(at).1) {
            return at + 2;
        }
        at += 1;
    }
    at
}

/// The length of the comment that stands here, if one does.
#[inline(always)]
pub(crate) fn comment_len(text: &[u8]) -> Option<usize>
    ensures { IsLengthOf text.now result (comment text.now) }
{
    if is_line_comment(text) {
        Some(line_len(text))
    } else if opens_block(text) {
        Some(block_len(text))
    } else {
        None
    }
}
