//! Text outside code, and the tags that lead into it.

ghost use Rattle.std.specs.Prelude.{◌≡◌, ◌<◌, ◌≤◌, true, false, length, drop};
ghost use Rattle.php_lex.specs.Tags.{at_blank_or_end, is_full_tag, is_echo_tag, is_tag, after_tag, after_html};

use crate::bytes::{find, has_at, has_lower_at, is_blank};

// Whether a blank or the end stands at a place.
#[inline(always)]
fn is_blank_or_end(text: &[u8], at: usize) -> bool
    ensures { result ≡ at_blank_or_end (drop at text.now) }
{
    text.len() <= at || is_blank(text[at])
}

// Whether `<?=` stands here.
#[inline(always)]
fn is_echo_tag(text: &[u8]) -> bool
    ensures { result ≡ is_echo_tag text.now }
{
    has_at(text, 0, b'<') & has_at(text, 1, b'?') & has_at(text, 2, b'=')
}

// Whether `<?php` in any case stands here, before a blank or the end.
#[inline(always)]
fn is_full_tag(text: &[u8]) -> bool
    ensures { result ≡ is_full_tag text.now }
{
    has_at(text, 0, b'<')
        & has_at(text, 1, b'?')
        & has_lower_at(text, 2, b'p')
        & has_lower_at(text, 3, b'h')
        & has_lower_at(text, 4, b'p')
        & is_blank_or_end(text, 5)
}

/// Whether a tag that opens code stands here.
pub(crate) fn is_tag(text: &[u8]) -> bool
    ensures { result ≡ is_tag text.now }
{
    is_echo_tag(text) | is_full_tag(text)
}

/// The length of the tag that stands here.
pub(crate) fn tag_len(text: &[u8]) -> usize
    requires { is_tag text.now ≡ true }
    ensures rest { drop result text.now ≡ after_tag text.now }
    ensures some { 0 < result }
    ensures within { result ≤ length text.now }
{
    if is_echo_tag(text) {
        3
    } else if text.len() == 5 {
        5
    } else {
        6
    }
}

/// The length of the text outside code, up to a tag or the end, where no tag stands.
pub(crate) fn html_len(text: &[u8]) -> usize
    requires some { 1 ≤ length text.now }
    requires other { is_tag text.now ≡ false }
    ensures rest { drop result text.now ≡ after_html text.now }
    ensures some { 0 < result }
    ensures within { result ≤ length text.now }
{
    let mut at = 1;
    while at < text.len() {
        at = find(text, at, b'<');
        if at == text.len() {
            return at;
        }
        if is_tag(text.split_at(at).1) {
            return at;
        }
        at += 1;
    }
    at
}
