//! Kinds of bytes, and runs of one kind.

ghost use Rattle.std.specs.Prelude.{◌≡◌, ◌≤◌, ◌==◌, length, take, drop};
ghost use Rattle.path_name.specs.Bytes.{is_blank, is_digit, lower, starts_identifier, continues_identifier};
ghost use Rattle.php_lex.specs.Places.{has_first, begins_with, run_of, after_run, is_space, is_line_end, SkipsTo};
ghost use Rattle.php_lex.specs.Marks.{is_mark, begins_word, can_open};
ghost use Rattle.memchr.specs.Find.{is_byte, is_byte2, is_byte3};

use memchr::{memchr, memchr2, memchr3};

// For each byte a digit: 0 for a digit, 1 for a byte that starts an identifier, 2 for a blank, 3 for a byte
// that can begin nothing but a mark, 4 for one that can begin a comment or a quoted element, 5 for the rest.
static CLASSES: [u8; 256] = *b"\
    33333333322332333333333333333333\
    23445334333335340000000000534335\
    31111111111111111111111111135331\
    41111111111111111111111111133333\
    11111111111111111111111111111111\
    11111111111111111111111111111111\
    11111111111111111111111111111111\
    11111111111111111111111111111111";

/// Whether an identifier may begin with the byte.
#[inline(always)]
pub(crate) fn starts_identifier(byte: u8) -> bool
    ensures { result ≡ starts_identifier byte }
{
    CLASSES[usize::from(byte)] == b'1'
}

/// Whether an identifier may go on with the byte.
#[inline(always)]
pub(crate) fn continues_identifier(byte: u8) -> bool
    ensures { result ≡ continues_identifier byte }
{
    CLASSES[usize::from(byte)] < b'2'
}

/// Whether the byte is a digit.
#[inline(always)]
pub(crate) fn is_digit(byte: u8) -> bool
    ensures { result ≡ is_digit byte }
{
    CLASSES[usize::from(byte)] == b'0'
}

/// Whether the byte is a space, a tab, LF or CR.
#[inline(always)]
pub(crate) fn is_blank(byte: u8) -> bool
    ensures { result ≡ is_blank byte }
{
    CLASSES[usize::from(byte)] == b'2'
}

/// Whether the byte begins nothing but a mark.
#[inline(always)]
fn is_mark(byte: u8) -> bool
    ensures { result ≡ is_mark byte }
{
    CLASSES[usize::from(byte)] == b'3'
}

// Whether the byte begins neither a blank, a comment nor a quoted element.
#[inline(always)]
fn begins_word(byte: u8) -> bool
    ensures { result ≡ begins_word byte }
{
    let class = CLASSES[usize::from(byte)];
    (class == b'5') | (class == b'0')
}

// Whether a comment or a quoted element can begin with the byte.
#[inline(always)]
fn can_open(byte: u8) -> bool
    ensures { result ≡ can_open byte }
{
    CLASSES[usize::from(byte)] == b'4'
}

/// Whether the byte is LF or CR.
#[inline(always)]
pub(crate) fn is_line_end(byte: u8) -> bool
    ensures { result ≡ is_line_end byte }
{
    byte == b'\n' || byte == b'\r'
}

/// Whether this byte stands at a place.
#[inline(always)]
pub(crate) fn has_at(text: &[u8], at: usize, byte: u8) -> bool
    ensures { result ≡ has_first (λ b. b == byte) (drop at text.now) }
{
    at < text.len() && text[at] == byte
}

/// Whether this small letter or other byte stands at a place, in any case.
#[inline(always)]
pub(crate) fn has_lower_at(text: &[u8], at: usize, byte: u8) -> bool
    ensures { result ≡ has_first (λ b. lower b == byte) (drop at text.now) }
{
    at < text.len() && text[at].to_ascii_lowercase() == byte
}

/// Whether a byte that starts an identifier stands at a place.
#[inline(always)]
pub(crate) fn starts_identifier_at(text: &[u8], at: usize) -> bool
    ensures { result ≡ has_first starts_identifier (drop at text.now) }
{
    at < text.len() && starts_identifier(text[at])
}

/// Whether a byte that continues an identifier stands at a place.
#[inline(always)]
pub(crate) fn continues_identifier_at(text: &[u8], at: usize) -> bool
    ensures { result ≡ has_first continues_identifier (drop at text.now) }
{
    at < text.len() && continues_identifier(text[at])
}

/// Whether a digit stands at a place.
#[inline(always)]
pub(crate) fn is_digit_at(text: &[u8], at: usize) -> bool
    ensures { result ≡ has_first is_digit (drop at text.now) }
{
    at < text.len() && is_digit(text[at])
}

/// Whether a blank stands at a place.
#[inline(always)]
pub(crate) fn is_blank_at(text: &[u8], at: usize) -> bool
    ensures { result ≡ has_first is_blank (drop at text.now) }
{
    at < text.len() && is_blank(text[at])
}

/// Whether a byte that begins nothing but a mark stands at a place.
#[inline(always)]
pub(crate) fn is_mark_at(text: &[u8], at: usize) -> bool
    ensures { result ≡ has_first is_mark (drop at text.now) }
{
    at < text.len() && is_mark(text[at])
}

/// Whether a byte that begins neither a blank, a comment nor a quoted element stands at a place.
#[inline(always)]
pub(crate) fn begins_word_at(text: &[u8], at: usize) -> bool
    ensures { result ≡ has_first begins_word (drop at text.now) }
{
    at < text.len() && begins_word(text[at])
}

/// Whether a byte that a comment or a quoted element can begin with stands at a place.
#[inline(always)]
pub(crate) fn can_open_at(text: &[u8], at: usize) -> bool
    ensures { result ≡ has_first can_open (drop at text.now) }
{
    at < text.len() && can_open(text[at])
}

/// Whether LF or CR stands at a place.
#[inline(always)]
pub(crate) fn has_line_end_at(text: &[u8], at: usize) -> bool
    ensures { result ≡ has_first is_line_end (drop at text.now) }
{
    at < text.len() && is_line_end(text[at])
}

/// The length of the longest front of bytes that continue an identifier.
#[inline(always)]
pub(crate) fn identifier_len(text: &[u8]) -> usize
    ensures run { take result text.now ≡ run_of continues_identifier text.now }
    ensures rest { drop result text.now ≡ after_run continues_identifier text.now }
    ensures within { result ≤ length text.now }
{
    let mut len = 0;
    while len < text.len() {
        if !continues_identifier(text[len]) {
            return len;
        }
        len += 1;
    }
    len
}

/// The length of the longest front of blanks.
#[inline(always)]
pub(crate) fn blanks_len(text: &[u8]) -> usize
    ensures rest { drop result text.now ≡ after_run is_blank text.now }
    ensures within { result ≤ length text.now }
{
    let mut len = 0;
    while len < text.len() {
        if !is_blank(text[len]) {
            return len;
        }
        len += 1;
    }
    len
}

/// The length of the longest front of spaces and tabs.
pub(crate) fn spaces_len(text: &[u8]) -> usize
    ensures rest { drop result text.now ≡ after_run is_space text.now }
    ensures within { result ≤ length text.now }
{
    let mut len = 0;
    while len < text.len() {
        if text[len] != b' ' && text[len] != b'\t' {
            return len;
        }
        len += 1;
    }
    len
}

/// The first place of a byte from `at` on, or the length.
#[inline(always)]
pub(crate) fn find(text: &[u8], at: usize, byte: u8) -> usize
    requires { at ≤ length text.now }
    ensures { SkipsTo (is_byte byte) text.now at result }
{
    if has_at(text, at, byte) {
        return at;
    }
    match memchr(byte, text.split_at(at).1) {
        Some(ahead) => at + ahead,
        None => text.len(),
    }
}

/// The first place of one of two bytes from `at` on, or the length.
#[inline(always)]
pub(crate) fn find2(text: &[u8], at: usize, a: u8, b: u8) -> usize
    requires { at ≤ length text.now }
    ensures { SkipsTo (is_byte2 a b) text.now at result }
{
    if has_at(text, at, a) | has_at(text, at, b) {
        return at;
    }
    match memchr2(a, b, text.split_at(at).1) {
        Some(ahead) => at + ahead,
        None => text.len(),
    }
}

/// The first place of one of three bytes from `at` on, or the length.
#[inline(always)]
pub(crate) fn find3(text: &[u8], at: usize, a: u8, b: u8, c: u8) -> usize
    requires { at ≤ length text.now }
    ensures { SkipsTo (is_byte3 a b c) text.now at result }
{
    if has_at(text, at, a) | has_at(text, at, b) | has_at(text, at, c) {
        return at;
    }
    match memchr3(a, b, c, text.split_at(at).1) {
        Some(ahead) => at + ahead,
        None => text.len(),
    }
}

/// Whether these bytes stand here.
pub(crate) fn begins_with(text: &[u8], word: &[u8]) -> bool
    ensures { result ≡ begins_with word.now text.now }
{
    let mut at = 0;
    while at < word.len() {
        if !has_at(text, at, word[at]) {
            return false;
        }
        at += 1;
    }
    true
}
