//! Kinds of bytes. Letters are ASCII letters.

ghost use Rattle.std.specs.Prelude.{◌≡◌, ◌≤◌, length, drop};
ghost use Rattle.std.specs.List.{list_all, prefix_len};
ghost use Rattle.path_name.specs.Bytes.{is_blank, is_digit, starts_identifier, continues_identifier, is_identifier, lower};

/// Whether a byte is a space, a tab, LF or CR.
#[inline(always)]
pub const fn is_blank(byte: u8) -> bool
    ensures { result ≡ is_blank byte }
{
    byte == b' ' || byte == b'\t' || byte == b'\n' || byte == b'\r'
}

fn blank_count(text: &[u8]) -> usize
    ensures count { result ≡ prefix_len is_blank text.now }
    ensures within { result ≤ length text.now }
{
    text.iter().take_while(|byte| is_blank(**byte)).count()
}

/// The text without the blanks at its front.
pub fn after_blanks(text: &[u8]) -> &[u8]
    ensures { result.now ≡ drop (prefix_len is_blank text.now) text.now }
{
    text.split_at(blank_count(text)).1
}

/// Whether a byte is one of `0` to `9`.
#[inline(always)]
pub const fn is_digit(byte: u8) -> bool
    ensures { result ≡ is_digit byte }
{
    byte.is_ascii_digit()
}

/// Whether an identifier may begin with this byte: a letter, `_`, or a byte of 128 and more. (PHP manual,
/// 'Variables: Basics': `[a-zA-Z_\x80-\xff][a-zA-Z0-9_\x80-\xff]*`.)
#[inline(always)]
pub const fn starts_identifier(byte: u8) -> bool
    ensures { result ≡ starts_identifier byte }
{
    byte.is_ascii_alphabetic() || byte == b'_' || byte >= 128
}

/// Whether an identifier may go on with this byte: what it may begin with, or a digit.
#[inline(always)]
pub const fn continues_identifier(byte: u8) -> bool
    ensures { result ≡ continues_identifier byte }
{
    starts_identifier(byte) || is_digit(byte)
}

fn all_continue(rest: &[u8]) -> bool
    ensures { result ≡ list_all continues_identifier rest.now }
{
    rest.iter().all(|byte| continues_identifier(*byte))
}

/// Whether a text is an identifier: a byte that may begin one, and then bytes that one may go on with.
pub fn is_identifier(text: &[u8]) -> bool
    ensures { result ≡ is_identifier text.now }
{
    match text {
        [] => false,
        [first, rest @ ..] => starts_identifier(*first) && all_continue(rest),
    }
}

/// The small form of `A` to `Z`; another byte as it is.
#[inline(always)]
pub const fn lower(byte: u8) -> u8
    ensures { result ≡ lower byte }
{
    byte.to_ascii_lowercase()
}
