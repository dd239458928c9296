//! The last place of a text where a word that declares can stand.

ghost use Rattle.std.specs.Prelude.{◌≡◌, ◌+◌, ◌<◌, ◌≤◌, ℕ, false, length, drop, MatchOption};
ghost use Rattle.path_name.specs.Bytes.{lowered};
ghost use Rattle.php_decl.specs.Quiet.{is_gap, stands_at, is_tail, tail_at, NotEnding, NoneEnds, NoneBetween, NoneLater, IsQuiet};

use crate::word::is_word;

// How many places are tried at once. The loop over them has no branch, so that the compiler can make vectors of it.
const BLOCK: usize = 128;

// Whether the byte is a blank, or what a comment begins with.
#[inline(always)]
fn is_gap(byte: u8) -> bool
    ensures { result ≡ is_gap byte }
{
    (((byte == b' ') | (byte == b'\t')) | ((byte == b'\n') | (byte == b'\r')))
        | ((byte == b'/') | (byte == b'#'))
}

// Whether these are the last two letters of a declaring word, and a gap behind them.
#[inline(always)]
fn is_tail(first: u8, second: u8, behind: u8) -> bool
    ensures { result ≡ is_tail first second behind }
{
    let a = first.to_ascii_lowercase();
    let b = second.to_ascii_lowercase();
    let of_class = ((a == b's') & (b == b's')) | ((a == b'c') & (b == b'e'));
    let of_trait = ((a == b'i') & (b == b't')) | ((a == b'u') & (b == b'm'));
    is_gap(behind) & (of_class | of_trait)
}

// Whether such letters stand somewhere between these places.
fn has_tail(text: &[u8], from: usize, to: usize) -> bool
    requires { to + 2 ≤ length text.now }
    ensures { result ≡ false → (k : ℕ) → from ≤ k → k < to → tail_at k text.now ≡ false }
{
    let mut found = false;
    let mut at = from;
    while at < to {
        found = found | is_tail(text[at], text[at + 1], text[at + 2]);
        at += 1;
    }
    found
}

// Whether this word, in small letters, stands here in any case, and a gap behind it.
fn stands_at(text: &[u8], word: &[u8]) -> bool
    requires { lowered word.now ≡ word.now }
    ensures { result ≡ stands_at word.now text.now }
{
    if text.len() <= word.len() {
        return false;
    }
    let (front, behind) = text.split_at(word.len());
    is_word(front, word) & is_gap(behind[0])
}

// Whether this word may stand so that its last two letters are at this place.
fn ends_at(text: &[u8], at: usize, word: &[u8]) -> bool
    requires small { lowered word.now ≡ word.now }
    requires within { at + 2 ≤ length text.now }
    ensures { result ≡ false → NotEnding word.now at text.now }
{
    if at + 2 < word.len() {
        return false;
    }
    stands_at(text.split_at(at + 2 - word.len()).1, word)
}

// Whether one of the four words may stand so.
fn word_ends_at(text: &[u8], at: usize) -> bool
    requires { at + 2 < length text.now }
    ensures { result ≡ false → NoneEnds at text.now }
{
    if !is_tail(text[at], text[at + 1], text[at + 2]) {
        return false;
    }
    (ends_at(text, at, b"class") | ends_at(text, at, b"interface"))
        | (ends_at(text, at, b"trait") | ends_at(text, at, b"enum"))
}

// The last place between these where one of the four words ends.
fn last_between(text: &[u8], from: usize, to: usize) -> Option<usize>
    requires { to + 2 ≤ length text.now }
    ensures { MatchOption result (NoneBetween from to text.now) (λ at. NoneLater at to text.now) }
{
    let mut at = to;
    while from < at {
        at -= 1;
        if word_ends_at(text, at) {
            return Some(at);
        }
    }
    None
}

// The same, with all places tried together first.
fn last_in_block(text: &[u8], from: usize, to: usize) -> Option<usize>
    requires { to + 2 ≤ length text.now }
    ensures { MatchOption result (NoneBetween from to text.now) (λ at. NoneLater at to text.now) }
{
    if !has_tail(text, from, to) {
        return None;
    }
    last_between(text, from, to)
}

/// A place from which on no declaring word can stand: where the last one ends, but for its last two letters.
pub(crate) fn last_place(text: &[u8]) -> usize
    ensures { IsQuiet (drop result text.now) }
{
    let mut to = text.len().saturating_sub(2);
    while 0 < to {
        let from = to.saturating_sub(BLOCK);
        match last_in_block(text, from, to) {
            Some(at) => return at,
            None => to = from,
        }
    }
    0
}
