//! Single-quoted texts of PHP, behind their opening quote.

ghost use Rattle.std.specs.Prelude.{◌≡◌, ◌++◌, ◌<◌, ◌≤◌, ℕ, false, true, length, slice_index, OnOk};
ghost use Rattle.table_scan.specs.TableTokens.{is_special};
ghost use Rattle.table_scan.specs.QuotedTexts.{escaped, closed};
ghost use Rattle.table_print.specs.Parts.{StartsSpecial};

use memchr::memchr2;
use std::alloc::AllocError;

const QUOTE: u8 = b'\'';

const ESCAPE: u8 = b'\\';

/// How many bytes stand before the first `\` or `'`.
fn plain_len(text: &[u8]) -> usize
    ensures within { result ≤ length text.now }
    ensures plain { (k : ℕ) → k < result → is_special (slice_index text.now k) ≡ false }
    ensures special { result < length text.now → is_special (slice_index text.now result) ≡ true }
{
    memchr2(ESCAPE, QUOTE, text).unwrap_or(text.len())
}

/// The bytes before the first `\` or `'`, which stand for themselves, and what follows them.
fn plain_run(text: &[u8]) -> (&[u8], &[u8])
    ensures kept { escaped text.now ≡ result.0.now ++ escaped result.1.now }
    ensures stops { StartsSpecial result.1.now }
    ensures within { length result.1.now ≤ length text.now }
{
    text.split_at(plain_len(text))
}

/// Adds a text and its closing quote, `\` and `'` preceded by `\`. Its one refusal is want of memory.
pub fn add_closed(out: &mut Vec<u8>, text: &[u8]) -> Result<(), AllocError>
    ensures { OnOk result (out.new.items ≡ out.old.items ++ closed text.now) }
{
    let mut rest = text;
    loop {
        let (run, end) = plain_run(rest);
        out.extend_from_slice(run)?;
        let Some((byte, after)) = end.split_first() else {
            break;
        };
        out.extend_from_slice(&[ESCAPE, *byte])?;
        rest = after;
    }
    out.push(QUOTE)?;
    Ok(())
}
