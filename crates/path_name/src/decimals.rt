//! Decimal numbers below 2^64, read and written.

ghost use Rattle.std.specs.Prelude.{◌≡◌, ◌++◌, OnOk, OnErr};
ghost use Rattle.std.specs.List.{list_all};
ghost use Rattle.path_name.specs.Bytes.{is_digit};
ghost use Rattle.path_name.specs.Decimals.{is_number, number_in, decimal_text};

use crate::bytes::is_digit;
use itoa::Buffer;
use std::alloc::AllocError;

fn all_digits(text: &[u8]) -> bool
    ensures { result ≡ list_all is_digit text.now }
{
    text.iter().all(|byte| is_digit(*byte))
}

/// Whether a text is one digit or more and nothing else.
pub fn is_number(text: &[u8]) -> bool
    ensures { result ≡ is_number text.now }
{
    match text {
        [] => false,
        [first, rest @ ..] => is_digit(*first) && all_digits(rest),
    }
}

/// The number that a text of one digit or more stands for; it may have leading zeros. None: the text is
/// something else, or stands for 2^64 or more.
#[tactic(auto, unfolding(crate::specs::Decimals::number_in))]
pub fn read_number(text: &[u8]) -> Option<u64>
    ensures { result ≡ number_in text.now }
{
    if !is_number(text) {
        return None;
    }
    match std::str::from_utf8(text) {
        Ok(digits) => digits.parse::<u64>().ok(),
        Err(_) => None,
    }
}

/// Adds a number's digits, without leading zeros; `0` for 0. Its one refusal is want of memory, and then
/// nothing changed.
pub fn push_number(text: &mut Vec<u8>, number: u64) -> Result<(), AllocError>
    ensures added { OnOk result (text.new.items ≡ text.old.items ++ decimal_text number) }
    ensures kept { OnErr result (text.new.items ≡ text.old.items) }
{
    let mut digits = Buffer::new();
    text.extend_from_slice(digits.format(number).as_bytes())
}
