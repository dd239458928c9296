//! The pieces that versions are made of, read from the left of a text.

ghost use Rattle.std.specs.Prelude.{◌≡◌, ◌<◌, ◌≤◌, length, map, All, IfOk, true};
ghost use Rattle.std.specs.List.{prefix_len, list_all};
ghost use Rattle.std.specs.Option.{option_copied, option_map};
ghost use Rattle.path_name.specs.Given.{Gives};
ghost use Rattle.path_name.specs.Bytes.{is_digit, lowered};
ghost use Rattle.path_name.specs.Decimals.{number_of};
ghost use Rattle.version_norm.specs.declared.fault.VersionFault.TheVariants.{OutOfMemory};
ghost use Rattle.version_norm.specs.Pieces.{is_one_of, without_first, begins_with_digit, number_at, part_at, branch_part_at, all_words, after_word, first_word, following_at, suffix_at, is_dev, dev_at_end};

use crate::fault::VersionFault;
use crate::version::Stage;
use path_name::{Items, is_digit};
use std::alloc::Global;

/// The most digits of a number.
pub const MOST_DIGITS: usize = 18;

/// The number of an x part.
pub const ANYTHING: u64 = 9_999_999;

/// The words that a modifier may begin with, in small letters, and what they stand for: `stable` is no stage. A
/// longer word stands before those that it begins with.
const WORDS: [(&str, Option<Stage>); 9] = [
    ("stable", None),
    ("beta", Some(Stage::Beta)),
    ("b", Some(Stage::Beta)),
    ("rc", Some(Stage::Rc)),
    ("alpha", Some(Stage::Alpha)),
    ("a", Some(Stage::Alpha)),
    ("patch", Some(Stage::Patch)),
    ("pl", Some(Stage::Patch)),
    ("p", Some(Stage::Patch)),
];

fn is_one_byte_of(bytes: &[u8], byte: u8) -> bool
    ensures { result ≡ is_one_of bytes.now byte }
{
    bytes.iter().any(|one| byte == *one)
}

/// The text without its first byte, where that is one of these.
pub fn after_one_of<'a>(text: &'a [u8], bytes: &[u8]) -> &'a [u8]
    ensures { result.now ≡ without_first (is_one_of bytes.now) text.now }
{
    match text {
        [first, rest @ ..] if is_one_byte_of(bytes, *first) => rest,
        _ => text,
    }
}

fn begins_with_digit_byte(text: &[u8]) -> bool
    ensures { result ≡ begins_with_digit text.now }
{
    match text {
        [first, ..] => is_digit(*first),
        [] => false,
    }
}

/// How many digits stand at the front.
pub fn digit_count(text: &[u8]) -> usize
    ensures count { result ≡ prefix_len is_digit text.now }
    ensures within { result ≤ length text.now }
{
    text.iter().take_while(|byte| is_digit(**byte)).count()
}

fn value_of(digits: &[u8]) -> u64
    requires short { length digits.now ≤ 18 }
    requires digits { list_all is_digit digits.now ≡ true }
    ensures { result ≡ number_of digits.now }
{
    let mut value = 0u64;
    for digit in digits {
        value = value * 10 + u64::from(*digit - b'0');
    }
    value
}

/// The number at the front, all digits in a row, from one to `most`.
#[tactic(auto, using(crate::proofs::Digits::front_passes), unfolding(crate::specs::Pieces::number_at))]
pub fn read_number(text: &[u8], most: usize) -> Result<(u64, &[u8]), VersionFault>
    requires { most ≤ 18 }
    ensures exact { Gives (λ x. (x.0, x.1.now)) OutOfMemory (number_at most text.now) result }
    ensures shorter { IfOk result (λ x. length x.1.now < length text.now) }
{
    let count = digit_count(text);
    if count == 0 || most < count {
        return Err(VersionFault::NotAVersion);
    }
    let (digits, rest) = text.split_at(count);
    Ok((value_of(digits), rest))
}

/// `.` and a number, where a digit follows a `.`.
#[tactic(auto, unfolding(crate::specs::Pieces::part_at))]
pub fn read_part(text: &[u8]) -> Result<(Option<u64>, &[u8]), VersionFault>
    ensures { Gives (λ x. (x.0, x.1.now)) OutOfMemory (part_at text.now) result }
{
    match text {
        [b'.', rest @ ..] if begins_with_digit_byte(rest) => {
            let (number, rest) = read_number(rest, MOST_DIGITS)?;
            Ok((Some(number), rest))
        }
        _ => Ok((None, text)),
    }
}

/// `.` and a number or one of `x`, `X`, `*`.
#[tactic(auto, unfolding(crate::specs::Pieces::branch_part_at))]
pub fn read_branch_part(text: &[u8]) -> Result<(Option<u64>, &[u8]), VersionFault>
    ensures { Gives (λ x. (x.0, x.1.now)) OutOfMemory (branch_part_at text.now) result }
{
    match text {
        [b'.', b'x' | b'X' | b'*', rest @ ..] => Ok((Some(ANYTHING), rest)),
        _ => read_part(text),
    }
}

/// What follows a word of small letters, where the text begins with it in any case.
pub fn after_letters<'a>(text: &'a [u8], word: &[u8]) -> Option<&'a [u8]>
    requires { lowered word.now ≡ word.now }
    ensures { option_copied result ≡ after_word word.now text.now }
{
    if text.len() < word.len() {
        return None;
    }
    let (front, rest) = text.split_at(word.len());
    if front.eq_ignore_ascii_case(word) {
        Some(rest)
    } else {
        None
    }
}

/// What the first of these words that the text begins with stands for, and what follows it.
fn first_word_of<'a>(
    words: &[(&str, Option<Stage>)],
    text: &'a [u8],
) -> Option<(Option<Stage>, &'a [u8])>
    requires { All (λ word. lowered word.0.now ≡ word.0.now) words.now }
    ensures { option_map (λ x. (x.0, x.1.now)) result ≡ first_word (map (λ word. (word.0.now, word.1)) words.now) text.now }
{
    for (spelling, stage) in words {
        if let Some(rest) = after_letters(text, spelling.as_bytes()) {
            return Some((*stage, rest));
        }
    }
    None
}

/// What the word that the text begins with stands for, and what follows it.
fn word_at(text: &[u8]) -> Option<(Option<Stage>, &[u8])>
    ensures { option_map (λ x. (x.0, x.1.now)) result ≡ first_word all_words text.now }
{
    first_word_of(&WORDS, text)
}

/// Any count of numbers, each with an optional `.` or `-` before it.
#[tactic(auto, using(crate::proofs::Front::dot_or_dash_cut))]
pub fn read_following(alloc: Global, text: &[u8]) -> Result<(Items<u64>, &[u8]), VersionFault>
    ensures { Gives (λ x. (x.0, x.1.now)) OutOfMemory (following_at text.now) result }
{
    let mut numbers = Vec::new(alloc);
    let mut rest = text;
    while begins_with_digit_byte(after_one_of(rest, b".-")) {
        let (number, after) = read_number(after_one_of(rest, b".-"), MOST_DIGITS)?;
        numbers.push(number)?;
        rest = after;
    }
    Ok((Items::of(numbers), rest))
}

/// An optional modifier: an optional separator, a word, of which its stage is given, and the numbers.
#[tactic(auto, using(crate::proofs::Front::separator_cut), unfolding(crate::specs::Pieces::suffix_at, crate::specs::Pieces::suffix_of))]
pub fn read_suffix(
    alloc: Global,
    text: &[u8],
) -> Result<(Option<(Option<Stage>, Items<u64>)>, &[u8]), VersionFault>
    ensures { Gives (λ x. (x.0, x.1.now)) OutOfMemory (suffix_at text.now) result }
{
    let Some((stage, rest)) = word_at(after_one_of(text, b"._-")) else {
        return Ok((None, text));
    };
    let (numbers, rest) = read_following(alloc, rest)?;
    Ok((Some((stage, numbers)), rest))
}

/// Whether the text is `dev`, in any case.
pub fn is_dev_word(text: &[u8]) -> bool
    ensures { result ≡ is_dev text.now }
{
    text.eq_ignore_ascii_case(b"dev")
}

/// Whether a dev mark is all that is left; no reading where anything else is.
#[tactic(auto, using(crate::proofs::Front::separator_cut), unfolding(crate::specs::Pieces::dev_at_end))]
pub fn read_dev_mark(text: &[u8]) -> Result<bool, VersionFault>
    ensures { Gives (λ x. x) OutOfMemory (dev_at_end text.now) result }
{
    if text.is_empty() {
        return Ok(false);
    }
    if is_dev_word(after_one_of(text, b"._-")) {
        Ok(true)
    } else {
        Err(VersionFault::NotAVersion)
    }
}
