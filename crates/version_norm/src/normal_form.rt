//! The normal form of a version.

ghost use Rattle.std.specs.Prelude.{◌≡◌, ◌≤◌, ◌++◌, length, codes, IfOk};
ghost use Rattle.std.specs.List.{list_any, list_all, position_or_len};
ghost use Rattle.std.specs.Option.{option_copied, option_map};
ghost use Rattle.path_name.specs.Given.{Gives, GivesValue};
ghost use Rattle.path_name.specs.Bytes.{is_blank};
ghost use Rattle.version_norm.specs.declared.fault.VersionFault.TheVariants.{OutOfMemory};
ghost use Rattle.version_norm.specs.Normal.{IsNormalVersion};
ghost use Rattle.version_norm.specs.Versions.{without_blanks_after, trimmed, is_flag, without_flag, is_main_line, with_branch_mark, is_in_branch_name, branch_of, is_plus, is_blank_or_comma, without_build, is_date_mark, is_in_date, ends_in_date_mark, is_date, fault_of, numbered_form, unflagged_form, normal_form};

use crate::fault::VersionFault;
use crate::numbered::{classical, numbered_branch};
use crate::pieces::{after_letters, after_one_of, digit_count};
use crate::version::Version;
use path_name::{Name, after_blanks, is_blank, is_digit};
use std::alloc::{AllocError, Global};

/// The text without the blanks at its end: spaces, tabs, LF and CR.
pub fn before_blanks(text: &[u8]) -> &[u8]
    ensures { result.now ≡ without_blanks_after text.now }
{
    let mut end = text.len();
    while end > 0 && is_blank(text[end - 1]) {
        end -= 1;
    }
    &text[..end]
}

/// Whether the text is the name of a stability, in any case.
fn is_flag_word(word: &[u8]) -> bool
    ensures { result ≡ is_flag word.now }
{
    word.eq_ignore_ascii_case(b"stable")
        || word.eq_ignore_ascii_case(b"rc")
        || word.eq_ignore_ascii_case(b"beta")
        || word.eq_ignore_ascii_case(b"alpha")
        || word.eq_ignore_ascii_case(b"dev")
}

/// The text without a final `@` and the name of a stability, in any case; all of it where it has none. Takes no
/// memory.
pub fn before_flag(text: &[u8]) -> &[u8]
    ensures { result.now ≡ without_flag text.now }
{
    for (i, byte) in text.iter().enumerate() {
        if *byte == b'@' && is_flag_word(&text[i + 1..]) {
            return &text[..i];
        }
    }
    text
}

fn is_main_line_name(text: &[u8]) -> bool
    ensures { result ≡ is_main_line text.now }
{
    text == b"master".as_slice() || text == b"trunk".as_slice() || text == b"default".as_slice()
}

fn is_branch_byte(byte: u8) -> bool
    ensures { result ≡ is_in_branch_name byte }
{
    !(is_blank(byte) || byte == b',' || byte == b'|')
}

fn is_branch_rest(name: &[u8]) -> bool
    ensures { result ≡ list_all is_in_branch_name name.now }
{
    name.iter().all(|byte| is_branch_byte(*byte))
}

/// What follows `dev-` in a branch's name, where the text names a branch.
fn branch_rest(text: &[u8]) -> Option<&[u8]>
    ensures { option_map (λ rest. codes "dev-" ++ rest.now) result ≡ branch_of (with_branch_mark text.now) }
{
    if is_main_line_name(text) {
        return Some(text);
    }
    let rest = after_letters(text, b"dev-")?;
    if rest.is_empty() || !is_branch_rest(rest) {
        return None;
    }
    Some(rest)
}

/// The branch `dev-` and the rest.
fn branch(alloc: Global, rest: &[u8]) -> Result<Version, AllocError>
    ensures { IfOk result (λ version. version ≡ Version.Branch (codes "dev-" ++ rest.now)) }
{
    let mut name = Vec::with_capacity(alloc, 4 + rest.len())?;
    name.extend_from_slice(b"dev-")?;
    name.extend_from_slice(rest)?;
    Ok(Version::Branch(Name::of(name)))
}

fn has_blank_or_comma(text: &[u8]) -> bool
    ensures { result ≡ list_any is_blank_or_comma text.now }
{
    text.iter().any(|byte| is_blank(*byte) || *byte == b',')
}

/// Where the first `+` stands; the length where there is none.
fn place_of_plus(text: &[u8]) -> usize
    ensures place { result ≡ position_or_len is_plus text.now }
    ensures within { result ≤ length text.now }
{
    text.iter().take_while(|byte| **byte != b'+').count()
}

/// The text up to a first `+` with something on both sides; all of it where it has a blank or a comma.
pub fn before_build(text: &[u8]) -> &[u8]
    ensures { result.now ≡ without_build text.now }
{
    let at = place_of_plus(text);
    if !has_blank_or_comma(text) && 0 < at && at + 1 < text.len() {
        &text[..at]
    } else {
        text
    }
}

fn is_date_mark_byte(byte: u8) -> bool
    ensures { result ≡ is_date_mark byte }
{
    matches!(byte, b'.' | b':' | b'-')
}

fn is_date_text(date: &[u8]) -> bool
    ensures { result ≡ list_all is_in_date date.now }
{
    date.iter()
        .all(|byte| is_digit(*byte) || is_date_mark_byte(*byte))
}

fn ends_in_mark(date: &[u8]) -> bool
    ensures { result ≡ ends_in_date_mark date.now }
{
    match date {
        [.., last] => is_date_mark_byte(*last),
        [] => false,
    }
}

/// Whether the text is a date: after an optional `v` four digits, and only digits and marks, with no mark last.
#[tactic(auto, using(crate::proofs::Front::small_v_cut))]
fn is_date_version(text: &[u8]) -> bool
    ensures { result ≡ is_date text.now }
{
    let date = after_one_of(text, b"v");
    4 <= digit_count(date) && is_date_text(date) && !ends_in_mark(date)
}

/// Why a text is no version.
fn fault(text: &[u8]) -> VersionFault
    ensures { result ≡ fault_of text.now }
{
    if is_date_version(text) {
        VersionFault::DateVersion
    } else {
        VersionFault::NotAVersion
    }
}

/// A classical version, else a numbered branch, else the fault.
#[tactic(auto, unfolding(crate::specs::Versions::numbered_form))]
fn numbered_version_of(alloc: Global, text: &[u8]) -> Result<Version, VersionFault>
    ensures { GivesValue OutOfMemory (numbered_form text.now) result }
{
    match classical(alloc, text) {
        Ok(numbered) => Ok(Version::Numbered(numbered)),
        Err(VersionFault::OutOfMemory) => Err(VersionFault::OutOfMemory),
        Err(VersionFault::DateVersion) | Err(VersionFault::NotAVersion) => match numbered_branch(
            text,
        ) {
            Ok(numbered) => Ok(Version::Numbered(numbered)),
            Err(VersionFault::OutOfMemory) => Err(VersionFault::OutOfMemory),
            Err(VersionFault::DateVersion) | Err(VersionFault::NotAVersion) => Err(fault(text)),
        },
    }
}

/// The normal form of a text without blanks around it and without a final stability.
#[tactic(auto, unfolding(crate::specs::Versions::unflagged_form))]
fn unflagged(alloc: Global, text: &[u8]) -> Result<Version, VersionFault>
    ensures { GivesValue OutOfMemory (unflagged_form text.now) result }
{
    if let Some(rest) = branch_rest(text) {
        return Ok(branch(alloc, rest)?);
    }
    numbered_version_of(alloc, before_build(text))
}

/// The normal form of a version's text, as of the `version` of a composer.json, by the rules of Composer's
/// documentation ("Versions and constraints") and of composer/semver. Blanks at both ends, a final `@` and
/// stability, and a build behind `+` are cut; `master`, `trunk` and `default` are branches, as is `dev-` and a
/// name; else it is a classical version, as `v1.2-beta1`, or a numbered branch, as `1.x-dev`. A number has at
/// most 18 digits, a classical version's first one at most five.
///
/// Refuses `DateVersion` where, after an optional `v`, the rest begins with four digits, has only digits, `.`,
/// `:` and `-`, and ends in a digit; `NotAVersion` where it is anything else; and `OutOfMemory` where there was
/// no memory for the answer.
#[tactic(auto, unfolding(crate::specs::Versions::normal_form))]
pub fn normalise(alloc: Global, text: &[u8]) -> Result<Version, VersionFault>
    // The version that the rules give, or their fault.
    ensures exact { GivesValue OutOfMemory (normal_form text.now) result }
    // A numbered one is one whose normal text is read back.
    ensures normal { IfOk result IsNormalVersion }
{
    unflagged(alloc, before_flag(before_blanks(after_blanks(text))))
}
