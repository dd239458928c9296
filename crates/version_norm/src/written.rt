//! What a version's text tells beside the version: which of its numbers are written.

ghost use Rattle.std.specs.Prelude.{◌≡◌, ◌≤◌, ◌<◌, ◌^◌, IfOk};
ghost use Rattle.std.specs.List.{AllByRecursion};
ghost use Rattle.path_name.specs.Given.{Gives, GivesValue};
ghost use Rattle.version_norm.specs.declared.fault.VersionFault.TheVariants.{OutOfMemory};
ghost use Rattle.version_norm.specs.Normal.{IsNormal};
ghost use Rattle.version_norm.specs.Versions.{trimmed};
ghost use Rattle.version_norm.specs.VersionOrder.{four_numbers};
ghost use Rattle.version_norm.specs.Written.{last_written, bare_text, written_numbers_at, classical_form};

use crate::fault::VersionFault;
use crate::normal_form::{before_blanks, before_build, before_flag};
use crate::numbered::{MOST_CLASSICAL_DIGITS, classical};
use crate::pieces::{after_one_of, read_number, read_part};
use crate::version::{Numbered, Numbers};
use path_name::after_blanks;
use std::alloc::Global;

/// Which of a version's four numbers.
#[derive(Clone, Copy, Debug, PartialEq, Eq)]
pub enum Position {
    /// The first number.
    Major,
    /// The second number.
    Minor,
    /// The third number.
    Release,
    /// The fourth number.
    Build,
}

/// Numbers as they are written: those that are missing are 0.
#[derive(Clone, Copy, Debug, PartialEq, Eq)]
pub struct WrittenNumbers {
    /// The numbers.
    pub numbers: Numbers,
    /// The last one that is written.
    pub last: Position,
}

/// A classical version, as `v1.2-beta1`, and how it is written.
#[derive(Debug, PartialEq, Eq, Drop)]
pub struct Classical {
    /// The version.
    pub numbered: Numbered,
    /// The last of its four numbers that is written.
    pub last: Position,
}

fn last_of(minor: Option<u64>, release: Option<u64>, build: Option<u64>) -> Position
    ensures { result ≡ last_written minor release build }
{
    match (minor, release, build) {
        (_, _, Some(_)) => Position::Build,
        (_, Some(_), None) => Position::Release,
        (Some(_), None, None) => Position::Minor,
        (None, None, None) => Position::Major,
    }
}

/// The numbers at the front of a text, from one to four, joined by `.`, and what follows them. The first one has
/// at most `most` digits, a later one at most 18. Refuses `NotAVersion` where the text does not begin with such a
/// number, or a later one is too long. Takes no memory.
#[tactic(auto, unfolding(crate::specs::Written::written_numbers_at))]
pub fn read_written_numbers(
    text: &[u8],
    most: usize,
) -> Result<(WrittenNumbers, &[u8]), VersionFault>
    requires { most ≤ 18 }
    ensures exact { Gives (λ x. (x.0, x.1.now)) OutOfMemory (written_numbers_at most text.now) result }
    // No number has more than 18 digits.
    ensures small { IfOk result (λ x. AllByRecursion (λ n. n < 10 ^ 18) (four_numbers x.0.numbers)) }
{
    let (major, rest) = read_number(text, most)?;
    let (minor, rest) = read_part(rest)?;
    let (release, rest) = read_part(rest)?;
    let (build, rest) = read_part(rest)?;
    let numbers = Numbers {
        major,
        minor: minor.unwrap_or(0),
        release: release.unwrap_or(0),
        build: build.unwrap_or(0),
    };
    let last = last_of(minor, release, build);
    Ok((WrittenNumbers { numbers, last }, rest))
}

/// The text without the blanks at both ends: spaces, tabs, LF and CR.
pub fn trim(text: &[u8]) -> &[u8]
    ensures { result.now ≡ trimmed text.now }
{
    before_blanks(after_blanks(text))
}

/// A classical version's text without blanks around it, a final `@` and stability, and a build.
fn bare(text: &[u8]) -> &[u8]
    ensures { result.now ≡ bare_text text.now }
{
    before_build(before_flag(trim(text)))
}

/// The classical version that a text has, which is also its normal form, with the last number that it writes.
/// Refuses `NotAVersion` where the text has none, also where it has another version, as `dev-main` and
/// `1.x-dev`; and `OutOfMemory` where there was no memory for the answer.
#[tactic(auto, using(crate::proofs::Front::any_v_cut), unfolding(crate::specs::Written::classical_form))]
pub fn classical_version(alloc: Global, text: &[u8]) -> Result<Classical, VersionFault>
    ensures exact { GivesValue OutOfMemory (classical_form text.now) result }
    // It is one whose normal text is read back.
    ensures normal { IfOk result (λ classical. IsNormal classical.numbered) }
{
    let text = bare(text);
    let numbered = classical(alloc, text)?;
    let (written, _) = read_written_numbers(after_one_of(text, b"vV"), MOST_CLASSICAL_DIGITS)?;
    Ok(Classical {
        numbered,
        last: written.last,
    })
}
