//! Versions of four numbers: classical ones and numbered branches.

ghost use Rattle.std.specs.Prelude.{◌≡◌};
ghost use Rattle.path_name.specs.Given.{Gives, GivesValue};
ghost use Rattle.version_norm.specs.declared.fault.VersionFault.TheVariants.{OutOfMemory};
ghost use Rattle.version_norm.specs.Versions.{classical_numbers_at, branch_numbers_at, numbered, classical_of, numbered_branch_of};

use crate::fault::VersionFault;
use crate::pieces::{
    ANYTHING, MOST_DIGITS, after_one_of, is_dev_word, read_branch_part, read_dev_mark, read_number,
    read_part, read_suffix,
};
use crate::version::{Modifier, Numbered, Numbers, Stage};
use path_name::Items;
use std::alloc::Global;

/// The most digits of a classical version's first number.
pub const MOST_CLASSICAL_DIGITS: usize = 5;

/// The numbers of a classical version; a missing one is 0.
#[tactic(auto, unfolding(crate::specs::Versions::version_numbers_at))]
fn classical_numbers(text: &[u8]) -> Result<(Numbers, &[u8]), VersionFault>
    ensures { Gives (λ x. (x.0, x.1.now)) OutOfMemory (classical_numbers_at text.now) result }
{
    let (major, rest) = read_number(text, MOST_CLASSICAL_DIGITS)?;
    let (minor, rest) = read_part(rest)?;
    let (release, rest) = read_part(rest)?;
    let (build, rest) = read_part(rest)?;
    let numbers = Numbers {
        major,
        minor: minor.unwrap_or(0),
        release: release.unwrap_or(0),
        build: build.unwrap_or(0),
    };
    Ok((numbers, rest))
}

/// The numbers of a numbered branch; a missing one is that of an x part.
#[tactic(auto, unfolding(crate::specs::Versions::version_numbers_at))]
fn branch_numbers(text: &[u8]) -> Result<(Numbers, &[u8]), VersionFault>
    ensures { Gives (λ x. (x.0, x.1.now)) OutOfMemory (branch_numbers_at text.now) result }
{
    let (major, rest) = read_number(text, MOST_DIGITS)?;
    let (minor, rest) = read_branch_part(rest)?;
    let (release, rest) = read_branch_part(rest)?;
    let (build, rest) = read_branch_part(rest)?;
    let numbers = Numbers {
        major,
        minor: minor.unwrap_or(ANYTHING),
        release: release.unwrap_or(ANYTHING),
        build: build.unwrap_or(ANYTHING),
    };
    Ok((numbers, rest))
}

/// The version of these pieces. With the word `stable`, which is no stage, its numbers and the dev mark are dropped.
fn numbered_version(
    numbers: Numbers,
    suffix: Option<(Option<Stage>, Items<u64>)>,
    dev: bool,
) -> Numbered
    ensures { result ≡ numbered numbers suffix dev }
{
    match suffix {
        None => Numbered {
            numbers,
            modifier: None,
            dev,
        },
        Some((None, _)) => Numbered {
            numbers,
            modifier: None,
            dev: false,
        },
        Some((Some(stage), following)) => Numbered {
            numbers,
            modifier: Some(Modifier {
                stage,
                numbers: following,
            }),
            dev,
        },
    }
}

/// A classical version, as `v1.0.0-beta2-dev`.
#[tactic(auto, using(crate::proofs::Front::any_v_cut), unfolding(crate::specs::Versions::classical_of))]
pub fn classical(alloc: Global, text: &[u8]) -> Result<Numbered, VersionFault>
    ensures { GivesValue OutOfMemory (classical_of text.now) result }
{
    let (numbers, rest) = classical_numbers(after_one_of(text, b"vV"))?;
    let (suffix, rest) = read_suffix(alloc, rest)?;
    let dev = read_dev_mark(rest)?;
    Ok(numbered_version(numbers, suffix, dev))
}

/// A numbered branch, as `1.x-dev`.
#[tactic(auto, using(crate::proofs::Front::small_v_cut, crate::proofs::Front::dot_or_dash_cut), unfolding(crate::specs::Versions::numbered_branch_of))]
pub fn numbered_branch(text: &[u8]) -> Result<Numbered, VersionFault>
    ensures { GivesValue OutOfMemory (numbered_branch_of text.now) result }
{
    let (numbers, rest) = branch_numbers(after_one_of(text, b"v"))?;
    if !is_dev_word(after_one_of(rest, b".-")) {
        return Err(VersionFault::NotAVersion);
    }
    Ok(Numbered {
        numbers,
        modifier: None,
        dev: true,
    })
}
