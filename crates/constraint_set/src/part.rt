//! What the parts of a constraint mean.

ghost use Rattle.std.specs.Prelude.{◌≡◌, ◌≤◌, ◌<◌, ◌^◌, IfOk, length, is_none};
ghost use Rattle.std.specs.List.{position_or_len, AllByRecursion};
ghost use Rattle.path_name.specs.Given.{Gives, GivesValue};
ghost use Rattle.version_norm.specs.Normal.{IsNormal};
ghost use Rattle.version_norm.specs.VersionOrder.{four_numbers};
ghost use Rattle.version_norm.specs.Versions.{without_flag, normal_form};
ghost use Rattle.version_norm.specs.Pieces.{is_small_v, is_wildcard, without_first};
ghost use Rattle.constraint_set.specs.Parts.{grade_named, flag_in, or_any, is_hash, is_branch_word, is_dev_line, without_reference, bare_word, less_stable, if_unstable, inferred_of, from_dev, raised, up, comparison, from, below, are_wild, is_any, is_build, wildcard_of, wildcard_part, tilde_position, caret_position, between, tilde_part, caret_part, one, exact_part, any_part, plain_part, is_equal, is_at_start, with_stage, flagged, started, marked_numbered, marked, compared_part, form_part, word_part, is_short, to_classical, to_branch, upper_of, range_part};
ghost use Rattle.constraint_set.specs.Forms.{form_seen};
ghost use Rattle.version_norm.specs.declared.fault.VersionFault.TheVariants.{OutOfMemory};

use crate::constraint::{Comparison, Operator};
use crate::words::{Form, first_operator};
use path_name::Items;
use std::alloc::Global;
use version_norm::{
    Classical, Grade, Modifier, Numbered, Numbers, Position, Stage, Version, VersionFault,
    WrittenNumbers, before_flag, classical_version, normalise, numbered_stability,
    read_written_numbers, stability,
};

/// The most digits of a number.
const MOST_DIGITS: usize = 18;

/// The comparisons of a part.
#[derive(Debug, Drop)]
pub enum Bounds {
    /// None: any version.
    Any,
    /// One.
    One(Comparison),
    /// Two, of which the first is the lower end.
    Two(Comparison, Comparison),
}

/// What a part means.
#[derive(Debug, Drop)]
pub struct Part {
    /// Its comparisons.
    pub bounds: Bounds,
    /// The stability that is written behind an `@`.
    pub written: Option<Grade>,
    /// The stability of the version that it names, where it isn't stable; none for a range.
    pub inferred: Option<Grade>,
}

fn named_grade(word: &[u8]) -> Option<Grade>
    ensures { result ≡ grade_named word.now }
{
    if word.eq_ignore_ascii_case(b"stable") {
        Some(Grade::Stable)
    } else if word.eq_ignore_ascii_case(b"rc") {
        Some(Grade::Rc)
    } else if word.eq_ignore_ascii_case(b"beta") {
        Some(Grade::Beta)
    } else if word.eq_ignore_ascii_case(b"alpha") {
        Some(Grade::Alpha)
    } else if word.eq_ignore_ascii_case(b"dev") {
        Some(Grade::Dev)
    } else {
        None
    }
}

/// The stability behind a final `@`.
fn written_flag(word: &[u8]) -> Option<Grade>
    ensures { result ≡ flag_in word.now }
{
    let front = before_flag(word);
    if front.len() < word.len() {
        named_grade(&word[front.len() + 1..])
    } else {
        None
    }
}

/// The word without a final `@` and stability, and `*` where nothing is left.
fn unflagged_word(word: &[u8]) -> &[u8]
    ensures { result.now ≡ or_any (without_flag word.now) }
{
    let front = before_flag(word);
    if front.is_empty() { b"*" } else { front }
}

/// Where the first `#` stands; the length where there is none.
fn place_of_hash(word: &[u8]) -> usize
    ensures place { result ≡ position_or_len is_hash word.now }
    ensures within { result ≤ length word.now }
{
    word.iter().take_while(|byte| **byte != b'#').count()
}

fn begins_with_dev(word: &[u8]) -> bool
    ensures { result ≡ is_branch_word word.now }
{
    word.starts_with(b"dev-")
}

fn ends_with_dev(word: &[u8]) -> bool
    ensures { result ≡ is_dev_line word.now }
{
    word.ends_with(b"-dev")
}

/// The word without a first `#` and what follows it, where it names a branch.
fn before_reference(word: &[u8]) -> &[u8]
    ensures { result.now ≡ without_reference word.now }
{
    let front = &word[..place_of_hash(word)];
    if begins_with_dev(word) || ends_with_dev(front) {
        front
    } else {
        word
    }
}

/// The word without what is no version of it: its flag and a reference.
#[tactic(auto, unfolding(crate::specs::Parts::bare_word))]
fn bare(word: &[u8]) -> &[u8]
    ensures { result.now ≡ bare_word word.now }
{
    before_reference(unflagged_word(word))
}

/// The less stable of two stabilities.
pub fn least_stable(first: Option<Grade>, second: Option<Grade>) -> Option<Grade>
    ensures { result ≡ less_stable first second }
{
    match (first, second) {
        (None, second) => second,
        (first, None) => first,
        (Some(first), Some(second)) if first.rank() < second.rank() => Some(second),
        (first, Some(_)) => first,
    }
}

fn unstable(grade: Grade) -> Option<Grade>
    ensures { result ≡ if_unstable grade }
{
    match grade {
        Grade::Stable => None,
        _ => Some(grade),
    }
}

/// The stability of a version that isn't stable.
pub fn inferred(version: &Version) -> Option<Grade>
    ensures { result ≡ inferred_of version.now }
{
    unstable(stability(version))
}

/// The version with the dev mark, if it has no modifier.
fn with_dev_mark(version: Numbered) -> Numbered
    ensures { result ≡ from_dev version }
{
    let Numbered {
        numbers,
        modifier,
        dev,
    } = version;
    let dev = dev || modifier.is_none();
    Numbered {
        numbers,
        modifier,
        dev,
    }
}

/// The numbers with one added to that at the position, and 0 behind it.
fn raised_numbers(position: Position, numbers: Numbers) -> Numbers
    requires { AllByRecursion (λ n. n < 10 ^ 18) (four_numbers numbers) }
    ensures { result ≡ raised position numbers }
{
    let Numbers {
        major,
        minor,
        release,
        build,
    } = numbers;
    match position {
        Position::Major => Numbers {
            major: major + 1,
            minor: 0,
            release: 0,
            build: 0,
        },
        Position::Minor => Numbers {
            major,
            minor: minor + 1,
            release: 0,
            build: 0,
        },
        Position::Release => Numbers {
            major,
            minor,
            release: release + 1,
            build: 0,
        },
        Position::Build => Numbers {
            major,
            minor,
            release,
            build: build + 1,
        },
    }
}

/// From the version on, with its dev mark if it has no modifier.
fn from_version(version: Numbered) -> Comparison
    ensures { result ≡ from version }
{
    Comparison {
        operator: Operator::GreaterOrEqual,
        version: Version::Numbered(with_dev_mark(version)),
    }
}

/// Below the next number at the position.
fn below_next(position: Position, numbers: Numbers) -> Comparison
    requires { AllByRecursion (λ n. n < 10 ^ 18) (four_numbers numbers) }
    ensures { result ≡ below position numbers }
{
    Comparison {
        operator: Operator::Less,
        version: Version::Numbered(Numbered {
            numbers: raised_numbers(position, numbers),
            modifier: None,
            dev: true,
        }),
    }
}

fn is_wildcard_byte(byte: u8) -> bool
    ensures { result ≡ is_wildcard byte }
{
    matches!(byte, b'x' | b'X' | b'*')
}

/// Whether the text is any count of `.*`, `.x` and `.X`.
fn is_wild(text: &[u8]) -> bool
    ensures { result ≡ are_wild text.now }
{
    let mut rest = text;
    while let [b'.', byte, after @ ..] = rest {
        if !is_wildcard_byte(*byte) {
            return false;
        }
        rest = after;
    }
    rest.is_empty()
}

/// Whether the word is `*`, `x` or `X`, and any count of `.*`, `.x` and `.X`.
fn is_any_version(word: &[u8]) -> bool
    ensures { result ≡ is_any word.now }
{
    match word {
        [byte, rest @ ..] => is_wildcard_byte(*byte) && is_wild(rest),
        [] => false,
    }
}

fn after_v(word: &[u8]) -> &[u8]
    ensures { result.now ≡ without_first is_small_v word.now }
{
    match word {
        [b'v', rest @ ..] => rest,
        _ => word,
    }
}

/// The numbers of a wildcard, as `1.2.*`.
#[tactic(auto, unfolding(crate::specs::Parts::wildcard_of))]
fn wildcard_numbers(word: &[u8]) -> Result<WrittenNumbers, VersionFault>
    ensures exact { GivesValue OutOfMemory (wildcard_of word.now) result }
    ensures small { IfOk result (λ w. AllByRecursion (λ n. n < 10 ^ 18) (four_numbers w.numbers)) }
{
    let (written, rest) = read_written_numbers(after_v(word), MOST_DIGITS)?;
    if rest.is_empty() || !is_wild(rest) || written.last == Position::Build {
        return Err(VersionFault::NotAVersion);
    }
    Ok(written)
}

/// From a version on, below the next number at the position.
fn between_versions(flag: Option<Grade>, low: Numbered, position: Position) -> Part
    requires { AllByRecursion (λ n. n < 10 ^ 18) (four_numbers low.numbers) }
    ensures { result ≡ between flag low position }
{
    let high = below_next(position, low.numbers);
    let stability = numbered_stability(&low);
    Part {
        bounds: Bounds::Two(from_version(low), high),
        written: flag,
        inferred: unstable(stability),
    }
}

fn wildcard(flag: Option<Grade>, written: WrittenNumbers) -> Part
    requires { AllByRecursion (λ n. n < 10 ^ 18) (four_numbers written.numbers) }
    ensures { result ≡ wildcard_part flag written }
{
    let low = Numbered {
        numbers: written.numbers,
        modifier: None,
        dev: false,
    };
    Part {
        bounds: Bounds::Two(from_version(low), below_next(written.last, written.numbers)),
        written: flag,
        inferred: None,
    }
}

fn tilde_end(last: Position) -> Position
    ensures { result ≡ tilde_position last }
{
    match last {
        Position::Major | Position::Minor => Position::Major,
        Position::Release => Position::Minor,
        Position::Build => Position::Release,
    }
}

/// `~` and a version.
#[tactic(auto, unfolding(crate::specs::Parts::tilde_part))]
fn read_tilde(alloc: Global, flag: Option<Grade>, word: &[u8]) -> Result<Part, VersionFault>
    ensures { GivesValue OutOfMemory (tilde_part flag word.now) result }
{
    let Classical { numbered, last } = classical_version(alloc, word)?;
    Ok(between_versions(flag, numbered, tilde_end(last)))
}

fn caret_end(last: Position, numbers: Numbers) -> Position
    ensures { result ≡ caret_position last numbers }
{
    match last {
        Position::Major => Position::Major,
        _ if numbers.major != 0 => Position::Major,
        Position::Minor => Position::Minor,
        _ if numbers.minor != 0 => Position::Minor,
        _ => Position::Release,
    }
}

/// `^` and a version.
#[tactic(auto, unfolding(crate::specs::Parts::caret_part))]
fn read_caret(alloc: Global, flag: Option<Grade>, word: &[u8]) -> Result<Part, VersionFault>
    ensures { GivesValue OutOfMemory (caret_part flag word.now) result }
{
    let Classical { numbered, last } = classical_version(alloc, word)?;
    let position = caret_end(last, numbered.numbers);
    Ok(between_versions(flag, numbered, position))
}

/// A version alone.
#[tactic(auto, unfolding(crate::specs::Parts::exact_part))]
fn read_exact(alloc: Global, flag: Option<Grade>, word: &[u8]) -> Result<Part, VersionFault>
    ensures { GivesValue OutOfMemory (exact_part flag word.now) result }
{
    let version = normalise(alloc, word)?;
    let inferred = inferred(&version);
    Ok(Part {
        bounds: Bounds::One(Comparison {
            operator: Operator::Equal,
            version,
        }),
        written: flag,
        inferred,
    })
}

/// A word without an operator.
#[tactic(auto, unfolding(crate::specs::Parts::plain_part))]
fn read_plain(alloc: Global, flag: Option<Grade>, word: &[u8]) -> Result<Part, VersionFault>
    ensures { GivesValue OutOfMemory (plain_part flag word.now) result }
{
    match word {
        [] => return Err(VersionFault::NotAVersion),
        [b'~', rest @ ..] => return read_tilde(alloc, flag, rest),
        [b'^', rest @ ..] => return read_caret(alloc, flag, rest),
        _ => {}
    }
    if is_any_version(word) {
        return Ok(Part {
            bounds: Bounds::Any,
            written: flag,
            inferred: None,
        });
    }
    match wildcard_numbers(word) {
        Ok(written) => Ok(wildcard(flag, written)),
        Err(VersionFault::OutOfMemory) => Err(VersionFault::OutOfMemory),
        Err(VersionFault::DateVersion) | Err(VersionFault::NotAVersion) => {
            read_exact(alloc, flag, word)
        }
    }
}

fn with_modifier(alloc: Global, stage: Stage, version: Numbered) -> Numbered
    ensures { result ≡ with_stage stage version }
{
    let Numbered {
        numbers,
        modifier,
        dev,
    } = version;
    let modifier = match modifier {
        None => Modifier {
            stage,
            numbers: Items::of(Vec::new(alloc)),
        },
        Some(modifier) => modifier,
    };
    Numbered {
        numbers,
        modifier: Some(modifier),
        dev,
    }
}

/// A stable version, under a flag.
fn flagged_version(alloc: Global, grade: Grade, version: Numbered) -> Numbered
    ensures { result ≡ flagged grade version }
{
    match grade {
        Grade::Stable => version,
        Grade::Rc => with_modifier(alloc, Stage::Rc, version),
        Grade::Beta => with_modifier(alloc, Stage::Beta, version),
        Grade::Alpha => with_modifier(alloc, Stage::Alpha, version),
        Grade::Dev => {
            let Numbered {
                numbers,
                modifier,
                ..
            } = version;
            Numbered {
                numbers,
                modifier,
                dev: true,
            }
        }
    }
}

fn started_version(operator: Operator, version: Numbered) -> Numbered
    ensures { result ≡ started operator version }
{
    match operator {
        Operator::GreaterOrEqual | Operator::Less => with_dev_mark(version),
        _ => version,
    }
}

fn marked_version(
    alloc: Global,
    operator: Operator,
    flag: Option<Grade>,
    version: Numbered,
) -> Numbered
    ensures { result ≡ marked_numbered operator flag version }
{
    let stable = numbered_stability(&version) == Grade::Stable;
    match flag {
        Some(grade) if grade != Grade::Stable && operator != Operator::Equal && stable => {
            flagged_version(alloc, grade, version)
        }
        _ => started_version(operator, version),
    }
}

/// An operator and a version.
#[tactic(auto, unfolding(crate::specs::Parts::compared_part))]
fn read_compared(
    alloc: Global,
    operator: Operator,
    flag: Option<Grade>,
    word: &[u8],
) -> Result<Part, VersionFault>
    ensures { GivesValue OutOfMemory (compared_part operator flag word.now) result }
{
    let version = normalise(alloc, word)?;
    let inferred = inferred(&version);
    let version = match version {
        Version::Branch(name) => Version::Branch(name),
        Version::Numbered(numbered) => {
            Version::Numbered(marked_version(alloc, operator, flag, numbered))
        }
    };
    Ok(Part {
        bounds: Bounds::One(Comparison { operator, version }),
        written: flag,
        inferred,
    })
}

/// A word that may begin with an operator.
#[tactic(auto, unfolding(crate::specs::Parts::word_part))]
fn read_word(alloc: Global, word: &[u8]) -> Result<Part, VersionFault>
    ensures { GivesValue OutOfMemory (word_part word.now) result }
{
    let flag = written_flag(word);
    let word = bare(word);
    match first_operator(word) {
        None => read_plain(alloc, flag, word),
        Some((operator, rest)) => read_compared(alloc, operator, flag, rest),
    }
}

/// Up to a classical version: with it where it has three numbers, a modifier or a dev mark, else below the next
/// of its last number.
fn to_version(classical: Classical) -> Comparison
    requires { AllByRecursion (λ n. n < 10 ^ 18) (four_numbers classical.numbered.numbers) }
    ensures { result ≡ to_classical classical }
{
    let Classical { numbered, last } = classical;
    let short = matches!(last, Position::Major | Position::Minor);
    if short && numbered.modifier.is_none() && !numbered.dev {
        return below_next(last, numbered.numbers);
    }
    Comparison {
        operator: Operator::LessOrEqual,
        version: Version::Numbered(numbered),
    }
}

/// Up to a numbered branch, with it.
fn to_numbered_branch(alloc: Global, word: &[u8]) -> Result<Comparison, VersionFault>
    ensures { GivesValue OutOfMemory (to_branch (normal_form word.now)) result }
{
    match normalise(alloc, word)? {
        Version::Branch(_) => Err(VersionFault::NotAVersion),
        Version::Numbered(numbered) => Ok(Comparison {
            operator: Operator::LessOrEqual,
            version: Version::Numbered(numbered),
        }),
    }
}

/// The upper end of a range.
#[tactic(auto, unfolding(crate::specs::Parts::upper_of))]
fn read_upper(alloc: Global, word: &[u8]) -> Result<Comparison, VersionFault>
    ensures { GivesValue OutOfMemory (upper_of word.now) result }
{
    match classical_version(alloc, word) {
        Ok(classical) => Ok(to_version(classical)),
        Err(VersionFault::OutOfMemory) => Err(VersionFault::OutOfMemory),
        Err(VersionFault::DateVersion) | Err(VersionFault::NotAVersion) => {
            to_numbered_branch(alloc, word)
        }
    }
}

/// A range from one word to another.
#[tactic(auto, unfolding(crate::specs::Parts::range_part))]
fn read_range(alloc: Global, low: &[u8], high: &[u8]) -> Result<Part, VersionFault>
    ensures { GivesValue OutOfMemory (range_part low.now high.now) result }
{
    let written = least_stable(written_flag(low), written_flag(high));
    let Classical { numbered, last: _ } = classical_version(alloc, bare(low))?;
    let high = read_upper(alloc, bare(high))?;
    Ok(Part {
        bounds: Bounds::Two(from_version(numbered), high),
        written,
        inferred: None,
    })
}

/// What the words of a part mean.
pub fn read_form(alloc: Global, form: Form<'_>) -> Result<Part, VersionFault>
    ensures { GivesValue OutOfMemory (form_part (form_seen form.entry)) result }
{
    match form {
        Form::Range(low, high) => read_range(alloc, low, high),
        Form::Compared(operator, word) => {
            read_compared(alloc, operator, written_flag(word), bare(word))
        }
        Form::Alone(word) => read_word(alloc, word),
    }
}
