//! What the lines of a journal say.

ghost use Rattle.std.specs.Prelude.{◌≡◌, ◌≢◌, ℕ, List, Bool, ◌<◌, ◌^◌, ◌∷◌, ◌++◌, Ok, MatchOption, IfOk};
ghost use Rattle.path_name.specs.Decimals.{decimal_text};
ghost use Rattle.path_name.specs.Paths.{IsPath, path_of, path_text};
ghost use Rattle.hex.specs.Hex.{encode_lower, decode_of};
ghost use Rattle.install_world.specs.Targets.{IsTargetPath};
ghost use Rattle.install_world.specs.JournalText.{version_words, generation_words, mark_words, target_words, IsGeneration, IsMarkOf, IsTargetOf};
ghost use Rattle.install_world.specs.declared.version.Version.{Version as Versions};
ghost use Rattle.install_world.specs.declared.target.Target.{Target as Targets};

use crate::lines::behind;
use crate::{Target, Version, is_target_path};
use hex::FromHexError;
use itoa::Buffer;
use path_name::{Path, PathFault, read_number};
use std::alloc::{AllocError, Global};

/// The version that a first line names.
pub fn version_of(words: &[u8]) -> Option<Version>
    ensures { MatchOption result ((version : Versions) → words.now ≢ version_words version)
        (λ version. words.now ≡ version_words version) }
{
    if words == b"install-journal 1".as_slice() {
        Some(Version::One)
    } else if words == b"install-journal 2".as_slice() {
        Some(Version::Two)
    } else {
        None
    }
}

/// The number below 2^64 whose digits these are, without leading zeros.
fn plain_number(digits: &[u8]) -> Option<u64>
    ensures { MatchOption result ((number : ℕ) → number < 2 ^ 64 → digits.now ≢ decimal_text number)
        (λ number. digits.now ≡ decimal_text number) }
{
    match read_number(digits) {
        None => None,
        Some(number) => {
            let mut plain = Buffer::new();
            if plain.format(number).as_bytes() == digits {
                Some(number)
            } else {
                None
            }
        }
    }
}

/// The generation that a second line names.
pub fn generation_of(words: &[u8]) -> Option<u64>
    ensures { MatchOption result ((generation : ℕ) → IsGeneration generation → words.now ≢ generation_words generation)
        (λ generation. IsGeneration generation × (words.now ≡ generation_words generation)) }
{
    match behind(words, b"generation ") {
        None => None,
        Some(digits) => match plain_number(digits) {
            None => None,
            Some(generation) => {
                if generation == 0 {
                    None
                } else {
                    Some(generation)
                }
            }
        },
    }
}

/// A mark, and what follows it in its line.
#[derive(Clone, Copy)]
struct Marked<'a> {
    gone: bool,
    rest: &'a [u8],
}

/// The mark that a line begins with.
fn mark_of(version: Version, words: &[u8]) -> Option<Marked<'_>>
    ensures { MatchOption result ((gone : Bool) (rest : List ℕ) → IsMarkOf version gone → words.now ≢ mark_words gone ++ rest)
        (λ marked. IsMarkOf version marked.gone × (words.now ≡ mark_words marked.gone ++ marked.rest.now)) }
{
    if let Some(rest) = behind(words, b"move ") {
        return Some(Marked { gone: false, rest });
    }
    match version {
        Version::One => None,
        Version::Two => Some(Marked {
            gone: true,
            rest: behind(words, b"gone ")?,
        }),
    }
}

/// What follows a number without leading zeros and a space.
fn after_number(number: u64, text: &[u8]) -> Option<&[u8]>
    ensures { MatchOption result ((rest : List ℕ) → text.now ≢ decimal_text number ++ 32 ∷ rest)
        (λ rest. text.now ≡ decimal_text number ++ 32 ∷ rest.now) }
{
    let mut digits = Buffer::new();
    match behind(text, digits.format(number).as_bytes()) {
        None => None,
        Some(after) => match behind(after, b" ") {
            None => None,
            Some(rest) => Some(rest),
        },
    }
}

/// The bytes of a text in hex. None: it is none, in small digits or capital ones.
fn decoded(alloc: Global, digits: &[u8]) -> Result<Option<Vec<u8>>, AllocError>
    ensures { IfOk result (λ found. MatchOption found ((bytes : List ℕ) → decode_of digits.now ≢ Ok bytes)
        (λ text. decode_of digits.now ≡ Ok text.items)) }
{
    match hex::decode(alloc, digits) {
        Ok(text) => Ok(Some(text)),
        Err(FromHexError::OutOfMemory) => Err(AllocError),
        Err(FromHexError::InvalidHexCharacter { .. }) => Ok(None),
        Err(FromHexError::OddLength) => Ok(None),
        Err(FromHexError::InvalidStringLength) => Ok(None),
    }
}

/// The path that a text names. None: it names none.
fn path_named(alloc: Global, text: &[u8]) -> Result<Option<Path>, AllocError>
    ensures { IfOk result (λ found. MatchOption found ((path : List (List ℕ)) → path_of text.now ≢ Ok path)
        (λ path. path_of text.now ≡ Ok path)) }
{
    match Path::read(alloc, text) {
        Ok(path) => Ok(Some(path)),
        Err(PathFault::OutOfMemory) => Err(AllocError),
        Err(PathFault::BadSegment(_)) => Ok(None),
        Err(PathFault::AboveRoot(_)) => Ok(None),
    }
}

/// The path that the text of hex digits names, where these are the small digits of its own text.
fn own_path(alloc: Global, digits: &[u8], text: &[u8]) -> Result<Option<Path>, AllocError>
    requires { decode_of digits.now ≡ Ok text.now }
    ensures { IfOk result (λ found. MatchOption found
        ((path : List (List ℕ)) → IsPath path → digits.now ≢ encode_lower (path_text path))
        (λ path. IsPath path × (digits.now ≡ encode_lower (path_text path)))) }
{
    match path_named(alloc, text)? {
        None => Ok(None),
        Some(path) => {
            if hex::encode(alloc, path.text())?.as_bytes() == digits {
                Ok(Some(path))
            } else {
                Ok(None)
            }
        }
    }
}

/// The path whose own text these small hex digits give.
fn path_in_hex(alloc: Global, digits: &[u8]) -> Result<Option<Path>, AllocError>
    ensures { IfOk result (λ found. MatchOption found
        ((path : List (List ℕ)) → IsPath path → digits.now ≢ encode_lower (path_text path))
        (λ path. IsPath path × (digits.now ≡ encode_lower (path_text path)))) }
{
    match decoded(alloc, digits)? {
        None => Ok(None),
        Some(text) => own_path(alloc, digits, text.as_slice()),
    }
}

/// The target path whose own text these small hex digits give.
fn target_path_in_hex(alloc: Global, digits: &[u8]) -> Result<Option<Path>, AllocError>
    ensures { IfOk result (λ found. MatchOption found
        ((path : List (List ℕ)) → IsTargetPath path → digits.now ≢ encode_lower (path_text path))
        (λ path. IsTargetPath path × (digits.now ≡ encode_lower (path_text path)))) }
{
    match path_in_hex(alloc, digits)? {
        None => Ok(None),
        Some(path) => {
            if is_target_path(&path) {
                Ok(Some(path))
            } else {
                Ok(None)
            }
        }
    }
}

/// What follows the mark and the number of a target's line.
fn digits_of(version: Version, number: u64, words: &[u8]) -> Option<Marked<'_>>
    ensures { MatchOption result
        ((gone : Bool) (digits : List ℕ) → IsMarkOf version gone → words.now ≢ mark_words gone ++ (decimal_text number ++ 32 ∷ digits))
        (λ marked. IsMarkOf version marked.gone × (words.now ≡ mark_words marked.gone ++ (decimal_text number ++ 32 ∷ marked.rest.now))) }
{
    let marked = mark_of(version, words)?;
    let rest = after_number(number, marked.rest)?;
    Some(Marked {
        gone: marked.gone,
        rest,
    })
}

/// The target that a line names as that of the part with this number. None: it names none.
pub fn target_of(
    alloc: Global,
    version: Version,
    number: u64,
    words: &[u8],
) -> Result<Option<Target>, AllocError>
    ensures { IfOk result (λ found. MatchOption found
        ((target : Targets) → IsTargetOf version target → words.now ≢ target_words number target)
        (λ target. IsTargetOf version target × (words.now ≡ target_words number target))) }
{
    let Some(marked) = digits_of(version, number, words) else {
        return Ok(None);
    };
    match target_path_in_hex(alloc, marked.rest)? {
        None => Ok(None),
        Some(path) => Ok(Some(Target {
            path,
            gone: marked.gone,
        })),
    }
}
