//! The path of a class below the folder of a row.

ghost use Rattle.std.specs.Prelude.{◌≡◌, ℕ, length, map, ◌++◌, ◌≤◌, Ok, IfOk, OnOk, IsTrue};
ghost use Rattle.path_name.specs.Paths.{path_of};
ghost use Rattle.class_paths.specs.ClassNames.{IsClassName};
ghost use Rattle.class_paths.specs.RowPath.{php_ending, begins, is_route_prefix, path_below};
ghost use Rattle.class_paths.specs.PathTexts.{slashed, parted, own_name_at, psr4_text, psr0_text};

use crate::types::RouteKind;
use path_name::{Path, PathFault};
use std::alloc::{AllocError, Global};

const BACKSLASH: u8 = b'\\';

const UNDERSCORE: u8 = b'_';

const SLASH: u8 = b'/';

/// The path of a class below the folder of a row of this kind and prefix, which begins the class's name (PSR-4; PSR-0).
/// By PSR-4 it is what follows the prefix, by PSR-0 the whole name, with each `\` a `/`, `.php` at the end, and by PSR-0
/// each `_` behind the last `\` a `/` too; empty parts are dropped. Small and capital letters are kept. Its one refusal is
/// want of memory.
pub fn class_path(
    alloc: Global,
    kind: RouteKind,
    prefix: &[u8],
    name: &[u8],
) -> Result<Path, AllocError>
    requires class { IsClassName name.now }
    requires begins { IsTrue (begins prefix.now name.now) }
    requires prefix { IsTrue (is_route_prefix kind prefix.now) }
    ensures exact { IfOk result (λ path. path ≡ path_below kind prefix.now name.now) }
{
    let text = class_text(alloc, kind, prefix, name)?;
    match Path::read(alloc, text.as_slice()) {
        Ok(path) => Ok(path),
        Err(PathFault::OutOfMemory) => Err(AllocError),
        Err(PathFault::BadSegment(_)) => unreachable!(),
        Err(PathFault::AboveRoot(_)) => unreachable!(),
    }
}

/// Whether rows of this kind may have this prefix: one of PSR-4 is empty or ends in `\`.
#[tactic(auto, unfolding(crate::specs::Prefixes::is_psr4_prefix))]
pub fn is_route_prefix(kind: RouteKind, prefix: &[u8]) -> bool
    ensures { result ≡ is_route_prefix kind prefix.now }
{
    match kind {
        RouteKind::Psr4 => match prefix.last() {
            None => true,
            Some(byte) => *byte == BACKSLASH,
        },
        RouteKind::Psr0 => true,
    }
}

/// The text of the path of a class. It is read as that path.
fn class_text(
    alloc: Global,
    kind: RouteKind,
    prefix: &[u8],
    name: &[u8],
) -> Result<Vec<u8>, AllocError>
    requires class { IsClassName name.now }
    requires begins { IsTrue (begins prefix.now name.now) }
    requires prefix { IsTrue (is_route_prefix kind prefix.now) }
    ensures { IfOk result (λ text. path_of text.items ≡ Ok (path_below kind prefix.now name.now)) }
{
    match kind {
        RouteKind::Psr4 => psr4_text(alloc, &name[prefix.len()..]),
        RouteKind::Psr0 => psr0_text(alloc, name),
    }
}

/// The text of a path of PSR-4: each `\` a `/`, with `.php` at the end.
fn psr4_text(alloc: Global, rest: &[u8]) -> Result<Vec<u8>, AllocError>
    ensures { IfOk result (λ text. text.items ≡ psr4_text rest.now) }
{
    let ending = php_ending();
    let mut text = Vec::with_capacity(alloc, rest.len() + ending.len())?;
    push_slashed(&mut text, rest)?;
    text.extend_from_slice(ending)?;
    Ok(text)
}

/// The text of a path of PSR-0: each `\` a `/`, and each `_` behind the last one too, with `.php` at the end.
fn psr0_text(alloc: Global, name: &[u8]) -> Result<Vec<u8>, AllocError>
    ensures { IfOk result (λ text. text.items ≡ psr0_text name.now) }
{
    let ending = php_ending();
    let (front, class) = name.split_at(own_name_at(name));
    let mut text = Vec::with_capacity(alloc, name.len() + ending.len())?;
    push_slashed(&mut text, front)?;
    push_parted(&mut text, class)?;
    text.extend_from_slice(ending)?;
    Ok(text)
}

fn push_slashed(text: &mut Vec<u8>, bytes: &[u8]) -> Result<(), AllocError>
    ensures { OnOk result (text.new.items ≡ text.old.items ++ map slashed bytes.now) }
{
    for byte in bytes {
        text.push(slashed(*byte))?;
    }
    Ok(())
}

fn push_parted(text: &mut Vec<u8>, bytes: &[u8]) -> Result<(), AllocError>
    ensures { OnOk result (text.new.items ≡ text.old.items ++ map parted bytes.now) }
{
    for byte in bytes {
        text.push(parted(*byte))?;
    }
    Ok(())
}

/// Where a class's own name begins: behind the last `\`.
fn own_name_at(name: &[u8]) -> usize
    ensures within { result ≤ length name.now }
    ensures exact { result ≡ own_name_at name.now }
{
    let mut at = name.len();
    while at > 0 && name[at - 1] != BACKSLASH {
        at -= 1;
    }
    at
}

#[tactic(auto, unfolding(crate::specs::RowPath::php_ending))]
fn php_ending() -> &'static [u8]
    ensures { result.now ≡ php_ending }
{
    b".php"
}

fn slashed(byte: u8) -> u8
    ensures { result ≡ slashed byte }
{
    if byte == BACKSLASH { SLASH } else { byte }
}

fn parted(byte: u8) -> u8
    ensures { result ≡ parted byte }
{
    if byte == UNDERSCORE {
        SLASH
    } else {
        slashed(byte)
    }
}
