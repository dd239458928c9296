//! Which names of a file count.

ghost use Rattle.std.specs.Prelude.{◌≡◌, List, ℕ, [], ◌∷◌, ◌++◌, IfOk, OnOk, filter, if◌then◌else◌};
ghost use Rattle.std.specs.Str.{is_utf8};
ghost use Rattle.php_lex.specs.Cut.{Lex, IsCut};
ghost use Rattle.php_decl.specs.Declarations.{names_of};
ghost use Rattle.class_walk.specs.Walks.{counts, is_row_file};

use crate::job::WalkRule;
use class_paths::{RouteKind, class_path, is_class_name, is_route_prefix};
use path_name::{Items, Name, Path};
use std::alloc::{AllocError, Global};

/// The names that count of those that a file declares, in order. Its one refusal is want of memory.
pub fn counted_names(
    alloc: Global,
    rule: &WalkRule,
    tail: &Path,
    text: &[u8],
) -> Result<Items<Name>, AllocError>
    ensures { IfOk result (λ names. (lexemes : List Lex) → IsCut text.now lexemes → names ≡ filter (counts rule.now tail.now) (names_of lexemes)) }
{
    let declared = php_decl::declared(alloc, text)?;
    let names = those_that_count(alloc, rule, tail, declared.as_slice())?;
    Ok(Items::of(names))
}

fn those_that_count(
    alloc: Global,
    rule: &WalkRule,
    tail: &Path,
    declared: &[Name],
) -> Result<Vec<Name>, AllocError>
    ensures { IfOk result (λ names. names.items ≡ filter (counts rule.now tail.now) declared.now) }
{
    let mut names = Vec::new(alloc);
    for name in declared {
        add_counted(alloc, rule, tail, name, &mut names)?;
    }
    Ok(names)
}

/// Adds a name where it counts.
fn add_counted(
    alloc: Global,
    rule: &WalkRule,
    tail: &Path,
    name: &Name,
    names: &mut Vec<Name>,
) -> Result<(), AllocError>
    ensures { OnOk result (names.new.items ≡ names.old.items ++ (if counts rule.now tail.now name.now then name.now ∷ [] else [])) }
{
    if counts(alloc, rule, tail, name.as_slice())? {
        names.push(name.copy(alloc)?)?;
    }
    Ok(())
}

/// Whether a name counts that a file declares.
fn counts(alloc: Global, rule: &WalkRule, tail: &Path, name: &[u8]) -> Result<bool, AllocError>
    ensures { IfOk result (λ does. does ≡ counts rule.now tail.now name.now) }
{
    match rule {
        WalkRule::Listed => Ok(is_text(name)),
        WalkRule::Psr4(prefix) => is_row_file(alloc, RouteKind::Psr4, prefix, tail, name),
        WalkRule::Psr0(prefix) => is_row_file(alloc, RouteKind::Psr0, prefix, tail, name),
    }
}

fn is_text(name: &[u8]) -> bool
    ensures { result ≡ is_utf8 name.now }
{
    std::str::from_utf8(name).is_ok()
}

/// Whether a row of this kind and prefix leads a class to this path below its folder.
fn is_row_file(
    alloc: Global,
    kind: RouteKind,
    prefix: &Name,
    tail: &Path,
    name: &[u8],
) -> Result<bool, AllocError>
    ensures { IfOk result (λ is. is ≡ is_row_file kind prefix.now tail.now name.now) }
{
    let prefix = prefix.as_slice();
    if !is_class_name(name) {
        return Ok(false);
    }
    if !is_route_prefix(kind, prefix) {
        return Ok(false);
    }
    if !name.starts_with(prefix) {
        return Ok(false);
    }
    let path = class_path(alloc, kind, prefix, name)?;
    Ok(path == *tail)
}
