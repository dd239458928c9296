//! The names that a file declares.

ghost use Rattle.std.specs.Prelude.{◌≡◌, ◌++◌, ℕ, Bool, Option, List, [], drop, IfOk};
ghost use Rattle.php_lex.specs.Cut.{Lex, IsCut, IsCutFrom, IsCutOf};
ghost use Rattle.php_decl.specs.Declarations.{Stand, solid, stands_after, identifier_of, full_name, in_namespace, declared_from, names_of};
ghost use Rattle.php_decl.specs.Words.{Visits, lex_of};
ghost use Rattle.php_decl.specs.Quiet.{IsQuiet};

use crate::ahead::{identifier_behind, namespace_behind, next_solid};
use crate::last_word::last_place;
use crate::word::{is_declaring_word, is_member, is_plain, is_word};
use path_name::Name;
use php_lex::{Lexeme, Lexer};
use std::alloc::{AllocError, Global};

// The identifier alone in the global namespace, else behind the namespace and `\`.
fn full_name(alloc: Global, namespace: &[u8], identifier: &[u8]) -> Result<Name, AllocError>
    ensures { IfOk result (λ name. name ≡ full_name namespace.now identifier.now) }
{
    if namespace.is_empty() {
        return Name::copy_of(alloc, identifier);
    }
    let mut bytes = Vec::from_slice(alloc, namespace)?;
    bytes.push(b'\\')?;
    bytes.extend_from_slice(identifier)?;
    Ok(Name::of(bytes))
}

// Adds the name that a declaring word declares, if it does.
#[inline(always)]
fn declare(
    alloc: Global,
    lexer: &Lexer<'_>,
    namespace: &[u8],
    names: &mut Vec<Name>,
) -> Result<(), AllocError>
    ensures { IfOk result (λ done. (lexemes : List Lex) → IsCutOf lexer.now lexemes → names.new.items ≡ names.old.items ++ in_namespace namespace.now (identifier_of (solid lexemes))) }
{
    if let Some(identifier) = identifier_behind(lexer) {
        names.push(full_name(alloc, namespace, identifier)?)?;
    }
    Ok(())
}

// What a lexeme does: it may add a name. The namespace in force behind it, or None where nothing more is declared.
#[inline(always)]
fn visit<'a>(
    alloc: Global,
    lexeme: Lexeme<'a>,
    behind_member: bool,
    lexer: &Lexer<'a>,
    namespace: &'a [u8],
    names: &mut Vec<Name>,
) -> Result<Option<&'a [u8]>, AllocError>
    ensures { IfOk result (λ after. Visits (lex_of lexeme.entry) behind_member lexer.now namespace.now names.old.items names.new.items after) }
{
    if !is_plain(lexeme.kind) {
        return Ok(Some(namespace));
    }
    if behind_member {
        return Ok(Some(namespace));
    }
    if is_word(lexeme.bytes, b"__halt_compiler") {
        return Ok(None);
    }
    if is_word(lexeme.bytes, b"namespace") {
        return match namespace_behind(lexer) {
            Some(name) => Ok(Some(name)),
            None => Ok(Some(namespace)),
        };
    }
    if is_declaring_word(lexeme.bytes) {
        declare(alloc, lexer, namespace, names)?;
        return Ok(Some(namespace));
    }
    Ok(Some(namespace))
}

// The names that a file declares, by a cut that goes no further than to a place behind which none can be.
fn declared_until(alloc: Global, text: &[u8], last: usize) -> Result<Vec<Name>, AllocError>
    requires { IsQuiet (drop last text.now) }
    ensures { IfOk result (λ names. (lexemes : List Lex) → IsCut text.now lexemes → names.items ≡ names_of lexemes) }
{
    let mut lexer = Lexer::new(text);
    let mut names = Vec::new(alloc);
    let mut namespace: &[u8] = b"";
    let mut behind_member = false;
    while let Some(lexeme) = next_solid(&mut lexer) {
        match visit(alloc, lexeme, behind_member, &lexer, namespace, &mut names)? {
            Some(after) => namespace = after,
            None => return Ok(names),
        }
        behind_member = is_member(lexeme.kind);
        if last as u64 <= lexeme.end {
            return Ok(names);
        }
    }
    Ok(names)
}

/// The names of the classes, interfaces, traits and enums that a PHP file declares, in order, each under the
/// namespace in force there. Letters are kept as they stand. Its one refusal is want of memory.
///
/// The text is cut no further than to the last place where a declaring word can stand.
pub fn declared(alloc: Global, text: &[u8]) -> Result<Vec<Name>, AllocError>
    // They are those that the lexemes of the file's cut declare.
    ensures { IfOk result (λ names. (lexemes : List Lex) → IsCut text.now lexemes → names.items ≡ names_of lexemes) }
{
    declared_until(alloc, text, last_place(text))
}

/// The names that `declared` gives, by a cut of the whole text: its plain form, to compare with.
pub fn declared_plainly(alloc: Global, text: &[u8]) -> Result<Vec<Name>, AllocError>
    ensures { IfOk result (λ names. (lexemes : List Lex) → IsCut text.now lexemes → names.items ≡ names_of lexemes) }
{
    declared_until(alloc, text, text.len())
}

/// What the rule says of a text's rest: a law of the definition, which no code runs.
pub fn laws()
    // Where no declaring word can stand from a place on, the lexemes from there on declare nothing, whatever stands
    // before them.
    ensures { (in_code : Bool) (text : List ℕ) (lexemes : List Lex) → IsCutFrom in_code text lexemes → IsQuiet text → (earlier : List Stand) (previous : Option Lex) → declared_from earlier (stands_after previous (solid lexemes)) ≡ [] }
{}
