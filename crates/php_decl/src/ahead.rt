//! What stands behind a lexeme, without blanks and comments.

ghost use Rattle.std.specs.Prelude.{◌≡◌, List, MatchOption, IfSome};
ghost use Rattle.php_lex.specs.Cut.{Lex, IsCutOf};
ghost use Rattle.php_decl.specs.Declarations.{solid, is_identifier, is_sign, is_relative_name, ends_name};
ghost use Rattle.php_decl.specs.Words.{NextSolid, NoneSolid, IsIdentifier, IsNamespace, lex_of};

use crate::word::{is_plain, is_skipped, is_word};
use php_lex::{LexKind, Lexeme, Lexer};

/// The next lexeme that is no blank and no comment.
#[inline(always)]
pub(crate) fn next_solid<'a>(lexer: &mut Lexer<'a>) -> Option<Lexeme<'a>>
    ensures next { MatchOption result (NoneSolid lexer.old) (λ x. NextSolid lexer.old (lex_of x) lexer.new) }
    ensures end_place { IfSome result (λ x. x.end ≡ lexer.new.at) }
{
    while let Some(lexeme) = lexer.next() {
        if !is_skipped(lexeme.kind) {
            return Some(lexeme);
        }
    }
    None
}

// Whether the lexeme is an identifier that can be declared.
fn is_identifier(lexeme: Lexeme<'_>) -> bool
    ensures { result ≡ is_identifier (lex_of lexeme.entry) }
{
    is_plain(lexeme.kind)
        & !(is_word(lexeme.bytes, b"extends") | is_word(lexeme.bytes, b"implements"))
}

// The identifier that stands first.
#[inline(never)]
fn identifier_from<'a>(mut ahead: Lexer<'a>) -> Option<&'a [u8]>
    ensures { IsIdentifier ahead.entry result }
{
    match next_solid(&mut ahead) {
        None => None,
        Some(lexeme) => {
            if is_identifier(lexeme) {
                Some(lexeme.bytes)
            } else {
                None
            }
        }
    }
}

/// The identifier that a declaring word stands before.
#[inline(always)]
pub(crate) fn identifier_behind<'a>(lexer: &Lexer<'a>) -> Option<&'a [u8]>
    ensures { IsIdentifier lexer.now result }
{
    identifier_from(lexer.copy())
}

// Whether the lexeme is this one byte.
fn is_sign(lexeme: Lexeme<'_>, byte: u8) -> bool
    ensures { result ≡ is_sign byte (lex_of lexeme.entry) }
{
    lexeme.kind == LexKind::Mark && lexeme.bytes.len() == 1 && lexeme.bytes[0] == byte
}

// Whether the lexeme is a name that doesn't begin with `\`.
fn is_relative_name(lexeme: Lexeme<'_>) -> bool
    ensures { result ≡ is_relative_name (lex_of lexeme.entry) }
{
    if lexeme.kind == LexKind::Plain || lexeme.kind == LexKind::Qualified {
        lexeme.bytes.is_empty() || lexeme.bytes[0] != b'\\'
    } else {
        false
    }
}

// Whether `;` or `{` comes next.
fn ends_name(mut ahead: Lexer<'_>) -> bool
    ensures { (lexemes : List Lex) → IsCutOf ahead.entry lexemes → result ≡ ends_name (solid lexemes) }
{
    match next_solid(&mut ahead) {
        Some(lexeme) => is_sign(lexeme, b';') | is_sign(lexeme, b'{'),
        None => false,
    }
}

// The namespace whose name stands first, which is empty where it is the global one.
#[inline(never)]
fn namespace_from<'a>(mut ahead: Lexer<'a>) -> Option<&'a [u8]>
    ensures { IsNamespace ahead.entry result }
{
    match next_solid(&mut ahead) {
        None => None,
        Some(lexeme) => {
            if is_sign(lexeme, b'{') {
                return Some(b"");
            }
            if is_relative_name(lexeme) & ends_name(ahead) {
                Some(lexeme.bytes)
            } else {
                None
            }
        }
    }
}

/// The namespace that `namespace` stands before, which is empty where it is the global one.
#[inline(always)]
pub(crate) fn namespace_behind<'a>(lexer: &Lexer<'a>) -> Option<&'a [u8]>
    ensures { IsNamespace lexer.now result }
{
    namespace_from(lexer.copy())
}
