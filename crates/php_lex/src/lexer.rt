//! The lexer.

ghost use Rattle.std.specs.Prelude.{◌≡◌, ◌↔◌, [], IsNone, IfSome};
ghost use Rattle.php_lex.specs.Cut.{start_of, is_code_after, Takes};

use crate::code::first_lexeme;
use crate::lexeme::{LexKind, Lexeme};
use std::marker::Model;

/// Cuts the text of a PHP file into its lexemes, in order. It takes no memory.
///
/// Contracts see whether it stands in code, how many bytes it has passed, and the rest of the text.
#[derive(Drop)]
pub struct Lexer<'a> {
    rest: &'a [u8],
    at: u64,
    in_code: bool,
}

impl<'a> Model for Lexer<'a> {
    ghost use Rattle.std.specs.Prelude.{◌+◌, ◌^◌, ◌<◌, length};
    ghost use Rattle.php_lex.specs.Cut.{Standing};

    ghost Value = { Standing };

    ghost view = { λ l. record { in_code = l.in_code; at = l.at; rest = l.rest.now } };

    ghost invariant = { λ l. l.at + length l.rest.now < 2 ^ 64 };
}

// Whether code follows a lexeme of this kind.
#[inline(always)]
fn is_code_after(kind: LexKind) -> bool
    ensures { result ≡ is_code_after kind }
{
    match kind {
        LexKind::Close | LexKind::Html => false,
        _ => true,
    }
}

impl<'a> Lexer<'a> {
    /// A lexer at the beginning of a text.
    pub fn new(text: &'a [u8]) -> Lexer<'a>
        ensures { result ≡ start_of text.now }
    {
        Lexer {
            rest: text,
            at: 0,
            in_code: false,
        }
    }

    /// A lexer that stands where this one does, to look ahead with.
    pub fn copy(&self) -> Lexer<'a>
        ensures { result ≡ self.now }
    {
        Lexer {
            rest: self.rest,
            at: self.at,
            in_code: self.in_code,
        }
    }

    /// The next lexeme of the text's cut. `None` comes exactly at the end.
    #[inline(always)]
    pub fn next(&mut self) -> Option<Lexeme<'a>>
        // None comes exactly at the end, and changes nothing.
        ensures end { IsNone result ↔ (self.old.rest ≡ []) }
        ensures stays { IsNone result → self.new ≡ self.old }
        // A lexeme is what stands first, and the rest follows it.
        ensures takes { IfSome result (λ x. Takes self.old x.kind x.bytes.now self.new) }
        // Where it stands.
        ensures start { IfSome result (λ x. x.start ≡ self.old.at) }
        ensures end_place { IfSome result (λ x. x.end ≡ self.new.at) }
    {
        if self.rest.is_empty() {
            return None;
        }
        let (kind, len) = first_lexeme(self.in_code, self.rest);
        let (bytes, rest) = self.rest.split_at(len);
        let start = self.at;
        self.rest = rest;
        self.at = start + len as u64;
        self.in_code = is_code_after(kind);
        Some(Lexeme {
            kind,
            bytes,
            start,
            end: self.at,
        })
    }
}
