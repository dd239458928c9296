//! Laws of the cut.

ghost use Rattle.std.specs.Prelude.{◌≡◌, ◌<◌, ◌≤◌, ℕ, List, length};
ghost use Rattle.std.specs.List.{AllByRecursion};
ghost use Rattle.php_lex.specs.Cut.{Lex, IsCut, joined};

use crate::lexer::Lexer;

/// What the cut of a text is: laws of the definition, which no code runs.
pub fn laws()
    // A text has one cut. That it has one at all is what `lexeme_count` says.
    ensures one_cut { (text : List ℕ) (a b : List Lex) → IsCut text a → IsCut text b → a ≡ b }
    // The bytes of its lexemes, one after the other, are the text, and each lexeme has a byte.
    ensures joined { (text : List ℕ) (lexemes : List Lex) → IsCut text lexemes → joined lexemes ≡ text }
    ensures not_empty { (text : List ℕ) (lexemes : List Lex) → IsCut text lexemes → AllByRecursion (λ x. 0 < length x.bytes) lexemes }
{}

/// How many lexemes the cut of a text has: every text has a cut.
pub fn lexeme_count(text: &[u8]) -> u64
    ensures { (lexemes : List Lex) × IsCut text.now lexemes × (length lexemes ≡ result) }
{
    let mut lexer = Lexer::new(text);
    let mut count = 0;
    while let Some(_) = lexer.next() {
        count += 1;
    }
    count
}
