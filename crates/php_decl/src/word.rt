//! The words that matter to declarations, and kinds of lexemes.

ghost use Rattle.std.specs.Prelude.{◌≡◌};
ghost use Rattle.path_name.specs.Bytes.{lowered};
ghost use Rattle.php_decl.specs.Declarations.{is_skipped, is_plain, is_member};
ghost use Rattle.php_decl.specs.Words.{equals_word, is_declaring_word};

use php_lex::LexKind;

/// Whether the bytes are this word, in small letters, in any case.
#[inline(always)]
pub(crate) fn is_word(bytes: &[u8], word: &[u8]) -> bool
    requires { lowered word.now ≡ word.now }
    ensures { result ≡ equals_word word.now bytes.now }
{
    bytes.len() == word.len() && bytes.eq_ignore_ascii_case(word)
}

/// Whether the bytes are `class`, `interface`, `trait` or `enum`, in any case.
#[inline(always)]
pub(crate) fn is_declaring_word(bytes: &[u8]) -> bool
    ensures { result ≡ is_declaring_word bytes.now }
{
    is_word(bytes, b"class")
        | (is_word(bytes, b"interface") | (is_word(bytes, b"trait") | is_word(bytes, b"enum")))
}

/// Whether it is a blank or a comment.
#[inline(always)]
pub(crate) fn is_skipped(kind: LexKind) -> bool
    ensures { result ≡ is_skipped kind }
{
    match kind {
        LexKind::Blank | LexKind::Comment => true,
        _ => false,
    }
}

/// Whether it is an identifier that stands alone.
#[inline(always)]
pub(crate) fn is_plain(kind: LexKind) -> bool
    ensures { result ≡ is_plain kind }
{
    match kind {
        LexKind::Plain => true,
        _ => false,
    }
}

/// Whether it is `::`, `->` or `?->`.
#[inline(always)]
pub(crate) fn is_member(kind: LexKind) -> bool
    ensures { result ≡ is_member kind }
{
    match kind {
        LexKind::Member => true,
        _ => false,
    }
}
