//! Lexemes.

/// What a lexeme is.
#[derive(Clone, Copy, Debug, PartialEq, Eq)]
pub enum LexKind {
    /// Text outside code.
    Html,
    /// A tag that opens code: `<?php` with the blank behind it, or `<?=`.
    Open,
    /// The tag that closes code, `?>`.
    Close,
    /// A run of spaces, tabs, LF and CR in code.
    Blank,
    /// A comment, with the LF or CR that ends it.
    Comment,
    /// A string in quotes or backticks, a heredoc or a nowdoc, with what is nested in it.
    Quoted,
    /// An identifier that stands alone.
    Plain,
    /// A name with a `\` in it.
    Qualified,
    /// `$` and an identifier.
    Variable,
    /// A digit and the identifier's bytes behind it.
    Number,
    /// `::`, `->` or `?->`.
    Member,
    /// Any other byte.
    Mark,
}

/// A lexeme where it stands in its text.
#[derive(Clone, Copy, Debug, PartialEq, Eq)]
pub struct Lexeme<'a> {
    /// What it is.
    pub kind: LexKind,
    /// Its bytes.
    pub bytes: &'a [u8],
    /// The place of its first byte, counted in bytes from 0.
    pub start: u64,
    /// The place behind its last byte.
    pub end: u64,
}
