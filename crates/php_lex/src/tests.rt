mod names;
mod outside;
mod pieces;
mod quoted;

use super::*;
use names::{NAMES, SIGNS};
use outside::{BLANKS, COMMENTS, TAGS};
use pieces::{CUT_OFF, EXAMPLE};
use quoted::{DOUBLE_QUOTES, HEREDOCS, SINGLE_QUOTES};
use std::process::Abort;
use std::test::*;

/// A text cut by hand: each letter of the first part is one lexeme's, and in the second `|` stands between two lexemes.
pub type Row = (&'static str, &'static str);

pub(crate) fn letter(kind: LexKind) -> u8 {
    match kind {
        LexKind::Html => b'H',
        LexKind::Open => b'O',
        LexKind::Close => b'C',
        LexKind::Blank => b'B',
        LexKind::Comment => b'c',
        LexKind::Quoted => b'Q',
        LexKind::Plain => b'P',
        LexKind::Qualified => b'q',
        LexKind::Variable => b'V',
        LexKind::Number => b'N',
        LexKind::Member => b'M',
        LexKind::Mark => b'm',
    }
}

// The text of a row, without the `|` between lexemes.
fn text_of(rt: &impl AllocGlobal, cut: &str) -> Result<Vec<u8>, Fail> {
    let mut text = Vec::new(rt.alloc());
    for byte in cut.as_bytes() {
        if *byte != b'|' {
            text.push(*byte)?;
        }
    }
    Ok(text)
}

// The cut of a text as a row shows it.
fn cut_of(rt: &impl AllocGlobal, text: &[u8]) -> Result<(Vec<u8>, Vec<u8>), Fail> {
    let mut lexer = Lexer::new(text);
    let mut kinds = Vec::new(rt.alloc());
    let mut shown = Vec::new(rt.alloc());
    let mut at = 0;
    for _ in 0..u64::MAX {
        let Some(lexeme) = lexer.next() else {
            break;
        };
        if at > 0 {
            shown.push(b'|')?;
        }
        if lexeme.start != at || lexeme.end - lexeme.start != lexeme.bytes.len() as u64 {
            return Err(Fail::from("a place"));
        }
        at = lexeme.end;
        kinds.push(letter(lexeme.kind))?;
        shown.extend_from_slice(lexeme.bytes)?;
    }
    Ok((kinds, shown))
}

// Whether texts are cut as their rows show.
fn check(rt: &(impl AllocGlobal + Abort), rows: &[Row]) -> Result<(), Fail> {
    for (kinds, cut) in rows {
        let text = text_of(rt, cut)?;
        let (found, shown) = cut_of(rt, &text)?;
        assert_eq!(rt; shown.as_slice(), cut.as_bytes());
        assert_eq!(rt; found.as_slice(), kinds.as_bytes());
        assert_eq!(rt; lexeme_count(&text), found.len() as u64);
    }
    Ok(())
}

#[test]
fn outside_code_and_comments(rt: HostRuntime) -> Result<(), Fail> {
    check(&rt, &TAGS)?;
    check(&rt, &BLANKS)?;
    check(&rt, &COMMENTS)
}

#[test]
fn quoted_texts(rt: HostRuntime) -> Result<(), Fail> {
    check(&rt, &SINGLE_QUOTES)?;
    check(&rt, &DOUBLE_QUOTES)?;
    check(&rt, &HEREDOCS)
}

#[test]
fn names_and_signs(rt: HostRuntime) -> Result<(), Fail> {
    check(&rt, &NAMES)?;
    check(&rt, &SIGNS)
}

#[test]
fn pieces_and_an_example(rt: HostRuntime) -> Result<(), Fail> {
    check(&rt, &CUT_OFF)?;
    check(&rt, &EXAMPLE)
}

// A text of quoted elements that open one in the other, so many, and are all closed.
fn nested_text(rt: &impl AllocGlobal, levels: usize) -> Result<Vec<u8>, Fail> {
    let mut text = Vec::new(rt.alloc());
    text.extend_from_slice(b"<?php ")?;
    for _ in 1..levels {
        text.extend_from_slice(b"\"{")?;
        text.extend_from_slice(b"$")?;
    }
    text.extend_from_slice(b"''")?;
    for _ in 1..levels {
        text.extend_from_slice(b"}\"")?;
    }
    text.extend_from_slice(b"a")?;
    Ok(text)
}

#[test]
fn levels(rt: HostRuntime) -> Result<(), Fail> {
    // 33 quoted elements may be open at once; one more, and the outermost runs to the end.
    let (kinds, _) = cut_of(&rt, &nested_text(&rt, 33)?)?;
    assert_eq!(rt; kinds.as_slice(), b"OQP".as_slice());
    let (kinds, _) = cut_of(&rt, &nested_text(&rt, 34)?)?;
    assert_eq!(rt; kinds.as_slice(), b"OQ".as_slice());
    Ok(())
}
