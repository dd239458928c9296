//! Tokens that are always spelled alike.

ghost use Rattle.std.specs.Prelude.{◌≡◌, ◌+◌, ◌<◌, [], Ok, Err, length, MatchOption, IfSome, IfOk};
ghost use Rattle.std.specs.Option.{option_map};
ghost use Rattle.table_scan.specs.TableTokens.{Marked, spelling, behind, behind_tag, piece_at, tokens, text_tokens, left_of};
ghost use Rattle.table_scan.specs.TableGrammar.{marked};
ghost use Rattle.table_scan.specs.TableSteps.{IsNoGap, Stands, token_at, tokens_at, nothing_at};

use crate::gap::after_gaps;
use crate::stop::Stop;
use path_name::is_blank;

/// A token that is always spelled alike.
#[derive(Clone, Copy)]
pub enum Mark {
    /// `<?php`, at the very beginning, with a blank behind it
    Tag,
    /// `$vendorDir`
    VendorDir,
    /// `$baseDir`
    BaseDir,
    /// `dirname`
    Dirname,
    /// `__DIR__`
    ThisDir,
    /// `__FILE__`
    ThisFile,
    /// `return`
    Return,
    /// `array`
    Array,
    /// `=>`
    Arrow,
    /// `=`
    Assign,
    /// `(`
    Open,
    /// `)`
    Close,
    /// `,`
    Comma,
    /// `.`
    Dot,
    /// `;`
    Semicolon,
}

#[tactic(auto, unfolding(crate::specs::TableTokens::spelling))]
fn spelling(mark: Mark) -> &'static [u8]
    ensures { result.now ≡ spelling mark }
{
    match mark {
        Mark::Tag => b"<?php",
        Mark::VendorDir => b"$vendorDir",
        Mark::BaseDir => b"$baseDir",
        Mark::Dirname => b"dirname",
        Mark::ThisDir => b"__DIR__",
        Mark::ThisFile => b"__FILE__",
        Mark::Return => b"return",
        Mark::Array => b"array",
        Mark::Arrow => b"=>",
        Mark::Assign => b"=",
        Mark::Open => b"(",
        Mark::Close => b")",
        Mark::Comma => b",",
        Mark::Dot => b".",
        Mark::Semicolon => b";",
    }
}

fn behind<'a>(front: &[u8], text: &'a [u8]) -> Option<&'a [u8]>
    ensures value { option_map (λ rest. rest.now) result ≡ behind front.now text.now }
    ensures within { IfSome result (λ rest. length rest.now + length front.now ≡ length text.now) }
{
    text.strip_prefix(front)
}

/// What follows a `=` that no `>` follows.
fn behind_assign(text: &[u8]) -> Option<&[u8]>
    requires { IsNoGap (piece_at text.now) }
    ensures token { MatchOption result (token_at (Marked Mark.Assign) (tokens text.now) ≡ Err (left_of (tokens text.now)))
        (λ rest. token_at (Marked Mark.Assign) (tokens text.now) ≡ Ok (tokens rest.now)) }
    ensures within { IfSome result (λ rest. length rest.now < length text.now) }
{
    match behind(b"=", text) {
        None => None,
        Some(rest) => match behind(b">", rest) {
            Some(_) => None,
            None => Some(rest),
        },
    }
}

/// What follows this mark, where it is the token at the front. The tag never is: it stands at the very
/// beginning of a text alone.
pub fn behind_mark(text: &[u8], mark: Mark) -> Option<&[u8]>
    requires { IsNoGap (piece_at text.now) }
    ensures token { MatchOption result (token_at (Marked mark) (tokens text.now) ≡ Err (left_of (tokens text.now)))
        (λ rest. token_at (Marked mark) (tokens text.now) ≡ Ok (tokens rest.now)) }
    ensures within { IfSome result (λ rest. length rest.now < length text.now) }
{
    match mark {
        Mark::Tag => None,
        Mark::Assign => behind_assign(text),
        _ => behind(spelling(mark), text),
    }
}

/// What follows this mark, where it is the next token.
pub fn expect(text: &[u8], mark: Mark) -> Result<&[u8], Stop>
    ensures token { Stands (λ rest. tokens rest.now) (token_at (Marked mark) (tokens text.now)) result }
    ensures within { IfOk result (λ rest. length rest.now < length text.now) }
{
    let here = after_gaps(text);
    match behind_mark(here, mark) {
        None => Err(Stop::Bad(here.len())),
        Some(rest) => Ok(rest),
    }
}

/// What follows an opening tag with a blank behind it, at the very beginning of a text.
#[tactic(auto, unfolding(crate::specs::TableTokens::behind_tag))]
fn behind_tag(text: &[u8]) -> Option<&[u8]>
    ensures { option_map (λ rest. rest.now) result ≡ behind_tag text.now }
{
    match behind(spelling(Mark::Tag), text) {
        None => None,
        Some(rest) => match rest.first() {
            None => None,
            Some(byte) => { if is_blank(*byte) { Some(rest) } else { None } }
        },
    }
}

/// What follows the opening tag of a whole text.
pub fn opened(text: &[u8]) -> Result<&[u8], Stop>
    ensures { Stands (λ rest. tokens rest.now) (token_at (Marked Mark.Tag) (text_tokens text.now)) result }
{
    match behind_tag(text) {
        Some(rest) => Ok(rest),
        None => Err(Stop::Bad(after_gaps(text).len())),
    }
}

/// What follows these marks, where they are the next tokens.
pub fn marks<'a>(text: &'a [u8], wanted: &[Mark]) -> Result<&'a [u8], Stop>
    ensures { Stands (λ rest. tokens rest.now) (tokens_at (marked wanted.now) (tokens text.now)) result }
{
    let mut rest = text;
    for mark in wanted {
        rest = expect(rest, *mark)?;
    }
    Ok(rest)
}

/// That a text has no token.
pub fn ends(text: &[u8]) -> Result<(), Stop>
    ensures { Stands (λ _. []) (nothing_at (tokens text.now)) result }
{
    let here = after_gaps(text);
    if here.is_empty() {
        Ok(())
    } else {
        Err(Stop::Bad(here.len()))
    }
}
