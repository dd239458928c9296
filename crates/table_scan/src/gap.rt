//! What stands between tokens: blanks and comments.

ghost use Rattle.std.specs.Prelude.{◌≡◌, ◌<◌, ◌≤◌, [], ◌∷◌, length, MatchOption, IfSome};
ghost use Rattle.std.specs.Option.{option_map};
ghost use Rattle.table_scan.specs.TableTokens.{Gap, behind, line_end, behind_block, slash_piece, piece_at, tokens, left_of};
ghost use Rattle.table_scan.specs.TableSteps.{IsNoGap};

use memchr::{memchr, memchr2};
use path_name::is_blank;

/// From the line's end on: LF, CR, or the end of the text.
fn line_end(text: &[u8]) -> &[u8]
    ensures value { result.now ≡ line_end text.now }
    ensures within { length result.now ≤ length text.now }
{
    let at = memchr2(b'\n', b'\r', text).unwrap_or(text.len());
    text.split_at(at).1
}

/// What follows the first `*/`.
fn behind_block(text: &[u8]) -> Option<&[u8]>
    ensures value { option_map (λ rest. rest.now) result ≡ behind_block text.now }
    ensures within { IfSome result (λ rest. length rest.now ≤ length text.now) }
{
    let mut rest = text;
    while let Some(star) = memchr(b'*', rest) {
        let (_, behind_star) = rest.split_at(star + 1);
        if let Some(after) = behind_slash(behind_star) {
            return Some(after);
        }
        rest = behind_star;
    }
    None
}

/// What follows a `/` at the front.
fn behind_slash(text: &[u8]) -> Option<&[u8]>
    ensures { option_map (λ rest. rest.now) result ≡ behind (47 ∷ []) text.now }
{
    match text.split_first() {
        None => None,
        Some((first, rest)) => { if *first == b'/' { Some(rest) } else { None } }
    }
}

/// What follows a comment whose `/` stands before the text.
fn behind_comment(text: &[u8]) -> Option<&[u8]>
    ensures gap { MatchOption result (IsNoGap (slash_piece text.now)) (λ rest. slash_piece text.now ≡ Gap rest.now) }
    ensures within { IfSome result (λ rest. length rest.now ≤ length text.now) }
{
    let (first, rest) = text.split_first()?;
    if *first == b'/' {
        return Some(line_end(rest));
    }
    if *first == b'*' {
        return behind_block(rest);
    }
    None
}

/// What follows a blank or a comment at the front.
#[tactic(auto, unfolding(crate::specs::TableTokens::piece_at))]
fn behind_gap(text: &[u8]) -> Option<&[u8]>
    ensures gap { MatchOption result (IsNoGap (piece_at text.now)) (λ rest. piece_at text.now ≡ Gap rest.now) }
    ensures shorter { IfSome result (λ rest. length rest.now < length text.now) }
{
    let (first, rest) = text.split_first()?;
    if is_blank(*first) {
        return Some(rest);
    }
    if *first == b'#' {
        return Some(line_end(rest));
    }
    if *first == b'/' {
        return behind_comment(rest);
    }
    None
}

/// From the next token on.
pub fn after_gaps(text: &[u8]) -> &[u8]
    ensures same { tokens result.now ≡ tokens text.now }
    ensures at_token { IsNoGap (piece_at result.now) }
    ensures left { left_of (tokens text.now) ≡ length result.now }
    ensures within { length result.now ≤ length text.now }
{
    let mut rest = text;
    while let Some(after) = behind_gap(rest) {
        rest = after;
    }
    rest
}
