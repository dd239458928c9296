//! Lines of a text, each of which ends with LF.

ghost use Rattle.std.specs.Prelude.{◌≡◌, ◌≢◌, ℕ, List, ◌∷◌, ◌++◌, MatchOption, IsTrue};
ghost use Rattle.install_world.specs.Lines.{is_one_line};

use memchr::memchr;

/// A line, and the text behind it.
#[derive(Clone, Copy)]
pub struct Cut<'a> {
    /// The line, without its LF.
    pub words: &'a [u8],
    /// What follows that LF.
    pub after: &'a [u8],
}

/// The first line of a text. None: the text has no LF.
pub fn first_line(text: &[u8]) -> Option<Cut<'_>>
    ensures { MatchOption result (IsTrue (is_one_line text.now))
        (λ cut. IsTrue (is_one_line cut.words.now) × (text.now ≡ cut.words.now ++ 10 ∷ cut.after.now)) }
{
    match memchr(b'\n', text) {
        None => None,
        Some(end) => Some(Cut {
            words: &text[..end],
            after: &text[end + 1..],
        }),
    }
}

/// What follows a front. None: the text does not begin with it.
pub fn behind<'a>(text: &'a [u8], front: &[u8]) -> Option<&'a [u8]>
    ensures { MatchOption result ((rest : List ℕ) → text.now ≢ front.now ++ rest)
        (λ rest. text.now ≡ front.now ++ rest.now) }
{
    match text.strip_prefix(front) {
        None => None,
        Some(rest) => Some(rest),
    }
}
