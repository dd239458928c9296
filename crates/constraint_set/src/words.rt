//! How a constraint's text is cut into words, parts and what joins the parts, read from the left.

ghost use Rattle.std.specs.Prelude.{◌≡◌, ◌≤◌, ◌<◌, length, IfSome};
ghost use Rattle.std.specs.Option.{option_map};
ghost use Rattle.version_norm.specs.Pieces.{without_first};
ghost use Rattle.constraint_set.specs.Words.{is_in_word, word_len, word_here, next_word, is_bar, operator_at, operator_word, short_operator_at, form_at, joint_here, joint_at, is_alias};
ghost use Rattle.constraint_set.specs.Forms.{form_seen};

use crate::constraint::Operator;
use path_name::{after_blanks, is_blank};

/// What joins a part to the one before it.
#[derive(Clone, Copy, Debug, PartialEq, Eq)]
pub enum Joint {
    /// Nothing: it is the first one.
    First,
    /// Blanks alone.
    Blanks,
    /// A comma, with any blanks around it.
    Comma,
    /// `|` or `||`: the part begins another alternative.
    Bar,
}

/// The form of a part, by its words.
pub enum Form<'a> {
    /// A word, `-` and a word.
    Range(&'a [u8], &'a [u8]),
    /// An operator word and a word.
    Compared(Operator, &'a [u8]),
    /// One word.
    Alone(&'a [u8]),
}

fn is_word_byte(byte: u8) -> bool
    ensures { result ≡ is_in_word byte }
{
    !(is_blank(byte) || byte == b',' || byte == b'|')
}

fn word_length(text: &[u8]) -> usize
    ensures length { result ≡ word_len text.now }
    ensures within { result ≤ length text.now }
{
    text.iter().take_while(|byte| is_word_byte(**byte)).count()
}

/// The word at the front of a text and what follows it, where it begins with one.
pub fn first_word(text: &[u8]) -> Option<(&[u8], &[u8])>
    ensures word { option_map (λ x. (x.0.now, x.1.now)) result ≡ word_here text.now }
    ensures shorter { IfSome result (λ x. length x.1.now < length text.now) }
{
    let count = word_length(text);
    if count == 0 {
        return None;
    }
    Some(text.split_at(count))
}

/// The word that comes behind blanks, and what follows it.
fn word_behind(text: &[u8]) -> Option<(&[u8], &[u8])>
    ensures word { option_map (λ x. (x.0.now, x.1.now)) result ≡ next_word text.now }
    ensures shorter { IfSome result (λ x. length x.1.now < length text.now) }
{
    first_word(after_blanks(text))
}

fn short_operator(first: u8, rest: &[u8]) -> Option<(Operator, &[u8])>
    ensures { option_map (λ x. (x.0, x.1.now)) result ≡ short_operator_at first rest.now }
{
    match first {
        b'>' => Some((Operator::Greater, rest)),
        b'<' => Some((Operator::Less, rest)),
        b'=' => Some((Operator::Equal, rest)),
        _ => None,
    }
}

/// The longest operator that a word begins with, and what follows it.
pub fn first_operator(word: &[u8]) -> Option<(Operator, &[u8])>
    ensures { option_map (λ x. (x.0, x.1.now)) result ≡ operator_at word.now }
{
    match word {
        [b'<', b'>', rest @ ..] | [b'!', b'=', rest @ ..] => Some((Operator::NotEqual, rest)),
        [b'>', b'=', rest @ ..] => Some((Operator::GreaterOrEqual, rest)),
        [b'<', b'=', rest @ ..] => Some((Operator::LessOrEqual, rest)),
        [b'=', b'=', rest @ ..] => Some((Operator::Equal, rest)),
        [first, rest @ ..] => short_operator(*first, rest),
        [] => None,
    }
}

/// The operator that a word is.
fn whole_operator(word: &[u8]) -> Option<Operator>
    ensures { result ≡ operator_word word.now }
{
    match first_operator(word) {
        Some((operator, [])) => Some(operator),
        _ => None,
    }
}

/// The longest form that the first words have, and what follows it.
#[tactic(auto, unfolding(crate::specs::Words::form_at))]
pub fn longest_form<'a>(word: &'a [u8], rest: &'a [u8]) -> (Form<'a>, &'a [u8])
    ensures form { (form_seen result.0, result.1.now) ≡ form_at word.now rest.now }
    ensures within { length result.1.now ≤ length rest.now }
{
    let Some((second, behind)) = word_behind(rest) else {
        return (Form::Alone(word), rest);
    };
    if second == b"-".as_slice() {
        if let Some((third, after)) = word_behind(behind) {
            return (Form::Range(word, third), after);
        }
    }
    match whole_operator(word) {
        Some(operator) => (Form::Compared(operator, second), behind),
        None => (Form::Alone(word), rest),
    }
}

fn after_bar(text: &[u8]) -> &[u8]
    ensures rest { result.now ≡ without_first is_bar text.now }
    ensures within { length result.now ≤ length text.now }
{
    match text {
        [b'|', rest @ ..] => rest,
        _ => text,
    }
}

/// What comes behind a part, and what follows it; nothing at the end.
pub fn next_joint(text: &[u8]) -> Option<(Joint, &[u8])>
    ensures joint { option_map (λ x. (x.0, x.1.now)) result ≡ joint_at text.now }
    ensures within { IfSome result (λ x. length x.1.now ≤ length text.now) }
{
    let text = after_blanks(text);
    match text {
        [] => None,
        [b',', rest @ ..] => Some((Joint::Comma, rest)),
        [b'|', rest @ ..] => Some((Joint::Bar, after_bar(rest))),
        _ => Some((Joint::Blanks, text)),
    }
}

/// Whether the word is `as`, with blanks alone between it and a word on both sides.
pub fn is_inline_alias(joint: Joint, word: &[u8], rest: &[u8]) -> bool
    ensures { result ≡ is_alias joint word.now rest.now }
{
    match joint {
        Joint::Blanks => word == b"as".as_slice() && word_behind(rest).is_some(),
        Joint::First | Joint::Comma | Joint::Bar => false,
    }
}
