//! Which value a byte begins.

ghost use Rattle.std.specs.Prelude.{◌≡◌};
ghost use Rattle.json_ordered.specs.JsonStarts.{start_of};

use crate::number::Part;

/// What the first byte of a value begins.
#[derive(Clone, Copy, Debug, PartialEq, Eq)]
pub(crate) enum Start {
    Array,
    Object,
    Quote,
    NullWord,
    TrueWord,
    FalseWord,
    Number(Part),
    Nothing,
}

/// What this byte begins.
pub(crate) fn start_of(byte: u8) -> Start
    ensures { result ≡ start_of byte }
{
    match byte {
        b'[' => Start::Array,
        b'{' => Start::Object,
        b'"' => Start::Quote,
        b'n' => Start::NullWord,
        b't' => Start::TrueWord,
        b'f' => Start::FalseWord,
        b'-' => Start::Number(Part::Minus),
        b'0' => Start::Number(Part::Zero),
        b'1'..=b'9' => Start::Number(Part::Int),
        _ => Start::Nothing,
    }
}
