//! A piece written whole.

ghost use Rattle.std.specs.Prelude.{MatchResult, OnOk, OnErr};
ghost use Rattle.std.specs.Io.KnownBytes.{Appends, Keeps};
ghost use Rattle.tree_std.specs.Writing.{AppendsUpTo, AppendsPart};

use std::io;
use std::io::{ErrorKind, Write};

/// What is left of a piece after one write: all of it after one that an interrupt broke off.
fn write_once<'a, W: Write>(to: &mut W, piece: &'a [u8]) -> io::Result<&'a [u8]>
    ensures { MatchResult result (λ left. AppendsUpTo (W.contents to.old) (W.contents to.new) piece.now left.now)
        (λ _. Keeps (W.contents to.old) (W.contents to.new)) }
{
    match to.write(piece) {
        Ok(0) => Err(io::Error::from(ErrorKind::WriteZero)),
        Ok(count) => Ok(piece.split_at(count).1),
        Err(error) => {
            if error.kind() == ErrorKind::Interrupted {
                return Ok(piece);
            }
            Err(error)
        }
    }
}

/// Writes all of a piece: where a write takes a part of it, another one takes up from there, and one that an
/// interrupt broke off is tried again. After an error a part of the piece was written. A write that takes
/// nothing is an error.
pub fn write_whole<W: Write>(to: &mut W, piece: &[u8]) -> io::Result<()>
    ensures whole { OnOk result (Appends (W.contents to.old) (W.contents to.new) piece.now) }
    ensures part { OnErr result (AppendsPart (W.contents to.old) (W.contents to.new) piece.now) }
{
    let mut left = piece;
    for _ in 0..u64::MAX {
        if left.is_empty() {
            return Ok(());
        }
        left = write_once(to, left)?;
    }
    Err(io::Error::from(ErrorKind::TimedOut))
}
