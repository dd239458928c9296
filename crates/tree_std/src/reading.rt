//! The bytes of an open file.

ghost use Rattle.std.specs.Prelude.{◌≡◌, ◌≤◌, Some, IfOk, IfSome, length};
ghost use Rattle.std.specs.Io.KnownBytes.{Consumes};
ghost use Rattle.tree_dev.specs.Trees.{read_of};
ghost use Rattle.tree_dev.specs.declared.entry.Entry.TheVariants as entries;
ghost use Rattle.tree_std.specs.Reading.{IsBounded};

use crate::trouble::Trouble;
use path_name::Text;
use std::alloc::Global;
use std::io::{ErrorKind, Read};
use tree_dev::ReadAnswer;

/// The bytes that one read gives, of so many at most; none where an interrupt breaks it off.
fn first_read<F: Read>(alloc: Global, file: &mut F, room: usize) -> Result<Vec<u8>, Trouble>
    ensures bytes { IfOk result (λ bytes. Consumes (F.remaining file.old) (F.remaining file.new) bytes.items) }
    ensures few { IfOk result (λ bytes. length bytes.items ≤ room) }
{
    let mut bytes = vec![in alloc; 0u8; room]?;
    let len = match file.read(bytes.as_mut_slice()) {
        Ok(len) => len,
        Err(error) if error.kind() == ErrorKind::Interrupted => 0,
        Err(error) => return Err(Trouble::from(error)),
    };
    bytes.truncate(len);
    Ok(bytes)
}

/// All bytes that a reader has left, or TooLong where these are more than `most`. Room is made for `len` of
/// them, so that a file of that length takes two reads. No more than `most` and one are read. A read that an
/// interrupt broke off is tried again.
pub fn bytes_of<F: Read + Drop>(
    alloc: Global,
    file: F,
    len: u64,
    most: u64,
) -> Result<ReadAnswer, Trouble>
    ensures exact { IfOk result (λ answer. IfSome (F.remaining file) (λ bytes. answer ≡ read_of most (Some (entries.File bytes)))) }
    ensures bounded { IfOk result (IsBounded most) }
{
    let mut file = file;
    let room = len.min(most).saturating_add(1);
    let mut bytes = first_read(alloc, &mut file, room as usize)?;
    let left = most.saturating_add(1).saturating_sub(bytes.len() as u64);
    file.take(left).read_to_end(&mut bytes)?;
    if bytes.len() as u64 > most {
        return Ok(ReadAnswer::TooLong);
    }
    Ok(ReadAnswer::Bytes(Text::of(bytes)))
}
