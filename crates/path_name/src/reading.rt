//! A path's text, read part by part.

ghost use Rattle.std.specs.Prelude.{◌≡◌, ◌+◌, ◌≤◌, ◌<◌, ◌^◌, IsTrue, IfOk, OnOk};
ghost use Rattle.path_name.specs.Given.{Gives};
ghost use Rattle.path_name.specs.Paths.{IsPath, has_no_slash, path_step, path_of, followed};
ghost use Rattle.path_name.specs.Joined.{segments_of};
ghost use Rattle.path_name.specs.declared.fault.PathFault.TheVariants.{OutOfMemory};
ghost use Rattle.path_name.specs.FolderRefs.{folder_step, folder_of};

use crate::{PathFault, joined};
use std::alloc::Global;

/// The segments, joined, of the path that a text names.
#[tactic(auto, unfolding(crate::specs::Paths::path_of, crate::specs::Paths::followed))]
pub fn path_segments(alloc: Global, text: &[u8]) -> Result<Vec<u8>, PathFault>
    ensures path { IfOk result (λ joined. IsPath (segments_of joined.items)) }
    ensures exact { Gives (λ joined. segments_of joined.items) OutOfMemory (path_of text.now) result }
{
    let mut joined = Vec::with_capacity(alloc, text.len())?;
    follow_text(&mut joined, text)?;
    Ok(joined)
}

/// The segments, joined, of the path that a text leads to from those of another.
pub fn followed_segments(alloc: Global, start: &[u8], text: &[u8]) -> Result<Vec<u8>, PathFault>
    requires { IsPath (segments_of start.now) }
    ensures path { IfOk result (λ joined. IsPath (segments_of joined.items)) }
    ensures exact { Gives (λ joined. segments_of joined.items) OutOfMemory (followed (segments_of start.now) text.now) result }
{
    let mut joined = Vec::with_capacity(alloc, start.len() + 1 + text.len())?;
    joined.extend_from_slice(start)?;
    follow_text(&mut joined, text)?;
    Ok(joined)
}

/// Reads a text after the segments that are there.
fn follow_text(joined: &mut Vec<u8>, text: &[u8]) -> Result<(), PathFault>
    requires { IsPath (segments_of joined.old.items) }
    ensures path { OnOk result (IsPath (segments_of joined.new.items)) }
    ensures exact { Gives (λ _. segments_of joined.new.items) OutOfMemory (followed (segments_of joined.old.items) text.now) result }
{
    let mut rest = Some(text);
    while let Some(left) = rest {
        let (part, after) = joined::first_part(left);
        read_part(joined, part, text.len() - left.len())?;
        rest = after;
    }
    Ok(())
}

/// Reads the part of a path's text that stands at `at`.
fn read_part(joined: &mut Vec<u8>, part: &[u8], at: usize) -> Result<(), PathFault>
    requires path { IsPath (segments_of joined.old.items) }
    requires whole { IsTrue (has_no_slash part.now) }
    ensures path { OnOk result (IsPath (segments_of joined.new.items)) }
    ensures exact { Gives (λ _. segments_of joined.new.items) OutOfMemory
        (path_step (segments_of joined.old.items) (at, part.now)) result }
{
    if !joined::is_clean_part(part) {
        return Err(PathFault::BadSegment(at as u64));
    }
    if !joined::enter(joined, part)? {
        return Err(PathFault::AboveRoot(at as u64));
    }
    Ok(())
}

/// How far up from a project a text leads, and the segments, joined, of the path from there.
pub fn folder_segments(alloc: Global, text: &[u8]) -> Result<(u64, Vec<u8>), PathFault>
    ensures path { IfOk result (λ read. IsPath (segments_of read.1.items)) }
    ensures exact { Gives (λ read. record { up = read.0; path = segments_of read.1.items }) OutOfMemory (folder_of text.now) result }
{
    let mut joined = Vec::with_capacity(alloc, text.len())?;
    let mut up = 0;
    let mut rest = Some(text);
    while let Some(left) = rest {
        let (part, after) = joined::first_part(left);
        read_folder_part(&mut up, &mut joined, part, text.len() - left.len())?;
        rest = after;
    }
    Ok((up, joined))
}

/// Reads the part of a folder's text that stands at `at`.
fn read_folder_part(
    up: &mut u64,
    joined: &mut Vec<u8>,
    part: &[u8],
    at: usize,
) -> Result<(), PathFault>
    requires path { IsPath (segments_of joined.old.items) }
    requires whole { IsTrue (has_no_slash part.now) }
    requires room { up.old + 1 < 2 ^ 64 }
    ensures path { OnOk result (IsPath (segments_of joined.new.items)) }
    ensures room { up.new ≤ up.old + 1 }
    ensures exact { Gives (λ _. record { up = up.new; path = segments_of joined.new.items }) OutOfMemory
        (folder_step (record { up = up.old; path = segments_of joined.old.items }) (at, part.now)) result }
{
    if !joined::is_clean_part(part) {
        return Err(PathFault::BadSegment(at as u64));
    }
    if !joined::enter(joined, part)? {
        *up += 1;
    }
    Ok(())
}
