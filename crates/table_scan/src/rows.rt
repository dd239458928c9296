//! The rows of tables.

ghost use Rattle.std.specs.Prelude.{◌≡◌, ◌<◌, ℕ, List, [], length, IfOk};
ghost use Rattle.table_scan.specs.TableTokens.{piece_at, tokens};
ghost use Rattle.table_scan.specs.TableSteps.{IsNoGap, Reads, key_at, row_at};
ghost use Rattle.table_scan.specs.TableReading.{front_from, path_next, At_root, folders_next, At_array, At_folder, table_next, At_row, At_end};
ghost use Rattle.table_scan.specs.TableGrammar.{is_whole, is_any};
ghost use Rattle.table_scan.specs.TableFaults.{prefix_row, class_row};
ghost use Rattle.table_scan.specs.Keys.{allows};

use crate::gap::after_gaps;
use crate::list::{Separator, behind_item};
use crate::mark::{Mark, behind_mark, expect};
use crate::quoted::quoted;
use crate::roots::Roots;
use crate::stop::Stop;
use crate::types::{ClassRow, PrefixRow};
use path_name::{Items, Name, Path};
use std::alloc::Global;

/// Which keys a table allows.
#[derive(Clone, Copy)]
pub enum Keys {
    /// The empty one, and those that end in `\`.
    Whole,
    /// All.
    Any,
}

impl Keys {
    fn allow(self, key: &[u8]) -> bool
        ensures { result ≡ allows self key.now }
    {
        match self {
            Keys::Any => true,
            Keys::Whole => is_whole(key),
        }
    }
}

/// Whether a key is empty or ends in `\`.
fn is_whole(key: &[u8]) -> bool
    ensures { result ≡ is_whole key.now }
{
    match key.len() {
        0 => true,
        len => key[len - 1] == b'\\',
    }
}

/// The folders of a prefix, and what follows them: `array(`, paths, `)`.
fn folders<'t>(alloc: Global, roots: &Roots, text: &'t [u8]) -> Result<(Vec<Path>, &'t [u8]), Stop>
    ensures reads { Reads (λ x. (x.0.items, tokens x.1.now)) (front_from (folders_next roots.now.project.now) At_array (tokens text.now)) result }
    ensures shorter { IfOk result (λ x. length x.1.now < length text.now) }
{
    let behind_array = expect(text, Mark::Array)?;
    let inside = expect(behind_array, Mark::Open)?;
    folders_inside(alloc, roots, inside)
}

fn folders_inside<'t>(
    alloc: Global,
    roots: &Roots,
    text: &'t [u8],
) -> Result<(Vec<Path>, &'t [u8]), Stop>
    ensures reads { Reads (λ x. (x.0.items, tokens x.1.now)) (front_from (folders_next roots.now.project.now) (At_folder []) (tokens text.now)) result }
    ensures shorter { IfOk result (λ x. length x.1.now < length text.now) }
{
    let mut folders = Vec::new(alloc);
    let mut rest = text;
    loop {
        let here = after_gaps(rest);
        if let Some(behind) = behind_mark(here, Mark::Close) {
            return Ok((folders, behind));
        }
        let (folder, after) = roots.path(alloc, here)?;
        folders.push(folder)?;
        match behind_item(after)? {
            Separator::Comma(next) => rest = next,
            Separator::Close(behind) => return Ok((folders, behind)),
        }
    }
}

/// The key at the front, one that is allowed, and what follows it.
fn key(alloc: Global, keys: Keys, text: &[u8]) -> Result<(Vec<u8>, &[u8]), Stop>
    requires { IsNoGap (piece_at text.now) }
    ensures reads { Reads (λ x. (x.0.items, tokens x.1.now)) (key_at (allows keys) (tokens text.now)) result }
    ensures shorter { IfOk result (λ x. length x.1.now < length text.now) }
{
    let (key, rest) = quoted(alloc, text)?;
    if keys.allow(key.as_slice()) {
        Ok((key, rest))
    } else {
        Err(Stop::Bad(text.len()))
    }
}

/// The row of a prefix at the front, and what follows it.
fn prefix_row<'t>(
    alloc: Global,
    roots: &Roots,
    keys: Keys,
    text: &'t [u8],
) -> Result<(PrefixRow, &'t [u8]), Stop>
    requires { IsNoGap (piece_at text.now) }
    ensures reads { Reads (λ x. (x.0, tokens x.1.now)) (row_at (allows keys) prefix_row (front_from (folders_next roots.now.project.now) At_array) (tokens text.now)) result }
    ensures shorter { IfOk result (λ x. length x.1.now < length text.now) }
{
    let (prefix, after) = key(alloc, keys, text)?;
    let value = expect(after, Mark::Arrow)?;
    let (folders, rest) = folders(alloc, roots, value)?;
    let row = PrefixRow {
        prefix: Name::of(prefix),
        folders: Items::of(folders),
    };
    Ok((row, rest))
}

/// The row of a class or a file at the front, and what follows it.
fn class_row<'t>(alloc: Global, roots: &Roots, text: &'t [u8]) -> Result<(ClassRow, &'t [u8]), Stop>
    requires { IsNoGap (piece_at text.now) }
    ensures reads { Reads (λ x. (x.0, tokens x.1.now)) (row_at is_any class_row (front_from (path_next roots.now.project.now) At_root) (tokens text.now)) result }
    ensures shorter { IfOk result (λ x. length x.1.now < length text.now) }
{
    let (class, after) = key(alloc, Keys::Any, text)?;
    let value = expect(after, Mark::Arrow)?;
    let (path, rest) = roots.path(alloc, value)?;
    let row = ClassRow {
        class: Name::of(class),
        path,
    };
    Ok((row, rest))
}

/// The rows of prefixes behind the head of a table, up to the `)` and what follows that.
pub fn prefix_rows<'t>(
    alloc: Global,
    roots: &Roots,
    keys: Keys,
    text: &'t [u8],
) -> Result<(Vec<PrefixRow>, &'t [u8]), Stop>
    ensures reads { Reads (λ x. (x.0.items, tokens x.1.now)) (front_from (table_next (allows keys) prefix_row At_array (folders_next roots.now.project.now)) (At_row []) (tokens text.now)) result }
{
    let mut rows = Vec::new(alloc);
    let mut rest = text;
    loop {
        let here = after_gaps(rest);
        if let Some(behind) = behind_mark(here, Mark::Close) {
            return Ok((rows, expect(behind, Mark::Semicolon)?));
        }
        let (row, after) = prefix_row(alloc, roots, keys, here)?;
        rows.push(row)?;
        match behind_item(after)? {
            Separator::Comma(next) => rest = next,
            Separator::Close(behind) => return Ok((rows, expect(behind, Mark::Semicolon)?)),
        }
    }
}

/// The rows of classes or files behind the head of a table, up to the `)` and what follows that.
pub fn class_rows<'t>(
    alloc: Global,
    roots: &Roots,
    text: &'t [u8],
) -> Result<(Vec<ClassRow>, &'t [u8]), Stop>
    ensures reads { Reads (λ x. (x.0.items, tokens x.1.now)) (front_from (table_next is_any class_row At_root (path_next roots.now.project.now)) (At_row []) (tokens text.now)) result }
{
    let mut rows = Vec::new(alloc);
    let mut rest = text;
    loop {
        let here = after_gaps(rest);
        if let Some(behind) = behind_mark(here, Mark::Close) {
            return Ok((rows, expect(behind, Mark::Semicolon)?));
        }
        let (row, after) = class_row(alloc, roots, here)?;
        rows.push(row)?;
        match behind_item(after)? {
            Separator::Comma(next) => rest = next,
            Separator::Close(behind) => return Ok((rows, expect(behind, Mark::Semicolon)?)),
        }
    }
}
