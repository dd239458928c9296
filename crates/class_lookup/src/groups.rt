//! Rows by the lengths of their prefixes.

ghost use Rattle.std.specs.Prelude.{◌≡◌, ℕ, ◌+◌, ◌≤◌, length, IfOk, OnOk, [], ◌∷◌, ◌++◌};
ghost use Rattle.class_lookup.specs.Groups.{table_rows_at, group_at};

use std::alloc::{AllocError, Global};
use table_scan::PrefixRow;

/// The rows whose prefix is the name's first bytes: a list for each number of bytes, from none to all, with its rows in
/// their order. Its one refusal is want of memory.
pub fn groups_of<'a>(
    alloc: Global,
    rows: &'a [PrefixRow],
    name: &[u8],
) -> Result<Vec<Vec<&'a PrefixRow>>, AllocError>
    ensures count { IfOk result (λ groups. length groups.items ≡ length name.now + 1) }
    ensures each { IfOk result (λ groups. (len : ℕ) → len ≤ length name.now → group_at groups.items len ≡ table_rows_at rows.now name.now len) }
{
    let mut groups = empty_groups(alloc, name.len() + 1)?;
    for row in rows {
        put_row(&mut groups, row, name)?;
    }
    Ok(groups)
}

fn empty_groups<'a>(alloc: Global, count: usize) -> Result<Vec<Vec<&'a PrefixRow>>, AllocError>
    ensures count { IfOk result (λ groups. length groups.items ≡ count) }
    ensures each { IfOk result (λ groups. (len : ℕ) → group_at groups.items len ≡ []) }
{
    let mut groups = Vec::with_capacity(alloc, count)?;
    for _ in 0..count {
        groups.push(Vec::new(alloc))?;
    }
    Ok(groups)
}

/// Puts a row whose prefix is the name's first bytes behind those of its length.
fn put_row<'a>(
    groups: &mut Vec<Vec<&'a PrefixRow>>,
    row: &'a PrefixRow,
    name: &[u8],
) -> Result<(), AllocError>
    requires { length groups.old.items ≡ length name.now + 1 }
    ensures count { OnOk result (length groups.new.items ≡ length name.now + 1) }
    ensures each { OnOk result ((len : ℕ) → len ≤ length name.now →
        group_at groups.new.items len ≡ group_at groups.old.items len ++ table_rows_at (row.now ∷ []) name.now len) }
{
    let prefix = row.prefix.as_slice();
    if name.starts_with(prefix) {
        groups[prefix.len()].push(row)?;
    }
    Ok(())
}
