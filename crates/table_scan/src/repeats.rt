//! Keys that are repeated.

ghost use Rattle.std.specs.Prelude.{◌≡◌, List, ℕ, true, map, IfOk};
ghost use Rattle.std.specs.declared.cmp.Ordering.TheVariants.{Less};
ghost use Rattle.table_scan.specs.TableGrammar.{last_values};
ghost use Rattle.table_scan.specs.Repeats.{are_strict};
ghost use Rattle.table_scan.specs.DistinctKeys.{AreDistinct};

use crate::types::{ClassRow, PrefixRow};
use path_name::Name;
use std::alloc::{AllocError, Global};
use std::cmp::Ordering;
use std::collections::BTreeMap;

/// A row with a key.
pub trait Keyed {
    ghost use Rattle.std.specs.Prelude.{List, ℕ};

    ghost key_of: { Self → List ℕ };

    /// The key.
    fn key(&self) -> &Name
        ensures { result.now ≡ key_of self.now };
}

impl Keyed for PrefixRow {
    ghost use Rattle.table_scan.specs.TableFaults.{prefix_of};

    ghost key_of = { prefix_of };

    fn key(&self) -> &Name {
        &self.prefix
    }
}

impl Keyed for ClassRow {
    ghost use Rattle.table_scan.specs.TableFaults.{class_of};

    ghost key_of = { class_of };

    fn key(&self) -> &Name {
        &self.class
    }
}

/// Whether each key stands in this order to the one before it.
fn are_strict<R: Keyed>(rows: &[R], order: Ordering) -> bool
    ensures { result ≡ are_strict order (map R.key_of rows.now) }
{
    let Some((first, behind)) = rows.split_first() else {
        return true;
    };
    let mut last = first.key();
    let mut rest = behind;
    while let Some((next, after)) = rest.split_first() {
        if last.cmp(next.key()) != order {
            return false;
        }
        last = next.key();
        rest = after;
    }
    true
}

/// Whether each key stands behind the one before it.
fn rise(keys: &[&[u8]]) -> bool
    ensures { result ≡ are_strict Less (map (λ key. key.now) keys.now) }
{
    let Some((first, behind)) = keys.split_first() else {
        return true;
    };
    let mut last = *first;
    let mut rest = behind;
    while let Some((next, after)) = rest.split_first() {
        if last.cmp(*next) != Ordering::Less {
            return false;
        }
        last = *next;
        rest = after;
    }
    true
}

/// Whether no key stands twice: they are sorted, and then neighbours are compared.
fn are_distinct<R: Keyed>(alloc: Global, rows: &[R]) -> Result<bool, AllocError>
    ensures { IfOk result (λ b. b ≡ true → AreDistinct (map R.key_of rows.now)) }
{
    let mut keys = Vec::with_capacity(alloc, rows.len())?;
    for row in rows {
        let key = row.key().as_slice();
        keys.push(key)?;
    }
    keys.sort_unstable();
    let sorted = keys.as_slice();
    Ok(rise(sorted))
}

/// The rows with each key in its first place and with its last value. Neighbours are compared first: keys
/// that rise or fall throughout are not repeated. Keys in another order are sorted, and only where one
/// stands twice are rows put in the places of others.
pub fn last_values<R: Keyed + Drop>(alloc: Global, rows: Vec<R>) -> Result<Vec<R>, AllocError>
    ensures { IfOk result (λ kept. kept.items ≡ last_values R.key_of rows.items) }
{
    if are_strict(rows.as_slice(), Ordering::Less) {
        return Ok(rows);
    }
    if are_strict(rows.as_slice(), Ordering::Greater) {
        return Ok(rows);
    }
    let distinct = are_distinct(alloc, rows.as_slice())?;
    if distinct {
        return Ok(rows);
    }
    put_all(alloc, rows)
}

/// The same for any keys.
#[tactic(auto, unfolding(crate::specs::TableGrammar::last_values))]
fn put_all<R: Keyed + Drop>(alloc: Global, rows: Vec<R>) -> Result<Vec<R>, AllocError>
    ensures { IfOk result (λ kept. kept.items ≡ last_values R.key_of rows.items) }
{
    let mut kept = Vec::new(alloc);
    let mut places = BTreeMap::new(alloc);
    for row in rows {
        let place = places.get(row.key()).copied();
        match place {
            Some(place) => kept[place] = row,
            None => {
                places.insert(row.key().copy(alloc)?, kept.len())?;
                kept.push(row)?;
            }
        }
    }
    Ok(kept)
}
