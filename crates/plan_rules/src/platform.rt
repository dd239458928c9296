//! The platform packages that the root lists.

ghost use Rattle.std.specs.Prelude.{◌≡◌, ℕ, List, false, map, filter, find, not, IfOk};
ghost use Rattle.std.specs.List.{list_any};
ghost use Rattle.std.specs.Option.{option_map, option_map_or};
ghost use Rattle.path_name.specs.Orders.{bytes_are_equal};
ghost use Rattle.constraint_set.specs.Satisfaction.{satisfies};
ghost use Rattle.plan_rules.specs.Offers.{rows_at};
ghost use Rattle.plan_rules.specs.Breaking.{suits};

use crate::by_name::ByName;
use manifest_read::{Link, PlatformRow};
use std::alloc::{AllocError, Global};

/// By each name the rows that list it.
pub(crate) fn listed<'a>(
    alloc: Global,
    rows: &'a [PlatformRow],
) -> Result<ByName<&'a PlatformRow>, AllocError>
    ensures { IfOk result (λ lists. (name : List ℕ) → map (λ row. row.now) (rows_at lists name) ≡ filter (λ row. bytes_are_equal row.name name) rows.now) }
{
    let mut lists = ByName::empty(alloc);
    for row in rows {
        lists.put(alloc, &row.name, row)?;
    }
    Ok(lists)
}

/// Whether a row is in a version that satisfies a link's constraint.
fn suits(row: &PlatformRow, link: &Link) -> bool
    ensures { result ≡ suits link.now row.now }
{
    match &row.version {
        None => false,
        Some(version) => link.wants.satisfies(version),
    }
}

/// Whether one of the rows is absent, or in another version than a link wants.
pub(crate) fn any_bars(rows: &[&PlatformRow], link: &Link) -> bool
    ensures { result ≡ list_any (λ row. not (suits link.now row)) (map (λ row. row.now) rows.now) }
{
    for row in rows {
        if !suits(*row, link) {
            return true;
        }
    }
    false
}

/// The first row in a version that a link wants.
pub(crate) fn first_suiting<'a>(rows: &[&'a PlatformRow], link: &Link) -> Option<&'a PlatformRow>
    ensures { option_map (λ row. row.now) result ≡ find (suits link.now) (map (λ row. row.now) rows.now) }
{
    for row in rows {
        if suits(*row, link) {
            return Some(*row);
        }
    }
    None
}
