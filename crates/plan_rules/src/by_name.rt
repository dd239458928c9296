//! Lists by name.

ghost use Rattle.std.specs.Prelude.{◌≡◌, ◌++◌, ℕ, List, [], ◌∷◌, if◌then◌else◌, OnOk};
ghost use Rattle.path_name.specs.Orders.{bytes_are_equal};
ghost use Rattle.plan_rules.specs.Offers.{rows_at};

use path_name::Name;
use std::alloc::{AllocError, Global};
use std::collections::BTreeMap;

/// By each name a list of rows, in the order in which they came.
#[derive(Drop)]
pub(crate) struct ByName<T> {
    pub(crate) rows: BTreeMap<Name, Vec<T>>,
}

impl<T: Drop> ByName<T> {
    /// No rows.
    pub(crate) fn empty(alloc: Global) -> ByName<T>
        ensures { (name : List ℕ) → rows_at result name ≡ [] }
    {
        ByName {
            rows: BTreeMap::new(alloc),
        }
    }

    /// Puts a row behind those of its name.
    pub(crate) fn put(&mut self, alloc: Global, name: &Name, row: T) -> Result<(), AllocError>
        ensures { OnOk result ((other : List ℕ) → rows_at self.new other ≡ rows_at self.old other ++ (if bytes_are_equal name.now other then row ∷ [] else [])) }
    {
        let mut rows = match self.rows.remove(name) {
            Some(rows) => rows,
            None => Vec::new(alloc),
        };
        rows.push(row)?;
        let _none = self.rows.insert(name.copy(alloc)?, rows)?;
        Ok(())
    }

    /// The rows of a name.
    pub(crate) fn at(&self, name: &Name) -> &[T]
        ensures { result.now ≡ rows_at self.now name.now }
    {
        match self.rows.get(name) {
            Some(rows) => rows.as_slice(),
            None => &[],
        }
    }
}
