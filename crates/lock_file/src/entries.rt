//! Lists of packages, in which no two have one name.

ghost use Rattle.std.specs.Prelude.{◌≡◌, ◌++◌, ◌∷◌, [], ℕ, List, Result, map, not, IfOk, OnOk, Ok};
ghost use Rattle.std.specs.List.{enumerate_from};
ghost use Rattle.path_name.specs.Given.{GivesValue};
ghost use Rattle.json_ordered.specs.JsonTree.{JsonTree};
ghost use Rattle.json_ordered.specs.Docs.{tree_of, pair_of};
ghost use Rattle.manifest_read.specs.declared.fault.FieldFault.{FieldFault};
ghost use Rattle.manifest_read.specs.declared.fault.FieldFault.TheVariants.{OutOfMemory};
ghost use Rattle.manifest_read.specs.Pointers.{below, at_item};
ghost use Rattle.lock_file.specs.Entries.{is_among, entry_behind, entries_behind, entries_in, entries_of, Holds};

use itoa::Buffer;
use json_ordered::Doc;
use manifest_read::FieldFault;
use manifest_read::fields::{Key, bad_field, below, list, value};
use path_name::{Items, Name, Text};
use std::alloc::{AllocError, Global};
use std::collections::BTreeSet;

/// What an entry of such a list is read as.
pub(crate) trait Entry: Drop {
    /// What is read at a pointer.
    ghost reading: { List ℕ → JsonTree → Result Self FieldFault };
    /// What it is called.
    ghost named: { Self → List ℕ };

    fn read(alloc: Global, doc: &Doc, at: &[u8]) -> Result<Self, FieldFault>
        ensures { GivesValue OutOfMemory (reading at.now (tree_of doc.now)) result };

    fn name(&self) -> &Name
        ensures { result.now ≡ named self.now };
}

/// Whether a name is new. It has been seen from then on.
fn is_new(alloc: Global, seen: &mut BTreeSet<Name>, name: &Name) -> Result<bool, AllocError>
    ensures new { (before : List (List ℕ)) → Holds seen.old before → IfOk result (λ new. new ≡ not (is_among name.now before)) }
    ensures seen { (before : List (List ℕ)) → Holds seen.old before → OnOk result (Holds seen.new (before ++ name.now ∷ [])) }
{
    let name = name.copy(alloc)?;
    let new = seen.insert(name)?;
    Ok(new)
}

/// The i-th entry. Its name must be new, and has been seen from then on.
#[tactic(auto, unfolding(crate::specs::Entries::entry_behind))]
fn entry_at<X: Entry>(
    alloc: Global,
    seen: &mut BTreeSet<Name>,
    at: &[u8],
    i: usize,
    doc: &Doc,
) -> Result<X, FieldFault>
    ensures exact { (before : List (List ℕ)) → Holds seen.old before →
        GivesValue OutOfMemory (entry_behind X.reading X.named before (at_item at.now i) (tree_of doc.now)) result }
    ensures seen { (before : List (List ℕ)) → Holds seen.old before →
        IfOk result (λ entry. Holds seen.new (before ++ X.named entry ∷ [])) }
{
    let mut digits = Buffer::new();
    let pointer = below(alloc, at, digits.format(i).as_bytes())?;
    let entry = X::read(alloc, doc, pointer.as_slice())?;
    if is_new(alloc, seen, entry.name())? {
        Ok(entry)
    } else {
        Err(FieldFault::BadField(Text::of(pointer)))
    }
}

/// The entries of an array.
fn entries_behind<X: Entry>(
    alloc: Global,
    seen: &mut BTreeSet<Name>,
    at: &[u8],
    items: &[Doc],
) -> Result<Items<X>, FieldFault>
    ensures exact { (before : List (List ℕ)) → Holds seen.old before →
        GivesValue OutOfMemory (entries_behind X.reading X.named before at.now (enumerate_from 0 (map tree_of items.now))) result }
    ensures seen { (before : List (List ℕ)) → Holds seen.old before →
        IfOk result (λ entries. Holds seen.new (before ++ map X.named entries)) }
{
    let mut entries = Vec::with_capacity(alloc, items.len())?;
    for (i, item) in items.iter().enumerate() {
        entries.push(entry_at(alloc, seen, at, i, item)?)?;
    }
    Ok(Items::of(entries))
}

#[tactic(auto, unfolding(crate::specs::Entries::entries_in))]
fn entries_in<X: Entry>(
    alloc: Global,
    seen: &mut BTreeSet<Name>,
    at: &[u8],
    doc: &Doc,
) -> Result<Items<X>, FieldFault>
    ensures exact { (before : List (List ℕ)) → Holds seen.old before →
        GivesValue OutOfMemory (entries_in X.reading X.named before at.now (tree_of doc.now)) result }
    ensures seen { (before : List (List ℕ)) → Holds seen.old before →
        IfOk result (λ entries. Holds seen.new (before ++ map X.named entries)) }
{
    let items = list(alloc, at, doc)?;
    entries_behind(alloc, seen, at, items)
}

/// The entries of a key, which must be there, behind packages whose names were seen. Their own have been seen from
/// then on.
#[tactic(auto, unfolding(crate::specs::Entries::entries_of))]
pub(crate) fn entries_of<X: Entry>(
    alloc: Global,
    seen: &mut BTreeSet<Name>,
    at: &[u8],
    pairs: &[(Name, Doc)],
    key: Key,
) -> Result<Items<X>, FieldFault>
    ensures exact { (before : List (List ℕ)) → Holds seen.old before →
        GivesValue OutOfMemory (entries_of X.reading X.named before at.now (map pair_of pairs.now) key) result }
    ensures seen { (before : List (List ℕ)) → Holds seen.old before →
        IfOk result (λ entries. Holds seen.new (before ++ map X.named entries)) }
{
    match value(pairs, key) {
        None => Err(bad_field(alloc, at, key.text())),
        Some(doc) => {
            let pointer = below(alloc, at, key.text())?;
            entries_in(alloc, seen, pointer.as_slice(), doc)
        }
    }
}
