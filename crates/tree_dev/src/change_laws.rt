//! Laws of changes and listings, each as the contract of a function that does nothing.

ghost use Rattle.std.specs.Prelude.{◌≡◌, ◌<◌, ◌^◌, ◌++◌, ◌∷◌, [], List, ℕ, IsTrue, false};
ghost use Rattle.std.specs.List.{list_any};
ghost use Rattle.std.specs.List.Sorted.{IsStrictlySortedBy};
ghost use Rattle.std.specs.Ordering.{eq_by_cmp};
ghost use Rattle.std.specs.FinMap as map;
ghost use Rattle.path_name.specs.Orders.{byte_cmp};
ghost use Rattle.path_name.specs.Paths.{IsPath};
ghost use Rattle.tree_dev.specs.Trees.{FileTree, IsListing, IsTree, kind_at, names_in};
ghost use Rattle.tree_dev.specs.Changes.{AreApart, changed, entry_after, has_place, is_root, is_touched, target};
ghost use Rattle.tree_dev.specs.declared.change.Change.{Change};
ghost use Rattle.tree_dev.specs.declared.change.Change.TheVariants as changes;
ghost use Rattle.tree_dev.specs.declared.entry.Kind.TheVariants as kinds;

/// What stands at each path after a change, above all after a rename.
pub fn what_a_change_leaves()
    ensures { (t : FileTree) (change : Change) (path : List (List ℕ)) → map.get (changed t change) path ≡ entry_after t change path }
{}

/// A change leaves every entry that is not at or below its paths.
pub fn a_change_leaves_others()
    ensures { (t : FileTree) (change : Change) (path : List (List ℕ)) → is_touched change path ≡ false → map.get (changed t change) path ≡ map.get t path }
{}

/// A change that has a place in a tree leaves a tree, where it leaves few enough entries.
pub fn a_change_leaves_a_tree()
    ensures { (t : FileTree) (change : Change) → IsTree t → IsPath (target change) → IsTrue (has_place t change)
        → map.len (changed t change) < 2 ^ 32 → IsTree (changed t change) }
{}

/// Two changes at paths of which none is at or below another commute.
pub fn changes_apart_commute()
    ensures { (t : FileTree) (first second : Change) → AreApart first second → changed (changed t first) second ≡ changed (changed t second) first }
{}

/// The names of a folder are exactly those of the entries in it, each once and in byte order; in a tree
/// each is a segment of a path.
pub fn names_are_the_entries()
    ensures exactly { (t : FileTree) (folder : List (List ℕ)) (name : List ℕ) →
        list_any (eq_by_cmp byte_cmp name) (names_in t folder) ≡ map.contains_key t (folder ++ name ∷ []) }
    ensures ascending { (t : FileTree) (folder : List (List ℕ)) → IsStrictlySortedBy byte_cmp (names_in t folder) }
    ensures listing { (t : FileTree) (folder : List (List ℕ)) → IsTree t → IsListing (names_in t folder) }
{}

/// A folder that lists no name, and is not the root, can be removed.
pub fn an_empty_folder_can_be_removed()
    ensures { (t : FileTree) (at : List (List ℕ)) → kind_at t at ≡ kinds.Folder → is_root at ≡ false → names_in t at ≡ []
        → IsTrue (has_place t (changes.FolderRemoved at)) }
{}
