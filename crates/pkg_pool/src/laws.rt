//! Laws of the definitions that the contracts cite.

ghost use Rattle.std.specs.Prelude.{◌≡◌, ℕ, List, filter, Ok};
ghost use Rattle.std.specs.List.{AllByRecursion};
ghost use Rattle.tree_dev.specs.Trees.{FileTree, IsTree};
ghost use Rattle.manifest_read.specs.WellFormed.{IsManifest};
ghost use Rattle.manifest_read.specs.declared.types.Manifest.{Manifest};
ghost use Rattle.manifest_read.specs.declared.types.Role.TheVariants.{Root};
ghost use Rattle.pkg_pool.specs.declared.origin.Origin.{Origin};
ghost use Rattle.pkg_pool.specs.Patterns.{Found, url_expanded};
ghost use Rattle.pkg_pool.specs.Matches.{holds_manifest, matches};
ghost use Rattle.pkg_pool.specs.Pools.{HasPaths, Loaded, pool_of_tree};
ghost use Rattle.pkg_pool.specs.Offered.{counted, offered};

use manifest_read::Manifest;

/// The urls of a manifest that was read have the segments of paths, as `load` asks of them.
pub fn manifests_have_paths(_root: &Manifest)
    requires { IsManifest Root _root.now }
    ensures { AllByRecursion HasPaths _root.now.repositories }
{}

/// The folders of packages that a url names in a tree are all those that it matches, each once and in path order.
pub fn urls_name_their_matches()
    ensures { (t : FileTree) (origin : Origin) (segments : List (List ℕ)) (left : ℕ) (found : Found) → IsTree t → url_expanded t origin segments left ≡ Ok found
        → filter (holds_manifest t origin) found.paths ≡ matches t origin segments }
{}

/// The candidates of a pool are those that count of all that the repositories offer.
pub fn pools_have_what_counts()
    ensures { (t : FileTree) (project : List (List ℕ)) (root : Manifest) (left : ℕ) (loaded : Loaded) → IsTree t → pool_of_tree t project root left ≡ Ok loaded
        → loaded.pool.candidates ≡ counted (offered t project root.repositories) }
{}
