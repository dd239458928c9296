//! Laws of the definitions that the contracts cite.

ghost use Rattle.std.specs.Prelude.{◌≡◌, ℕ, List, true, length, Ok};
ghost use Rattle.tree_dev.specs.Trees.{FileTree};
ghost use Rattle.manifest_read.specs.declared.types.Manifest.{Manifest};
ghost use Rattle.pkg_pool.specs.Pools.{Loaded, pool_of_tree};
ghost use Rattle.pkg_pool.specs.declared.pool.Pool.{Pool};
ghost use Rattle.plan_rules.specs.Sets.{set_of};
ghost use Rattle.plan_rules.specs.Validity.{is_valid};
ghost use Rattle.lock_file.specs.KeptPools.{IsDocumentedRoot, IsDocumentedPool, HaveOwnNames};

/// The packages of a pool that [`pkg_pool::load`] gives are what JSON texts say, as [`lock_of`](crate::lock_of) asks of a
/// pool whose lock is to be read again.
pub fn pools_are_documented()
    ensures { (t : FileTree) (project : List (List ℕ)) (root : Manifest) (left : ℕ) (loaded : Loaded) → IsDocumentedRoot root →
        pool_of_tree t project root left ≡ Ok loaded → IsDocumentedPool loaded.pool }
{}

/// No two members of a valid plan have one name, as [`lock_of`](crate::lock_of) asks of it for the same end.
pub fn valid_plans_have_own_names()
    ensures { (pool : Pool) (plan : List ℕ) → is_valid pool (set_of (length pool.candidates) plan) ≡ true → HaveOwnNames pool plan }
{}
