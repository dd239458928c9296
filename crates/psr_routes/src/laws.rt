//! What holds of the order of packages and of rows, each as the contract of a function that does nothing.

ghost use Rattle.std.specs.Prelude.{ℕ, List, Bool, length, All, IsTrue};
ghost use Rattle.std.specs.List.{range_with_len, AllByRecursion};
ghost use Rattle.std.specs.List.Sorted.{IsPermutation};
ghost use Rattle.psr_routes.specs.declared.types.Placed.{Placed};
ghost use Rattle.class_paths.specs.RowPath.{is_route_prefix};
ghost use Rattle.manifest_read.specs.declared.types.Role.TheVariants.{Root, Member};
ghost use Rattle.manifest_read.specs.declared.types.Manifest.{Manifest};
ghost use Rattle.manifest_read.specs.WellFormed.{IsPackage, IsManifest};
ghost use Rattle.psr_routes.specs.Routes.{rows_of};
ghost use Rattle.psr_routes.specs.PackageOrder.{package_order_of, Requires, HasNoCycle, StandsBefore};

/// The order of packages has each place once. Where requirements don't go round in a circle, what a package requires
/// comes before it.
pub fn order_of_packages()
    ensures places { (members : List Placed) → IsPermutation (range_with_len 0 (length members)) (package_order_of members) }
    ensures needs { (members : List Placed) → HasNoCycle members → (place other : ℕ) → Requires members place other →
        StandsBefore (package_order_of members) other place }
{}

/// Where the root and the packages are as manifests are read, the prefix of each row is one that rows of its kind may
/// have: what `candidates` asks of rows holds of these.
pub fn prefixes_of_rows()
    ensures { (project : List (List ℕ)) (root : Manifest) (members : List Placed) (dev : Bool) → IsManifest Root root →
        AllByRecursion (λ one. IsPackage Member one.package) members →
        All (λ row. IsTrue (is_route_prefix row.kind row.prefix)) (rows_of project root members dev) }
{}
