//! Laws of the definitions that the contracts cite, each as the contract of a function that does nothing.

ghost use Rattle.std.specs.Prelude.{◌≡◌, ◌≢◌, ◌<◌, ℕ, List, [], ◌∷◌, ◌++◌, length, filter, false, IsTrue};
ghost use Rattle.std.specs.List.{range_with_len, AllPairs};
ghost use Rattle.std.specs.List.Sorted.{IsPermutation};
ghost use Rattle.std.specs.declared.cmp.Ordering.TheVariants.{Less};
ghost use Rattle.path_name.specs.Orders.{byte_cmp};
ghost use Rattle.class_paths.specs.declared.types.RouteKind.{RouteKind};
ghost use Rattle.class_paths.specs.declared.types.RouteKind.TheVariants.{Psr4};
ghost use Rattle.class_paths.specs.declared.types.Route.{Route};
ghost use Rattle.class_paths.specs.RowPath.{begins, is_route_prefix};
ghost use Rattle.class_paths.specs.Candidates.{rows_for, is_of, tried_rows, candidates_of, IsTriedFirst};

/// Prefixes that begin one name are ordered by their length as in byte order, and those of one length are the same.
pub fn prefixes_of_one_name()
    ensures order { (name prefix longer : List ℕ) → IsTrue (begins prefix name) → IsTrue (begins longer name) →
        length prefix < length longer → byte_cmp prefix longer ≡ Less }
    ensures same { (name prefix other : List ℕ) → IsTrue (begins prefix name) → IsTrue (begins other name) →
        length prefix ≡ length other → prefix ≡ other }
{}

/// The empty prefix is one of PSR-4, and so is each that ends in `\`.
pub fn psr4_prefixes()
    ensures empty { IsTrue (is_route_prefix Psr4 []) }
    ensures ended { (front : List ℕ) → IsTrue (is_route_prefix Psr4 (front ++ 92 ∷ [])) }
{}

/// The rows that are tried are those whose prefix begins the name, PSR-4 before PSR-0 and a longer prefix before a
/// shorter one, and rows of one kind and prefix in their order.
pub fn order_of_candidates()
    ensures rows { (rows : List Route) (name : List ℕ) → IsPermutation (rows_for rows name) (tried_rows rows name) }
    ensures order { (rows : List Route) (name : List ℕ) → AllPairs IsTriedFirst (tried_rows rows name) }
    ensures stable { (rows : List Route) (name : List ℕ) (kind : RouteKind) (prefix : List ℕ) → IsTrue (begins prefix name) →
        filter (is_of kind prefix) (tried_rows rows name) ≡ filter (is_of kind prefix) rows }
{}

/// Candidates come from the rows of each kind and prefix alone: lists that agree in these, such as those in which the
/// rows of a prefix were brought together, give the same paths. A row whose prefix doesn't begin the name gives none.
pub fn candidates_by_rows()
    ensures merged { (rows others : List Route) (name : List ℕ) →
        ((kind : RouteKind) (prefix : List ℕ) → filter (is_of kind prefix) rows ≡ filter (is_of kind prefix) others) →
        candidates_of rows name ≡ candidates_of others name }
    ensures added { (before behind : List Route) (row : Route) (name : List ℕ) → begins row.prefix name ≡ false →
        candidates_of (before ++ row ∷ behind) name ≡ candidates_of (before ++ behind) name }
{}
