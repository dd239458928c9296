//! What tables that were built open, each as the contract of a function that does nothing: plain tables open what a search by
//! the rows and the listed classes gives, and so do optimised ones for unambiguous classes and where the walks of rows have
//! no say.

ghost use Rattle.std.specs.Prelude.{◌≡◌, ◌≢◌, ℕ, List, [], ◌++◌, Bool, true, All, IsTrue, Some, None, is_some, ◌⊎◌, Ok};
ghost use Rattle.std.specs.List.{AllPairs};
ghost use Rattle.std.specs.Option.{option_map};
ghost use Rattle.std.specs.declared.cmp.Ordering.TheVariants.{Less};
ghost use Rattle.path_name.specs.Orders.{byte_cmp};
ghost use Rattle.path_name.specs.Paths.{BeginsWith};
ghost use Rattle.class_paths.specs.ClassNames.{IsClassName};
ghost use Rattle.class_paths.specs.Search.{Listed, listed_file, search_file};
ghost use Rattle.tree_dev.specs.Trees.{FileTree, IsTree};
ghost use Rattle.class_walk.specs.Walks.{AreScansOf, Walked};
ghost use Rattle.class_walk.specs.declared.job.Scanned.{Scanned};
ghost use Rattle.class_lookup.specs.Lookup.{has_file, lookup_in, mapped_row};
ghost use Rattle.table_scan.specs.DistinctKeys.{HaveDistinctKeys};
ghost use Rattle.table_scan.specs.TableGrammar.{is_whole};
ghost use Rattle.table_scan.specs.declared.types.Mode.{Mode};
ghost use Rattle.table_scan.specs.declared.types.Mode.TheVariants.{Plain, Optimised, Authoritative};
ghost use Rattle.autoload_build.specs.Answers.{AreFound, AreShownBelow, walks_of};
ghost use Rattle.autoload_build.specs.BuiltTables.{class_map_of, classes_of, tables_of};
ghost use Rattle.autoload_build.specs.ClassAgreement.{IsInScanReach, IsShown, IsUnambiguous};
ghost use Rattle.autoload_build.specs.Jobs.{ArePlacedBelow, HasReadManifests, Project, rows};

/// The class map has for each class the first file that was found to declare it, and its classes rise in byte order.
pub fn class_maps()
    ensures first { (listed : List Listed) (name : List ℕ) → option_map (λ row. row.path) (mapped_row (class_map_of listed) name) ≡ listed_file listed name }
    ensures rise { (listed : List Listed) → AllPairs (λ row other. byte_cmp row.class other.class ≡ Less) (class_map_of listed) }
{}

/// Plain tables open, for every class and whatever files there are, the file of the first listed file that declares it, and
/// else the first file of the paths to which rows lead it.
pub fn plain_tables()
    ensures { (p : Project) (generation : ℕ) (listed : List Scanned) (is_file : List (List ℕ) → Bool) (name : List ℕ) →
        lookup_in (tables_of p Plain generation listed) is_file name ≡ search_file is_file (rows p) (classes_of listed) name }
{}

/// What the walks of the modes Optimised and Authoritative find is what those of plain tables find, and behind it what the
/// walks of the folders of rows find.
pub fn walks_of_rows_come_last()
    ensures parts { (t : FileTree) (p : Project) (left : ℕ) (all : Walked) (found : List Scanned) → walks_of t p Optimised left ≡ Ok all →
        AreScansOf all.found found → (listed : List Scanned) × (walked : List Scanned) × (found ≡ listed ++ walked) × AreFound t p left listed walked }
    ensures same { (t : FileTree) (p : Project) (left : ℕ) → walks_of t p Authoritative left ≡ walks_of t p Optimised left }
{}

/// Optimised tables open the same file as plain ones for each unambiguous class, in a tree in which the packages stand in
/// their places as the walks read them; and whatever files there are, for each class that is listed and for each that the
/// walks of the folders of rows don't find. (What these find stands behind what the walks of listed paths find.)
pub fn optimised_tables()
    ensures unambiguous { (p : Project) (generation left : ℕ) (read shown : FileTree) (listed walked : List Scanned) (name : List ℕ) →
        AreFound read p left listed walked → IsShown p read shown → IsUnambiguous shown (rows p) (classes_of listed) name →
        lookup_in (tables_of p Optimised generation (listed ++ walked)) (has_file shown) name ≡ search_file (has_file shown) (rows p) (classes_of listed) name }
    ensures others { (p : Project) (generation : ℕ) (listed walked : List Scanned) (is_file : List (List ℕ) → Bool) (name : List ℕ) →
        (is_some (listed_file (classes_of listed) name) ≡ true) ⊎ (listed_file (classes_of walked) name ≡ None) →
        lookup_in (tables_of p Optimised generation (listed ++ walked)) is_file name ≡ search_file is_file (rows p) (classes_of listed) name }
{}

/// Authoritative tables open the file that the class map has for a class, and for no other class a file. So they open the same
/// as optimised ones for each class that the class map has. They open the same as plain ones for each unambiguous class in
/// reach of the scan, where the walks read a tree, and in a tree in which the packages stand in their places as they were read.
pub fn authoritative_tables()
    ensures mapped { (p : Project) (generation : ℕ) (found : List Scanned) (is_file : List (List ℕ) → Bool) (name : List ℕ) →
        lookup_in (tables_of p Authoritative generation found) is_file name ≡ listed_file (classes_of found) name }
    ensures same { (p : Project) (generation : ℕ) (found : List Scanned) (is_file : List (List ℕ) → Bool) (name : List ℕ) →
        is_some (listed_file (classes_of found) name) ≡ true →
        lookup_in (tables_of p Authoritative generation found) is_file name ≡ lookup_in (tables_of p Optimised generation found) is_file name }
    ensures in_reach { (p : Project) (generation left : ℕ) (read shown : FileTree) (listed walked : List Scanned) (name : List ℕ) →
        IsTree read → HasReadManifests p → AreFound read p left listed walked → IsShown p read shown → IsClassName name →
        IsUnambiguous shown (rows p) (classes_of listed) name → IsInScanReach shown p name →
        lookup_in (tables_of p Authoritative generation (listed ++ walked)) (has_file shown) name ≡ search_file (has_file shown) (rows p) (classes_of listed) name }
{}

/// Where packages stand at or below the project's folder, so does each file that walks find, and each path that tables name.
pub fn tables_lie_below()
    ensures found { (t : FileTree) (p : Project) (mode : Mode) (left : ℕ) (walked : Walked) (found : List Scanned) → ArePlacedBelow p →
        walks_of t p mode left ≡ Ok walked → AreScansOf walked.found found → AreShownBelow p.at found }
    ensures psr4 { (p : Project) (mode : Mode) (generation : ℕ) (found : List Scanned) → ArePlacedBelow p →
        All (λ row. All (λ folder. BeginsWith folder p.at) row.folders) (tables_of p mode generation found).psr4 }
    ensures psr0 { (p : Project) (mode : Mode) (generation : ℕ) (found : List Scanned) → ArePlacedBelow p →
        All (λ row. All (λ folder. BeginsWith folder p.at) row.folders) (tables_of p mode generation found).psr0 }
    ensures class_map { (p : Project) (mode : Mode) (generation : ℕ) (found : List Scanned) → ArePlacedBelow p → AreShownBelow p.at found →
        All (λ row. BeginsWith row.path p.at) (tables_of p mode generation found).class_map }
    ensures files { (p : Project) (mode : Mode) (generation : ℕ) (found : List Scanned) → ArePlacedBelow p →
        All (λ row. BeginsWith row.path p.at) (tables_of p mode generation found).files }
{}

/// Tables are as their printer asks: keys are distinct, every prefix has a folder, a state is there, and where manifests are as
/// they are read prefixes of PSR-4 are whole.
pub fn tables_can_be_printed()
    ensures distinct { (p : Project) (mode : Mode) (generation : ℕ) (found : List Scanned) → HaveDistinctKeys (tables_of p mode generation found) }
    ensures psr4_folders { (p : Project) (mode : Mode) (generation : ℕ) (found : List Scanned) → All (λ row. row.folders ≢ []) (tables_of p mode generation found).psr4 }
    ensures psr0_folders { (p : Project) (mode : Mode) (generation : ℕ) (found : List Scanned) → All (λ row. row.folders ≢ []) (tables_of p mode generation found).psr0 }
    ensures state { (p : Project) (mode : Mode) (generation : ℕ) (found : List Scanned) →
        (tables_of p mode generation found).state ≡ Some (record { mode = mode; generation = generation }) }
    ensures whole { (p : Project) (mode : Mode) (generation : ℕ) (found : List Scanned) → HasReadManifests p →
        All (λ row. IsTrue (is_whole row.prefix)) (tables_of p mode generation found).psr4 }
{}
