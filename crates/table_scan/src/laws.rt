//! Laws of tables and their texts, each as the contract of a function that does nothing.

ghost use Rattle.std.specs.Prelude.{◌≡◌, ◌↔◌, List, ℕ, Bool, Ok, Err};
ghost use Rattle.table_scan.specs.TableFaults.{IsTableText, IsTableFault, tables_of, ArePrefixRows, AreClassRows, IsSpelled};
ghost use Rattle.table_scan.specs.TableTokens.{Token};
ghost use Rattle.table_scan.specs.TableGrammar.{IsState};
ghost use Rattle.table_scan.specs.DistinctKeys.{HaveDistinctKeys};
ghost use Rattle.table_scan.specs.declared.types.PrefixRow.{PrefixRow};
ghost use Rattle.table_scan.specs.declared.types.ClassRow.{ClassRow};
ghost use Rattle.table_scan.specs.declared.types.State.{State};
ghost use Rattle.table_scan.specs.declared.types.Tables.{Tables};
ghost use Rattle.table_scan.specs.declared.types.TableTexts.{TableTexts};
ghost use Rattle.table_scan.specs.declared.types.TableFault.{TableFault};

/// What the texts of tables hold is one thing, and where they hold nothing, the first fault is there.
pub fn table_texts()
    // Texts hold these tables exactly where they are read as them.
    ensures tables { (project : List (List ℕ)) (texts : TableTexts) (tables : Tables) → tables_of project texts ≡ Ok tables ↔ IsTableText texts project tables }
    // Texts hold one list of tables at most.
    ensures one { (project : List (List ℕ)) (texts : TableTexts) (tables others : Tables) → IsTableText texts project tables → IsTableText texts project others → tables ≡ others }
    // No key stands twice in a table that texts hold.
    ensures distinct { (project : List (List ℕ)) (texts : TableTexts) (tables : Tables) → IsTableText texts project tables → HaveDistinctKeys tables }
    // What is read as a fault is the first place at which no table goes on.
    ensures fault { (project : List (List ℕ)) (texts : TableTexts) (fault : TableFault) → tables_of project texts ≡ Err fault → IsTableFault texts project fault }
{}

/// Each list of tokens that the grammar has is that of some text: what begins a list of tokens of a kind
/// begins a text of the kind.
pub fn token_lists()
    ensures prefixes { (project : List (List ℕ)) (allowed : List ℕ → Bool) (ts : List Token) (rows : List PrefixRow) → ArePrefixRows project allowed ts rows → IsSpelled ts }
    ensures classes { (project : List (List ℕ)) (ts : List Token) (rows : List ClassRow) → AreClassRows project ts rows → IsSpelled ts }
    ensures states { (ts : List Token) (state : State) → IsState ts state → IsSpelled ts }
{}
