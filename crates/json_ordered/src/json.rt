//! The value of a JSON text.

ghost use Rattle.std.specs.Prelude.{◌≡◌, ◌≢◌, ◌↔◌, ℕ, true, List, [], Option, Some, None, Ok, Err, IfOk, IfErr};
ghost use Rattle.path_name.specs.Given.{Gives};
ghost use Rattle.json_ordered.specs.JsonTree.{JsonTree, put_all, HasDistinctNames, HasUtf8Texts};
ghost use Rattle.json_ordered.specs.Json.{IsJson, IsJsonOf};
ghost use Rattle.json_ordered.specs.JsonDocuments.{IsDocument};
ghost use Rattle.json_ordered.specs.Docs.{tree_of};
ghost use Rattle.json_ordered.specs.JsonNames.{value_of, last_value, names_of, first_names};
ghost use Rattle.json_ordered.specs.JsonEquality.{documents_are_equal};
ghost use Rattle.json_ordered.specs.declared.doc.Doc.{Doc};
ghost use Rattle.json_ordered.specs.JsonFaults.{json_of, json_fault, Means};
ghost use Rattle.json_ordered.specs.JsonPlaces.{StandsIn, placed_fault};
ghost use Rattle.json_ordered.specs.declared.fault.JsonFault.{JsonFault};

use crate::doc::Doc;
use crate::fault::JsonFault;
use crate::stop::Stop;
use crate::values::document;
use simdutf8::compat::from_utf8;
use std::alloc::Global;

// A fault's place, counted from the front.
fn placed(stop: Stop, len: usize) -> JsonFault
    requires { StandsIn stop len }
    ensures { result ≡ placed_fault stop len }
{
    match stop {
        Stop::Syntax(left) => JsonFault::Syntax((len - left) as u64),
        Stop::TooDeep(left) => JsonFault::TooDeep((len - left) as u64),
        Stop::OutOfMemory => JsonFault::OutOfMemory,
    }
}

/// The value of a JSON text by RFC 8259, with blanks allowed round it and at most 128 levels of arrays
/// and objects open at any place. A repeated name in an object keeps its first place and takes its last
/// value. Strings and names are decoded, as UTF-8; numbers are kept as they are spelled. An escape of a
/// surrogate outside a pair and a byte order mark are no JSON.
///
/// Refuses [`JsonFault::NotUtf8`] first, at the first ill-formed sequence; else the fault that stands
/// furthest left: [`JsonFault::TooDeep`] at the bracket that opens the 129th level, or
/// [`JsonFault::Syntax`] at the length of the longest front that begins some JSON text.
pub fn read(alloc: Global, text: &[u8]) -> Result<Doc, JsonFault>
    // What is read is the text's value.
    ensures value { IfOk result (λ doc. IsJson text.now (tree_of doc)) }
    // A text that has a value is read, unless memory runs out.
    ensures reads { (tree : JsonTree) → IsJson text.now tree → Gives tree_of JsonFault.OutOfMemory (Ok tree) result }
    // Else it is the text's one fault, with its place.
    ensures fault { IfErr result (λ e. e ≢ JsonFault.OutOfMemory → json_fault text.now ≡ Some e) }
    // A text that has a fault, in the words of the grammar, is refused with it.
    ensures refuses { (fault : JsonFault) → Means text.now fault → Gives tree_of JsonFault.OutOfMemory (Err fault) result }
    // The names of each object are distinct.
    ensures distinct { IfOk result (λ doc. HasDistinctNames (tree_of doc)) }
    // Each string and name is UTF-8.
    ensures texts { IfOk result (λ doc. HasUtf8Texts (tree_of doc)) }
    // The value or the fault.
    ensures exact { Gives tree_of JsonFault.OutOfMemory (json_of text.now) result }
{
    match from_utf8(text) {
        Err(fault) => Err(JsonFault::NotUtf8(fault.valid_up_to() as u64)),
        Ok(_) => match document(alloc, text) {
            Ok(doc) => Ok(doc),
            Err(stop) => Err(placed(stop, text.len())),
        },
    }
}

/// What a JSON text and its fault are: laws of the definitions, which no code runs.
pub fn laws()
    // A text has one value, however many levels are allowed.
    ensures one_value { (levels more : ℕ) (text : List ℕ) (a b : JsonTree) → IsJsonOf levels text a → IsJsonOf more text b → a ≡ b }
    // A text has a value or a fault, and the value is the grammar's.
    ensures value { (text : List ℕ) (tree : JsonTree) → json_of text ≡ Ok tree ↔ IsJson text tree }
    // What a fault says of its text, in the words of the grammar, and what says so of it is its fault.
    ensures fault { (text : List ℕ) (fault : JsonFault) → json_fault text ≡ Some fault → Means text fault }
    ensures only_fault { (text : List ℕ) (fault : JsonFault) → Means text fault → json_fault text ≡ Some fault }
    // The values of texts are those with distinct names, UTF-8 texts, numbers spelled as such, and no more levels.
    ensures documents { (levels : ℕ) (tree : JsonTree) → ((text : List ℕ) × IsJsonOf levels text tree) ↔ IsDocument levels tree }
    // A name of an object has the last of its values, and the names are those that come, in the order in
    // which they first come.
    ensures last_values { (ms : List (List ℕ × JsonTree)) (name : List ℕ) → value_of (put_all [] ms) name ≡ last_value ms name }
    ensures first_places { (ms : List (List ℕ × JsonTree)) → names_of (put_all [] ms) ≡ first_names [] ms }
    // Documents are equal exactly where their trees are.
    ensures equality { (a b : Doc) → documents_are_equal a b ≡ true ↔ tree_of a ≡ tree_of b }
{}
