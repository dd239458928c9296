//! Documents of JSON in files that refusals name.

ghost use Rattle.std.specs.Prelude.{◌≡◌, false, IsTrue, IfOk, IfErr};
ghost use Rattle.json_ordered.specs.Docs.{tree_of};
ghost use Rattle.manifest_read.specs.Writable.{IsWritten};
ghost use Rattle.run_answers.specs.Faults.{is_of_tree, is_of_device, is_device_fault};
ghost use Rattle.run_answers.specs.Steps.{Tells};
ghost use Rattle.project_files.specs.Documents.{document_in, refusal_of_fields};

use json_ordered::{Doc, JsonFault};
use manifest_read::FieldFault;
use run_answers::{DocumentFault, NamedFile, Refusal};
use std::alloc::Global;

/// The document of a file's text (RFC 8259). `BadDocument` comes where the text is no JSON, with the place.
#[tactic(auto, using(crate::proofs::FileFaults::from_tree, crate::proofs::FileFaults::no_device), unfolding(crate::specs::Documents::document_in))]
pub fn document(alloc: Global, file: NamedFile, text: &[u8]) -> Result<Doc, Refusal>
    ensures told { Tells tree_of (document_in file text.now) result }
    // Texts are UTF-8, and the names of each object are distinct.
    ensures written { IfOk result (λ doc. IsWritten (tree_of doc)) }
    ensures no_device { is_device_fault result ≡ false }
    ensures causes { IfErr result (λ refusal. IsTrue (is_of_tree refusal)) }
{
    match json_ordered::read(alloc, text) {
        Ok(doc) => Ok(doc),
        Err(JsonFault::NotUtf8(at)) => {
            Err(Refusal::BadDocument(file, DocumentFault::NotUtf8(at)))
        }
        Err(JsonFault::Syntax(at)) => Err(Refusal::BadDocument(file, DocumentFault::Syntax(at))),
        Err(JsonFault::TooDeep(at)) => {
            Err(Refusal::BadDocument(file, DocumentFault::TooDeep(at)))
        }
        Err(JsonFault::OutOfMemory) => Err(Refusal::OutOfMemory),
    }
}

/// The refusal of a document whose fields aren't what they must be: `BadDocument`, `NotOffered`, or want of memory.
#[tactic(auto, using(crate::proofs::FileFaults::from_tree, crate::proofs::FileFaults::no_device))]
pub fn refusal_of_fields(file: NamedFile, fault: FieldFault) -> Refusal
    ensures value { result ≡ refusal_of_fields file fault }
    ensures no_device { is_of_device result ≡ false }
    ensures causes { IsTrue (is_of_tree result) }
{
    match fault {
        FieldFault::BadField(pointer) => {
            Refusal::BadDocument(file, DocumentFault::BadField(pointer))
        }
        FieldFault::NotOffered(pointer) => Refusal::NotOffered(file, pointer),
        FieldFault::ReservedName(name) => {
            Refusal::BadDocument(file, DocumentFault::ReservedName(name))
        }
        FieldFault::OutOfMemory => Refusal::OutOfMemory,
    }
}
