//! Faults of reading the packages of repositories, as refusals.

ghost use Rattle.std.specs.Prelude.{◌≡◌};
ghost use Rattle.install_choice.specs.Refusals.{document_fault_of, refusal_of_pool};

use pkg_pool::{ManifestFault, PoolFault};
use run_answers::{DocumentFault, NamedFile, Place, Refusal};

/// What is wrong in the composer.json of a package.
fn document_fault_of(fault: ManifestFault) -> DocumentFault
    ensures { result ≡ document_fault_of fault }
{
    match fault {
        ManifestFault::NotUtf8(at) => DocumentFault::NotUtf8(at),
        ManifestFault::Syntax(at) => DocumentFault::Syntax(at),
        ManifestFault::TooDeep(at) => DocumentFault::TooDeep(at),
        ManifestFault::BadField(pointer) => DocumentFault::BadField(pointer),
        ManifestFault::ReservedName(name) => DocumentFault::ReservedName(name),
    }
}

/// Why the packages of repositories are not read.
pub fn refusal_of_pool(fault: PoolFault) -> Refusal
    ensures { result ≡ refusal_of_pool fault }
{
    match fault {
        PoolFault::MissingPath(text) => Refusal::MissingPath(text),
        PoolFault::BadManifest(at, fault) => {
            Refusal::BadDocument(NamedFile::Member(at), document_fault_of(fault))
        }
        PoolFault::NotOffered(at, pointer) => Refusal::NotOffered(NamedFile::Member(at), pointer),
        PoolFault::OtherEntry(at) => Refusal::OtherEntry(at),
        PoolFault::Limit(limit) => Refusal::Limit(limit),
        PoolFault::Vanished(at) => Refusal::Vanished(Place::Entry(at)),
        PoolFault::DeviceFault => Refusal::DeviceFault,
        PoolFault::OutOfMemory => Refusal::OutOfMemory,
    }
}
