//! JSON pointers (RFC 6901), and the faults at them.

ghost use Rattle.std.specs.Prelude.{◌≡◌, ◌≢◌, ◌++◌, ◌∷◌, IfOk, OnOk};
ghost use Rattle.manifest_read.specs.Pointers.{escaped_byte, escaped, below};
ghost use Rattle.manifest_read.specs.declared.fault.FieldFault.TheVariants.{BadField, NotOffered, OutOfMemory};

use crate::fault::FieldFault;
use path_name::Text;
use std::alloc::{AllocError, Global};

fn push_escaped(pointer: &mut Vec<u8>, byte: u8) -> Result<(), AllocError>
    ensures { OnOk result (pointer.new.items ≡ pointer.old.items ++ escaped_byte byte) }
{
    match byte {
        b'~' => pointer.extend_from_slice(b"~0"),
        b'/' => pointer.extend_from_slice(b"~1"),
        _ => pointer.extend_from_slice(&[byte]),
    }
}

fn push_token(pointer: &mut Vec<u8>, token: &[u8]) -> Result<(), AllocError>
    ensures { OnOk result (pointer.new.items ≡ pointer.old.items ++ escaped token.now) }
{
    for byte in token {
        push_escaped(pointer, *byte)?;
    }
    Ok(())
}

/// The pointer of the value that has a name in the object, or a number in the array, at a pointer.
#[tactic(auto, unfolding(crate::specs::Pointers::below))]
pub fn below(alloc: Global, at: &[u8], token: &[u8]) -> Result<Vec<u8>, AllocError>
    ensures { IfOk result (λ pointer. pointer.items ≡ below at.now token.now) }
{
    let mut pointer = Vec::with_capacity(alloc, at.len().saturating_add(token.len()))?;
    pointer.extend_from_slice(at)?;
    pointer.extend_from_slice(b"/")?;
    push_token(&mut pointer, token)?;
    Ok(pointer)
}

/// The value there has another form than is asked for.
pub fn bad_field(alloc: Global, at: &[u8], token: &[u8]) -> FieldFault
    ensures { result ≢ OutOfMemory → result ≡ BadField (below at.now token.now) }
{
    match below(alloc, at, token) {
        Ok(pointer) => FieldFault::BadField(Text::of(pointer)),
        Err(_) => FieldFault::OutOfMemory,
    }
}

/// What is written there isn't offered.
pub fn not_offered(alloc: Global, at: &[u8], token: &[u8]) -> FieldFault
    ensures { result ≢ OutOfMemory → result ≡ NotOffered (below at.now token.now) }
{
    match below(alloc, at, token) {
        Ok(pointer) => FieldFault::NotOffered(Text::of(pointer)),
        Err(_) => FieldFault::OutOfMemory,
    }
}

/// The value at a pointer itself has another form than is asked for.
pub fn bad_value(alloc: Global, at: &[u8]) -> FieldFault
    ensures { result ≢ OutOfMemory → result ≡ BadField at.now }
{
    match Vec::from_slice(alloc, at) {
        Ok(pointer) => FieldFault::BadField(Text::of(pointer)),
        Err(_) => FieldFault::OutOfMemory,
    }
}
