//! Ids: MD5 in hexadecimal digits.

ghost use Rattle.std.specs.Prelude.{◌≡◌, IfOk};
ghost use Rattle.json_ordered.specs.JsonTree.{HasUtf8Texts};
ghost use Rattle.json_ordered.specs.Docs.{tree_of};
ghost use Rattle.content_hash.specs.HashedText.{hashed_text_of};
ghost use Rattle.content_hash.specs.Ids.{id_of};

use crate::text::hashed_text;
use json_ordered::Doc;
use md5::{Digest, Md5};
use std::alloc::{AllocError, Global};

/// The id of a text of any bytes: the 32 lower-case hexadecimal digits of its MD5 (RFC 1321). It never
/// refuses, and takes no memory.
pub fn text_id(text: &[u8]) -> [u8; 32]
    ensures { result ≡ id_of text.now }
{
    let digest = Md5::digest(text);
    let mut id = [0u8; 32];
    match hex::encode_to_slice(digest.as_slice(), &mut id) {
        Ok(()) => id,
        Err(_) => unreachable!(),
    }
}

/// The content hash of a manifest, by which a lock knows the composer.json that it was made for: the id
/// of its [`hashed_text`]. Names and strings have to be UTF-8, as those of what `json_ordered::read`
/// gives are. It is the `content-hash` that Composer 2 writes, where each number is spelled as PHP
/// prints it.
///
/// Its one refusal is want of memory.
pub fn content_hash(alloc: Global, doc: &Doc) -> Result<[u8; 32], AllocError>
    requires { HasUtf8Texts (tree_of doc.now) }
    ensures { IfOk result (λ hash. hash ≡ id_of (hashed_text_of (tree_of doc.now))) }
{
    let text = hashed_text(alloc, doc)?;
    Ok(text_id(text.as_slice()))
}
