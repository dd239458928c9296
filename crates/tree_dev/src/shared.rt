//! Bytes that are kept once for several owners.

ghost use Rattle.std.specs.Prelude.{◌≡◌, IfOk};

use path_name::Text;
use std::alloc::{AllocError, Global};
use std::marker::Model;
use std::rc::Rc;

/// Bytes that are kept once, however many own them. A contract sees the bytes.
#[derive(Debug, Drop)]
pub struct SharedText {
    text: Rc<Text>,
}

impl Model for SharedText {
    ghost use Rattle.std.specs.Prelude.{List, ℕ};

    ghost Value = { List ℕ };

    ghost view = { λ shared. shared.text.value };
}

impl SharedText {
    /// Takes a text over. Its one refusal is want of memory.
    pub fn of(alloc: Global, text: Text) -> Result<SharedText, AllocError>
        ensures { IfOk result (λ shared. shared ≡ text) }
    {
        Ok(SharedText {
            text: Rc::new(alloc, text)?,
        })
    }

    /// The bytes.
    pub fn as_slice(&self) -> &[u8]
        ensures { result.now ≡ self.now }
    {
        self.text.as_slice()
    }

    /// Another owner of the same bytes. Its one refusal is want of memory.
    pub fn share(&self) -> Result<SharedText, AllocError>
        ensures { IfOk result (λ shared. shared ≡ self.now) }
    {
        Ok(SharedText {
            text: self.text.clone()?,
        })
    }
}
