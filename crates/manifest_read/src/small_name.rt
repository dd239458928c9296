//! Names as they are compared: in small letters, without a copy of them.

ghost use Rattle.std.specs.Prelude.{◌≡◌, false};
ghost use Rattle.std.proofs.Common.{refl};
ghost use Rattle.std.specs.Cmp.{partial_equiv_from_equiv};
ghost use Rattle.std.specs.Ordering.{as_partial_cmp};
ghost use Rattle.path_name.specs.Bytes.{lowered};
ghost use Rattle.path_name.specs.Orders.{byte_cmp, bytes_are_equal, byte_cmp_total, byte_equality, byte_order, byte_ties};

use std::cmp::Ordering;
use std::marker::Model;

/// The order of two texts in small letters, byte by byte, a prefix first.
fn compare_lowered(a: &[u8], b: &[u8]) -> Ordering
    ensures { result ≡ byte_cmp (lowered a.now) (lowered b.now) }
{
    let mut rest = b;
    for byte in a {
        let Some((other, after)) = rest.split_first() else {
            return Ordering::Greater;
        };
        match byte.to_ascii_lowercase().cmp(&other.to_ascii_lowercase()) {
            Ordering::Less => return Ordering::Less,
            Ordering::Equal => rest = after,
            Ordering::Greater => return Ordering::Greater,
        }
    }
    if rest.is_empty() {
        Ordering::Equal
    } else {
        Ordering::Less
    }
}

/// Whether a letter of a text is a capital. Without one it is in small letters.
fn has_capitals(text: &[u8]) -> bool
    ensures { result ≡ false → lowered text.now ≡ text.now }
{
    for byte in text {
        if byte.is_ascii_uppercase() {
            return true;
        }
    }
    false
}

/// A name that is compared in small letters. A contract sees these.
#[derive(Drop)]
pub(crate) struct SmallName<'a> {
    written: &'a [u8],
    has_capitals: bool,
}

impl<'a> Model for SmallName<'a> {
    ghost use Rattle.std.specs.Prelude.{◌≡◌, List, ℕ, false};
    ghost use Rattle.path_name.specs.Bytes.{lowered};

    ghost Value = { List ℕ };

    ghost view = { λ name. lowered name.written.now };

    ghost invariant = { λ name. name.has_capitals ≡ false → lowered name.written.now ≡ name.written.now };
}

impl<'a> SmallName<'a> {
    /// The name that is written so.
    pub fn of(written: &'a [u8]) -> SmallName<'a>
        ensures { result ≡ lowered written.now }
    {
        SmallName {
            written,
            has_capitals: has_capitals(written),
        }
    }
}

impl<'a> PartialEq for SmallName<'a> {
    ghost eq = { bytes_are_equal };

    ghost laws = { partial_equiv_from_equiv byte_equality };

    #[tactic(auto, using(path_name::specs::Orders::byte_ties))]
    fn eq(&self, other: &SmallName<'a>) -> bool {
        self.cmp(other) == Ordering::Equal
    }
}

impl<'a> Eq for SmallName<'a> {
    ghost laws = { byte_equality };
}

impl<'a> Ord for SmallName<'a> {
    ghost cmp = { byte_cmp };

    ghost total = { byte_cmp_total };

    ghost matches_partial_cmp = { λ a b. refl };

    ghost matches_eq = { byte_ties };

    // Mostly no letter is a capital, and then nothing has to be changed to be compared.
    fn cmp(&self, other: &SmallName<'a>) -> Ordering {
        if self.has_capitals || other.has_capitals {
            compare_lowered(self.written, other.written)
        } else {
            self.written.cmp(&other.written)
        }
    }
}

impl<'a> PartialOrd for SmallName<'a> {
    ghost partial_cmp = { as_partial_cmp byte_cmp };

    ghost laws = { byte_order };

    fn partial_cmp(&self, other: &SmallName<'a>) -> Option<Ordering> {
        Some(self.cmp(other))
    }
}
