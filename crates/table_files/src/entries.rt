//! The entries that a command may list.

ghost use Rattle.std.specs.Prelude.{◌≡◌};
ghost use Rattle.tree_dev.specs.declared.limits.TheConstants.{ENTRIES};

use tree_dev::Entries;

/// So many entries as one command may list: 1,000,000.
pub fn all_entries() -> Entries
    ensures { result.left ≡ ENTRIES }
{
    Entries { left: 1_000_000 }
}
