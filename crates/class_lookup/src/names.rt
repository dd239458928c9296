//! Class names.

ghost use Rattle.std.specs.Prelude.{◌≡◌, IfOk, IsErrOf};
ghost use Rattle.path_name.specs.Given.{GivesValue};
ghost use Rattle.class_paths.specs.ClassNames.{IsClassName};
ghost use Rattle.class_lookup.specs.ClassNames.{without_lead, class_name_of};
ghost use Rattle.class_lookup.specs.declared.fault.LookupFault.TheVariants as faults;
ghost use Rattle.class_lookup.specs.declared.fault.LookupFault.TheVariants.{OutOfMemory};

use crate::fault::LookupFault;
use class_paths::is_class_name;
use path_name::Name;
use std::alloc::Global;

/// What may stand before a class name, and stands between its parts.
const SEPARATOR: u8 = b'\\';

/// The class that a text names (the PHP manual, "Namespaces overview"): identifiers joined by `\`, in UTF-8. One
/// leading `\` is cut. `BadName` comes exactly where the rest is no class name.
#[tactic(auto, unfolding(crate::specs::ClassNames::class_name_of))]
pub fn class_name(alloc: Global, text: &[u8]) -> Result<Name, LookupFault>
    ensures exact { GivesValue OutOfMemory (class_name_of text.now) result }
    ensures named { IfOk result (λ name. IsClassName name) }
    ensures no_device { IsErrOf result faults.DeviceFault → ⊥ }
{
    let name = without_lead(text);
    if !is_class_name(name) {
        return Err(LookupFault::BadName);
    }
    Ok(Name::of(Vec::from_slice(alloc, name)?))
}

fn without_lead(text: &[u8]) -> &[u8]
    ensures { result.now ≡ without_lead text.now }
{
    match text {
        [] => text,
        [first, rest @ ..] => { if *first == SEPARATOR { rest } else { text } }
    }
}
