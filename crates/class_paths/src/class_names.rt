//! Class names.

ghost use Rattle.std.specs.Prelude.{◌≡◌};
ghost use Rattle.std.specs.Str.{is_utf8};
ghost use Rattle.class_paths.specs.ClassNames.{is_name_part, is_class_name};

use path_name::is_identifier;

/// What stands between the parts of a class name.
const SEPARATOR: u8 = b'\\';

/// Whether a text is a class name, without a leading `\` (the PHP manual, "Namespaces overview"): identifiers joined by
/// `\`, in UTF-8.
pub fn is_class_name(text: &[u8]) -> bool
    ensures { result ≡ is_class_name text.now }
{
    text.split(|byte| *byte == SEPARATOR).all(is_name_part)
}

/// Whether a part is an identifier in UTF-8.
fn is_name_part(part: &[u8]) -> bool
    ensures { result ≡ is_name_part part.now }
{
    is_identifier(part) && is_text(part)
}

fn is_text(part: &[u8]) -> bool
    ensures { result ≡ is_utf8 part.now }
{
    std::str::from_utf8(part).is_ok()
}
