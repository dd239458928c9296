//! The lines that tell which packages are installed.

ghost use Rattle.std.specs.Prelude.{◌≡◌, ◌++◌, OnOk};
ghost use Rattle.install_sources.specs.Lines.{package_label, package_line, package_lines};

use psr_routes::Placed;
use std::alloc::AllocError;

#[tactic(auto, unfolding(crate::specs::Lines::package_label))]
fn package_label() -> &'static [u8]
    ensures { result.now ≡ package_label }
{
    b"package "
}

/// Puts the line of a package: its name and its version as it is written.
fn put_package(lines: &mut Vec<u8>, member: &Placed) -> Result<(), AllocError>
    ensures { OnOk result (lines.new.items ≡ lines.old.items ++ package_line member.now) }
{
    lines.extend_from_slice(package_label())?;
    lines.extend_from_slice(member.package.name.as_slice())?;
    lines.push(b' ')?;
    lines.extend_from_slice(member.package.version_text.as_slice())?;
    lines.push(b'\n')?;
    Ok(())
}

/// Puts a line `package NAME VERSION` for each package, in their order, the version as it is written. Its one refusal is want of
/// memory.
pub fn put_packages(lines: &mut Vec<u8>, members: &[Placed]) -> Result<(), AllocError>
    ensures { OnOk result (lines.new.items ≡ lines.old.items ++ package_lines members.now) }
{
    for member in members {
        put_package(lines, member)?;
    }
    Ok(())
}
