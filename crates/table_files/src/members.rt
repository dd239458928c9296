//! The packages of a project in their places.

ghost use Rattle.std.specs.Prelude.{◌≡◌, true, IfOk};
ghost use Rattle.std.specs.List.{AllByRecursion};
ghost use Rattle.manifest_read.specs.Names.{is_package_name};
ghost use Rattle.manifest_read.specs.WellFormed.{IsMember};
ghost use Rattle.table_files.specs.Members.{in_place, members_in_place};

use install_sources::package_folder;
use manifest_read::Package;
use path_name::{Items, Path};
use psr_routes::Placed;
use std::alloc::{AllocError, Global};

/// A package that stands in its folder.
fn in_place(alloc: Global, project: &Path, party: Package) -> Result<Placed, AllocError>
    requires { is_package_name party.name ≡ true }
    ensures { IfOk result (λ placed. placed ≡ in_place project.now party) }
{
    let at = package_folder(alloc, project, &party.name)?;
    let shown = at.copy(alloc)?;
    Ok(Placed {
        package: party,
        at,
        shown,
        mirrored: false,
    })
}

/// The packages that are installed in a project, each in its folder `vendor/NAME`, in their order. Its one refusal is want of
/// memory.
pub fn members_in_place(
    alloc: Global,
    project: &Path,
    packages: Items<Package>,
) -> Result<Items<Placed>, AllocError>
    requires { AllByRecursion IsMember packages }
    ensures { IfOk result (λ members. members ≡ members_in_place project.now packages) }
{
    let packages = packages.into_vec();
    let mut members = Vec::with_capacity(alloc, packages.len())?;
    for party in packages {
        members.push(in_place(alloc, project, party)?)?;
    }
    Ok(Items::of(members))
}
