//! The folders of packages in a project.

ghost use Rattle.std.specs.Prelude.{◌≡◌, true, ◌∷◌, [], IfOk, IsOk, Ok};
ghost use Rattle.path_name.specs.Paths.{path_of};
ghost use Rattle.manifest_read.specs.Names.{is_package_name, project_of, vendor_of};
ghost use Rattle.tree_dev.specs.Projects.{vendor_path};
ghost use Rattle.install_sources.specs.Folders.{package_place};

use path_name::{Name, Path, PathFault};
use std::alloc::{AllocError, Global};

/// The path of a text that names one.
fn named_path(alloc: Global, text: &[u8]) -> Result<Path, AllocError>
    requires { IsOk (path_of text.now) }
    ensures { IfOk result (λ path. path_of text.now ≡ Ok path) }
{
    match Path::read(alloc, text) {
        Ok(path) => Ok(path),
        Err(PathFault::OutOfMemory) => Err(AllocError),
        Err(PathFault::BadSegment(_)) => unreachable!(),
        Err(PathFault::AboveRoot(_)) => unreachable!(),
    }
}

/// The path of a package's name, which has two segments.
fn name_path(alloc: Global, name: &Name) -> Result<Path, AllocError>
    requires { is_package_name name.now ≡ true }
    ensures { IfOk result (λ path. path ≡ vendor_of name.now ∷ project_of name.now ∷ []) }
{
    named_path(alloc, name.as_slice())
}

/// The folder `vendor` of a project. Its one refusal is want of memory.
pub fn vendor_folder(alloc: Global, project: &Path) -> Result<Path, AllocError>
    ensures { IfOk result (λ path. path ≡ vendor_path project.now) }
{
    project.child(alloc, b"vendor")
}

/// The folder of the package of a name in a project: `vendor/NAME`. Its one refusal is want of memory.
pub fn package_folder(alloc: Global, project: &Path, name: &Name) -> Result<Path, AllocError>
    requires { is_package_name name.now ≡ true }
    ensures { IfOk result (λ path. path ≡ package_place project.now name.now) }
{
    let vendor = vendor_folder(alloc, project)?;
    vendor.join(alloc, &name_path(alloc, name)?)
}
