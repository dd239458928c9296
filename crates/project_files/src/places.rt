//! Where the files of a project stand.

ghost use Rattle.std.specs.Prelude.{◌≡◌, ◌++◌, [], ◌∷◌, IfOk, IsOk, Ok, codes};
ghost use Rattle.path_name.specs.Paths.{path_of};
ghost use Rattle.table_scan.specs.TableGrammar.{vendor_name};
ghost use Rattle.table_scan.specs.TableNames.{table_name};
ghost use Rattle.tree_dev.specs.Projects.{journal_path, lock_path};
ghost use Rattle.project_files.specs.Places.{composer_name, table_place, manifest_place, composer_place, installed_place, autoloader_place};

use path_name::{Path, PathFault};
use std::alloc::{AllocError, Global};
use table_scan::TableFile;

/// Where a table file of the project stands. Its one refusal is want of memory.
pub fn table_file(alloc: Global, project: &Path, table: TableFile) -> Result<Path, AllocError>
    ensures { IfOk result (λ path. path ≡ table_place project.now table) }
{
    project.join(alloc, &known_path(alloc, table_text(table))?)
}

/// Where the journal of an install stands. Its one refusal is want of memory.
pub fn journal(alloc: Global, project: &Path) -> Result<Path, AllocError>
    ensures { IfOk result (λ path. path ≡ journal_path project.now) }
{
    project.join(alloc, &known_path(alloc, journal_text())?)
}

/// Where the manifest of the project stands. Its one refusal is want of memory.
pub fn manifest(alloc: Global, project: &Path) -> Result<Path, AllocError>
    ensures { IfOk result (λ path. path ≡ manifest_place project.now) }
{
    project.child(alloc, b"composer.json")
}

/// Where the lock of the project stands. Its one refusal is want of memory.
pub fn lock(alloc: Global, project: &Path) -> Result<Path, AllocError>
    ensures { IfOk result (λ path. path ≡ lock_path project.now) }
{
    project.child(alloc, b"composer.lock")
}

/// Where the folder `vendor/composer` of the project stands. Its one refusal is want of memory.
pub fn composer_folder(alloc: Global, project: &Path) -> Result<Path, AllocError>
    ensures { IfOk result (λ path. path ≡ composer_place project.now) }
{
    project.join(alloc, &known_path(alloc, composer_text())?)
}

/// Where the project's list of what is installed stands. Its one refusal is want of memory.
pub fn installed(alloc: Global, project: &Path) -> Result<Path, AllocError>
    ensures { IfOk result (λ path. path ≡ installed_place project.now) }
{
    project.join(alloc, &known_path(alloc, installed_text())?)
}

/// Where the autoloader of the project stands. Its one refusal is want of memory.
pub fn autoloader(alloc: Global, project: &Path) -> Result<Path, AllocError>
    ensures { IfOk result (λ path. path ≡ autoloader_place project.now) }
{
    project.join(alloc, &known_path(alloc, autoloader_text())?)
}

/// The path of a text that names one.
fn known_path(alloc: Global, text: &[u8]) -> Result<Path, AllocError>
    requires { IsOk (path_of text.now) }
    ensures { IfOk result (λ path. path_of text.now ≡ Ok path) }
{
    match Path::read(alloc, text) {
        Ok(path) => Ok(path),
        Err(PathFault::OutOfMemory) => Err(AllocError),
        Err(PathFault::BadSegment(_)) => unreachable!(),
        Err(PathFault::AboveRoot(_)) => unreachable!(),
    }
}

fn table_text(table: TableFile) -> &'static [u8]
    ensures { path_of result.now ≡ Ok (vendor_name ∷ composer_name ∷ table_name table ∷ []) }
{
    match table {
        TableFile::Psr4 => b"vendor/composer/autoload_psr4.php",
        TableFile::Psr0 => b"vendor/composer/autoload_namespaces.php",
        TableFile::ClassMap => b"vendor/composer/autoload_classmap.php",
        TableFile::Files => b"vendor/composer/autoload_files.php",
        TableFile::State => b"vendor/composer/autoload_state.php",
    }
}

fn journal_text() -> &'static [u8]
    ensures { path_of result.now ≡ Ok (codes ".install" ∷ codes "journal" ∷ []) }
{
    b".install/journal"
}

fn composer_text() -> &'static [u8]
    ensures { path_of result.now ≡ Ok (vendor_name ∷ composer_name ∷ []) }
{
    b"vendor/composer"
}

fn installed_text() -> &'static [u8]
    ensures { path_of result.now ≡ Ok (vendor_name ∷ composer_name ∷ codes "installed.json" ∷ []) }
{
    b"vendor/composer/installed.json"
}

fn autoloader_text() -> &'static [u8]
    ensures { path_of result.now ≡ Ok (vendor_name ∷ codes "autoload.php" ∷ []) }
{
    b"vendor/autoload.php"
}
