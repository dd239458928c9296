//! The names of the table files.

ghost use Rattle.std.specs.Prelude.{◌≡◌};
ghost use Rattle.table_scan.specs.TableNames.{table_name};

use crate::types::TableFile;

/// A table file's name, as `autoload_psr4.php`. It stands in the project's `vendor/composer`.
#[tactic(auto, unfolding(crate::specs::TableNames::table_name))]
pub fn table_name(file: TableFile) -> &'static [u8]
    ensures { result.now ≡ table_name file }
{
    match file {
        TableFile::Psr4 => b"autoload_psr4.php",
        TableFile::Psr0 => b"autoload_namespaces.php",
        TableFile::ClassMap => b"autoload_classmap.php",
        TableFile::Files => b"autoload_files.php",
        TableFile::State => b"autoload_state.php",
    }
}
