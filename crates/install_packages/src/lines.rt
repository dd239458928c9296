//! The lines that an install ends with.

ghost use Rattle.std.specs.Prelude.{◌≡◌, IfOk};
ghost use Rattle.install_packages.specs.Installing.{install_lines};

use install_sources::put_packages;
use path_name::Text;
use psr_routes::Placed;
use std::alloc::{AllocError, Global};
use table_files::put_counts;
use table_scan::Tables;

/// The lines of an install: one for each package in their order, and the counts. Its one refusal is want of memory.
#[tactic(auto, unfolding(crate::specs::Installing::install_lines))]
pub fn install_lines(
    alloc: Global,
    members: &[Placed],
    tables: &Tables,
    generation: u64,
) -> Result<Text, AllocError>
    ensures { IfOk result (λ lines. lines ≡ install_lines members.now tables.now generation) }
{
    let mut lines = Vec::new(alloc);
    put_packages(&mut lines, members)?;
    put_counts(&mut lines, tables, generation)?;
    Ok(Text::of(lines))
}
