//! The last lines of a command that writes tables.

ghost use Rattle.std.specs.Prelude.{◌≡◌, ◌++◌, OnOk};
ghost use Rattle.table_files.specs.Counts.{classes_label, count_line, counts_lines, generation_label};

use path_name::push_number;
use std::alloc::AllocError;
use table_scan::Tables;

#[tactic(auto, unfolding(crate::specs::Counts::classes_label))]
fn classes_label() -> &'static [u8]
    ensures { result.now ≡ classes_label }
{
    b"classes "
}

#[tactic(auto, unfolding(crate::specs::Counts::generation_label))]
fn generation_label() -> &'static [u8]
    ensures { result.now ≡ generation_label }
{
    b"generation "
}

/// Puts a label and a number as a line.
fn put_count(lines: &mut Vec<u8>, label: &[u8], number: u64) -> Result<(), AllocError>
    ensures { OnOk result (lines.new.items ≡ lines.old.items ++ count_line label.now number) }
{
    lines.extend_from_slice(label)?;
    push_number(lines, number)?;
    lines.push(b'\n')?;
    Ok(())
}

/// Puts how many classes the class map has, and the generation, each with its label in a line of its own. Its one refusal is
/// want of memory.
pub fn put_counts(lines: &mut Vec<u8>, tables: &Tables, generation: u64) -> Result<(), AllocError>
    ensures { OnOk result (lines.new.items ≡ lines.old.items ++ counts_lines tables.now generation) }
{
    let classes = tables.class_map.as_slice().len() as u64;
    put_count(lines, classes_label(), classes)?;
    put_count(lines, generation_label(), generation)
}
