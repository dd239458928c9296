//! The text of the state.

ghost use Rattle.std.specs.Prelude.{◌≡◌, ◌++◌, ◌<◌, ◌^◌, IfOk, OnOk};
ghost use Rattle.path_name.specs.Decimals.{decimal_text};
ghost use Rattle.table_scan.specs.TableGrammar.{IsState, mode_text, mode_key, generation_key};
ghost use Rattle.table_scan.specs.TableFaults.{IsTextOf};
ghost use Rattle.table_scan.specs.QuotedTexts.{quoted};
ghost use Rattle.table_print.specs.TablePrinting.{row_text, state_text};

use crate::parts::{Part, add, add_opening};
use crate::quoted::add_closed;
use crate::rows::add_key;
use path_name::{Text, push_number};
use std::alloc::{AllocError, Global};
use table_scan::{Mode, State, TableFile};

fn mode_text(mode: Mode) -> &'static [u8]
    ensures { result.now ≡ mode_text mode }
{
    match mode {
        Mode::Plain => b"plain",
        Mode::Optimised => b"optimised",
        Mode::Authoritative => b"authoritative",
    }
}

fn mode_key() -> &'static [u8]
    ensures { result.now ≡ mode_key }
{
    b"mode"
}

fn generation_key() -> &'static [u8]
    ensures { result.now ≡ generation_key }
{
    b"generation"
}

/// Adds the row of the mode.
fn add_mode(out: &mut Vec<u8>, mode: Mode) -> Result<(), AllocError>
    ensures { OnOk result (out.new.items ≡ out.old.items ++ row_text mode_key (quoted (mode_text mode))) }
{
    add_key(out, mode_key())?;
    out.push(b'\'')?;
    add_closed(out, mode_text(mode))?;
    add(out, Part::RowEnd)
}

/// Adds the row of the generation.
fn add_generation(out: &mut Vec<u8>, generation: u64) -> Result<(), AllocError>
    ensures { OnOk result (out.new.items ≡ out.old.items ++ row_text generation_key (decimal_text generation)) }
{
    add_key(out, generation_key())?;
    push_number(out, generation)?;
    add(out, Part::RowEnd)
}

/// The bytes of a state's text.
fn state_bytes(alloc: Global, mode: Mode, generation: u64) -> Result<Text, AllocError>
    ensures text { IfOk result (λ text. text ≡ state_text (record { mode = mode; generation = generation })) }
    ensures small { generation < 2 ^ 64 }
{
    let mut out = Vec::new(alloc);
    add_opening(&mut out, TableFile::State)?;
    add(&mut out, Part::Array)?;
    add_mode(&mut out, mode)?;
    add_generation(&mut out, generation)?;
    add(&mut out, Part::End)?;
    Ok(Text::of(out))
}

/// The text of `autoload_state.php`. Its one refusal is want of memory.
pub fn state_text(alloc: Global, state: State) -> Result<Text, AllocError>
    ensures text { IfOk result (λ text. text ≡ state_text state) }
    ensures read { IfOk result (λ text. IsTextOf IsState text state) }
{
    Ok(state_bytes(alloc, state.mode, state.generation)?)
}
