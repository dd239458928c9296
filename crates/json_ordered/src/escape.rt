//! Escapes that both printed forms have.

ghost use Rattle.std.specs.Prelude.{◌≡◌, ◌<◌, ◌^◌, ◌++◌, OnOk};
ghost use Rattle.std.specs.Char.{digit_char};
ghost use Rattle.json_ordered.specs.JsonTexts.{unit_text, control_text};
ghost use Rattle.json_ordered.specs.JsonPrinting.{comma};

use std::alloc::AllocError;

// The digit of a value below 16, in lower case.
fn hex_digit(value: u16) -> u8
    requires { value < 16 }
    ensures { result ≡ digit_char value }
{
    if value < 10 {
        b'0' + value as u8
    } else {
        b'a' - 10 + value as u8
    }
}

/// Adds `\u` and the four digits of a 16-bit unit.
pub(crate) fn add_unit(out: &mut Vec<u8>, unit: u16) -> Result<(), AllocError>
    ensures { OnOk result (out.new.items ≡ out.old.items ++ unit_text unit) }
{
    let text = [
        b'\\',
        b'u',
        hex_digit(unit / 0x1000 % 16),
        hex_digit(unit / 0x100 % 16),
        hex_digit(unit / 0x10 % 16),
        hex_digit(unit / 1 % 16),
    ];
    out.extend_from_slice(&text)
}

/// Adds a byte below space.
pub(crate) fn add_control(out: &mut Vec<u8>, byte: u8) -> Result<(), AllocError>
    ensures { OnOk result (out.new.items ≡ out.old.items ++ control_text byte) }
{
    match byte {
        8 => out.extend_from_slice(b"\\b"),
        12 => out.extend_from_slice(b"\\f"),
        10 => out.extend_from_slice(b"\\n"),
        13 => out.extend_from_slice(b"\\r"),
        9 => out.extend_from_slice(b"\\t"),
        _ => add_unit(out, byte as u16),
    }
}

/// Adds what stands before an entry: a `,` before each but the first.
pub(crate) fn add_comma(out: &mut Vec<u8>, place: usize) -> Result<(), AllocError>
    ensures { OnOk result (out.new.items ≡ out.old.items ++ comma place) }
{
    if place > 0 {
        out.push(b',')?;
    }
    Ok(())
}
