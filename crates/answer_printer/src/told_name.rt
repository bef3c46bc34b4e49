//! The printed form of a file's name.
ghost use Rattle.std.specs.Prelude.{◌≡◌, ◌<◌, ◌++◌, ◌∷◌, false, OnOk};
ghost use Rattle.std.specs.Fmt.{digit_glyph};
ghost use Rattle.answer_printer.specs.ToldName.{told_byte, told_name};

use std::alloc::AllocError;

/// Appends a space and the name of a file to `line`. Each ASCII control character is printed as
/// `\x` and two hexadecimal digits, so that any name stays on one line.
pub fn push_name(line: &mut Vec<u8>, name: &str) -> Result<(), AllocError>
    ensures { OnOk result (line.new.items ≡ line.old.items ++ 32 ∷ told_name name.now) }
{
    line.push(b' ')?;
    for byte in name.as_bytes() {
        push_byte(line, *byte)?;
    }
    Ok(())
}

// Appends one byte of a name: a control character as `\x` and its digits, any other byte as it is.
fn push_byte(line: &mut Vec<u8>, byte: u8) -> Result<(), AllocError>
    ensures { OnOk result (line.new.items ≡ line.old.items ++ told_byte byte) }
{
    if byte.is_ascii_control() {
        line.extend_from_slice(b"\\x")?;
        line.push(hexadecimal_digit(byte / 16))?;
        line.push(hexadecimal_digit(byte % 16))?;
    } else {
        line.push(byte)?;
    }
    Ok(())
}

// Returns the hexadecimal digit of a value, in lower case.
fn hexadecimal_digit(value: u8) -> u8
    requires { value < 16 }
    ensures { result ≡ digit_glyph false value }
{
    if value < 10 {
        b'0' + value
    } else {
        b'a' - 10 + value
    }
}
