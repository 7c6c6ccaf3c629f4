//! Prints bytes as printable ASCII.
ghost use Rattle.std.specs.Prelude.{◌≡◌, ◌++◌, ◌<◌, OnOk, string_bytes};
ghost use Rattle.cadence_cli.specs.Escapes.{escaped_byte, escaped_bytes, hex_digit, text_line};

use std::alloc::{AllocError, Allocator};

// Returns the character of a digit from 0 to 15.
fn hex_digit(digit: u8) -> char
    requires { digit < 16 }
    ensures { result ≡ hex_digit digit }
{
    char::from(if digit < 10 {
        b'0' + digit
    } else {
        b'a' - 10 + digit
    })
}

fn push_byte<A: Allocator>(out: &mut String<A>, byte: u8) -> Result<(), AllocError>
    ensures { OnOk result (string_bytes out.new ≡ string_bytes out.old ++ escaped_byte byte) }
{
    match byte {
        b'\\' => out.push_str("\\\\"),
        b'\n' => out.push_str("\\n"),
        b' '..=b'~' => out.push(char::from(byte)),
        _ => {
            out.push_str("\\x")?;
            out.push(hex_digit(byte / 16))?;
            out.push(hex_digit(byte % 16))
        }
    }
}

/// Adds the bytes as printable ASCII: a backslash becomes two, a newline becomes `\n`, other printable bytes stay, and
/// every other byte becomes `\x` and two lower-case hexadecimal digits.
///
/// # Errors
/// `AllocError`. A part of the bytes may be added then.
pub fn push_bytes<A: Allocator>(out: &mut String<A>, bytes: &[u8]) -> Result<(), AllocError>
    ensures { OnOk result (string_bytes out.new ≡ string_bytes out.old ++ escaped_bytes bytes.now) }
{
    for byte in bytes {
        push_byte(out, *byte)?;
    }
    Ok(())
}

/// Adds a line with the label, a space and the number of bytes. If there are bytes, a space and the escaped bytes
/// follow.
///
/// # Errors
/// `AllocError`. A part of the line may be added then.
pub fn push_text<A: Allocator>(
    out: &mut String<A>,
    label: &str,
    bytes: &[u8],
) -> Result<(), AllocError>
    ensures { OnOk result
        (string_bytes out.new ≡ string_bytes out.old ++ text_line label.now bytes.now) }
{
    let length = bytes.len();
    write!(out, "{label} {length}")?;
    if !bytes.is_empty() {
        out.push(' ')?;
        push_bytes(out, bytes)?;
    }
    out.push('\n')
}
