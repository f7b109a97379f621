//! Names as words of a text.

ghost use Rattle.std.specs.Prelude.{◌≡◌, ◌++◌, ◌<◌, OnOk};
ghost use Rattle.values.specs.Printed.{printed_byte, printed_bytes, printed_name, upper_digit};

use crate::memory::Memory;

fn upper_digit_of(n: u8) -> u8
    requires { n < 16 }
    ensures { result ≡ upper_digit n }
{
    if n < 10 { b'0' + n } else { b'A' - 10 + n }
}

fn push_byte(text: &mut Vec<u8>, byte: u8) -> Result<(), Memory>
    ensures { OnOk result (text.new.items ≡ text.old.items ++ printed_byte byte) }
{
    if byte >= 33 && (byte <= 126 && byte != b'%') {
        text.push(byte)?;
    } else {
        text.push(b'%')?;
        text.push(upper_digit_of(byte / 16))?;
        text.push(upper_digit_of(byte % 16))?;
    }
    Ok(())
}

fn push_bytes(text: &mut Vec<u8>, bytes: &[u8]) -> Result<(), Memory>
    ensures { OnOk result (text.new.items ≡ text.old.items ++ printed_bytes bytes.now) }
{
    for byte in bytes {
        push_byte(text, *byte)?;
    }
    Ok(())
}

/// Adds a name, each byte that isn't plain as a percent sign and two digits.
pub(crate) fn push_name(text: &mut Vec<u8>, name: &[u8]) -> Result<(), Memory>
    ensures { OnOk result (text.new.items ≡ text.old.items ++ printed_name name.now) }
{
    if name.is_empty() {
        text.push(b'%')?;
    } else {
        push_bytes(text, name)?;
    }
    Ok(())
}
