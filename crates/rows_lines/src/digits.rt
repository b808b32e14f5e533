//! Bytes as hexadecimal digits, two a byte.
ghost use Rattle.std.specs.Prelude.{◌<◌};

use std::alloc::{AllocError, Global};

/// The bytes that these digits write.
pub(crate) fn bytes_of(alloc: Global, digits: &str) -> Result<Vec<u8>, AllocError> {
    let mut bytes = Vec::new(alloc);
    let mut high = None;
    for digit in digits.as_bytes() {
        let value = value_of(*digit);
        high = match high {
            None => Some(value),
            Some(high) => {
                bytes.push(high << 4 | value)?;
                None
            }
        };
    }
    Ok(bytes)
}

/// The number that a digit writes.
fn value_of(digit: u8) -> u8 {
    match digit {
        b'0'..=b'9' => digit - b'0',
        b'a'..=b'f' => digit - b'a' + 10,
        _ => 0,
    }
}

/// Puts the digits of the bytes, and the end of a line where there are any, after what is there.
pub(crate) fn push_digits(said: &mut Vec<u8>, bytes: &[u8]) -> Result<(), AllocError> {
    for byte in bytes {
        said.push(digit(*byte / 16))?;
        said.push(digit(*byte % 16))?;
    }
    if !bytes.is_empty() {
        said.push(b'\n')?;
    }
    Ok(())
}

/// The digit that writes a number.
fn digit(number: u8) -> u8
    requires { number < 16 }
{
    if number < 10 {
        b'0' + number
    } else {
        b'a' - 10 + number
    }
}
