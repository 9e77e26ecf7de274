// Patterns and codes as hexadecimal text; a dash stands for no bytes.
use anyhow::anyhow;
use std::alloc::Global;
use std::fmt;

// The kit's `hex` takes small letters too and tells want of memory in words of its own, and the text would be gone over twice.
fn value_of(digit: u8) -> Option<u8> {
    match digit {
        b'0'..=b'9' => Some(digit - b'0'),
        b'A'..=b'F' => Some(digit - b'A' + 10),
        _ => None,
    }
}

// The bytes that two capital digits each tell.
pub(crate) fn bytes_of(heap: Global, text: &str) -> anyhow::Result<Vec<u8>> {
    let mut bytes = Vec::new(heap);
    if text == "-" {
        return Ok(bytes);
    }
    let mut digits = text.bytes();
    while let Some(first) = digits.next() {
        let Some(high) = value_of(first) else {
            return Err(anyhow!("a digit is not hexadecimal"));
        };
        let Some(second) = digits.next() else {
            return Err(anyhow!("a byte has two digits"));
        };
        let Some(low) = value_of(second) else {
            return Err(anyhow!("a digit is not hexadecimal"));
        };
        bytes.push(high.wrapping_mul(16) | low)?;
    }
    Ok(bytes)
}

// Bytes that are printed so.
#[derive(Clone, Copy)]
pub(crate) struct Hex<'a>(pub &'a [u8]);

impl fmt::Display for Hex<'_> {
    fn fmt<W: fmt::Write>(&self, f: &mut fmt::Formatter<W>) -> fmt::Result {
        if self.0.is_empty() {
            return f.write_str("-");
        }
        for byte in self.0 {
            write!(f, "{byte:02X}")?;
        }
        Ok(())
    }
}
