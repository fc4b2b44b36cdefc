//! Bytes in printed lines.

use std::fmt;

/// Bytes as two hexadecimal digits each, or a dash where there are none.
#[derive(Clone, Copy)]
pub struct Digits<'a>(pub &'a [u8]);

impl fmt::Display for Digits<'_> {
    fn fmt<W: fmt::Write>(&self, f: &mut fmt::Formatter<W>) -> fmt::Result {
        let bytes = self.0;
        if bytes.is_empty() {
            return f.write_str("-");
        }
        for byte in bytes {
            let value = *byte;
            write!(f, "{value:02x}")?;
        }
        Ok(())
    }
}
