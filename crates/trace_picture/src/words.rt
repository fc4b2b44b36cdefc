//! Words: what is written beside a sign, below a column, or anywhere else in a picture.

use crate::room::{WHOLE, number_width, text_width, write_bytes, write_number};
use std::alloc::AllocError;
use usb_model::Errand;
use usb_model::limits::MOST_PLACES;

/// Words. Texts are this crate's own, without the characters that XML reserves.
#[derive(Clone, Copy)]
pub enum Words {
    /// A text.
    Text(&'static str),
    /// A number, and what stands before and behind it.
    Numbered(&'static str, u64, &'static str),
    /// The number of a handle, and that of something of it: `h1 0`.
    OfHandle(u8, u64),
    /// The number of a handle, and that of a transfer of it: `h1 #0`.
    Transfer(u8, u64),
    /// The number of a handle, and the address of an endpoint: `h1 81`.
    HandleEndpoint(u8, u8),
    /// The number of a device, and the address of an endpoint of it: `0:81`.
    Endpoint(u8, u8),
    /// So many bytes.
    Bytes(u64),
    /// How many places of an endpoint are taken.
    Places(u64),
    /// An errand, and the address of its endpoint: `stop 81`.
    Errand(Errand, u8),
}

impl Words {
    /// A number alone.
    pub fn number(n: u64) -> Words {
        Words::Numbered("", n, "")
    }

    /// The number of a transfer.
    pub fn transfer(n: u64) -> Words {
        Words::Numbered("#", n, "")
    }

    /// So many bytes.
    pub fn bytes(count: u64) -> Words {
        Words::Bytes(count)
    }

    /// The name of a handle.
    pub fn handle(h: u8) -> Words {
        Words::Numbered("h", u64::from(h), "")
    }

    /// Whether they say that no place of an endpoint is free.
    pub fn is_full(self) -> bool {
        match self {
            Words::Places(count) => count >= MOST_PLACES as u64,
            _ => false,
        }
    }

    /// Writes them behind a text, with all digits.
    pub fn write(self, text: &mut String) -> Result<(), AllocError> {
        self.write_in(WHOLE, text)
    }

    /// Writes them behind a text, in a room of this width: of a number that is too long for it two dots and the last digits, of bytes
    /// the thousands.
    pub fn write_in(self, room: u64, text: &mut String) -> Result<(), AllocError> {
        match self {
            Words::Text(words) => text.push_str(words),
            Words::Numbered(before, n, behind) => {
                text.push_str(before)?;
                let room = room
                    .saturating_sub(text_width(before))
                    .saturating_sub(text_width(behind));
                write_number(text, n, room)?;
                text.push_str(behind)
            }
            Words::OfHandle(h, n) => write!(text, "h{h} {n}"),
            Words::Transfer(h, n) => {
                write!(text, "h{h} #")?;
                let before = number_width(u64::from(h)).saturating_add(text_width("h #"));
                write_number(text, n, room.saturating_sub(before))
            }
            Words::Bytes(count) => write_bytes(text, count, room),
            Words::HandleEndpoint(h, ep) => write!(text, "h{h} {ep:02x}"),
            Words::Endpoint(device, ep) => write!(text, "{device}:{ep:02x}"),
            Words::Places(count) => write!(text, "{count}"),
            Words::Errand(errand, ep) => write!(text, "{errand} {ep:02x}"),
        }
    }
}
