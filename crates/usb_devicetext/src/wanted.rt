//! What a word of a line has to be.

ghost use Rattle.std.specs.Prelude.{◌≡◌, IfOk};
ghost use Rattle.usb_devicetext.specs.Wanted.{data_in, is_plain, is_read, is_wanted, is_write, wanted_text};

use crate::statement::whole;
use crate::word::{Speed, any_byte, any_word, index, word};
use std::alloc::{AllocError, Global};
use usb_model::Bytes;
use usb_scripttext::number::{address, bytes, decimal_u32, device, interface};
use usb_scripttext::{behind, with_times};

/// What a word of a line has to be.
#[derive(Clone, Copy, PartialEq, Eq, Debug)]
pub enum Wanted {
    /// The number of a device.
    Device,
    /// Bytes: pairs of hexadecimal digits.
    Bytes,
    /// The address of an endpoint.
    Address,
    /// Two hexadecimal digits.
    Byte,
    /// Four hexadecimal digits.
    Word,
    /// Two hexadecimal digits, or `*`.
    AnyByte,
    /// Four hexadecimal digits, or `*`.
    AnyWord,
    /// The index of a string.
    Index,
    /// A speed.
    Speed,
    /// A device descriptor, whole.
    Whole,
    /// A decimal number of 32 bits.
    Number,
    /// The number of an interface.
    Interface,
    /// An answer of an endpoint for IN.
    InAnswer,
    /// An answer of an endpoint for OUT.
    OutAnswer,
    /// An answer to a request that reads.
    ReadAnswer,
    /// An answer to a request that writes.
    WriteAnswer,
    /// An answer to requests of any type.
    PlainAnswer,
}

/// The bytes of an answer that has some, however often it stands; None where it has none.
pub(crate) fn data_in(alloc: Global, word: &str) -> Result<Option<Bytes>, AllocError>
    ensures { IfOk result (λ bytes. bytes ≡ data_in word.now) }
{
    let (word, _) = with_times(word);
    match behind("d:", word) {
        Some(digits) => bytes(alloc, digits),
        None => Ok(None),
    }
}

/// Whether a word says not ready, a stall or a broken transaction, however often it stands.
fn is_plain(word: &str) -> bool
    ensures { result ≡ is_plain word.now }
{
    let (word, _) = with_times(word);
    matches!(word, "n" | "s" | "b")
}

/// Whether a word is an answer where something is read.
fn is_read(alloc: Global, word: &str) -> Result<bool, AllocError>
    ensures { IfOk result (λ is. is ≡ is_read word.now) }
{
    if is_plain(word) {
        return Ok(true);
    }
    let data = data_in(alloc, word)?;
    Ok(data.is_some())
}

/// Whether a word is an answer where something is written.
fn is_write(word: &str) -> bool
    ensures { result ≡ is_write word.now }
{
    let (one, _) = with_times(word);
    is_plain(word) || one == "a"
}

impl Wanted {
    /// Whether a word is so. An error where memory is refused.
    #[tactic(auto, unfolding(crate::specs::Wanted::is_wanted))]
    pub(crate) fn is_met(self, alloc: Global, text: &str) -> Result<bool, AllocError>
        ensures { IfOk result (λ met. met ≡ is_wanted self text.now) }
    {
        Ok(match self {
            Wanted::Device => device(text).is_ok(),
            Wanted::Bytes => bytes(alloc, text)?.is_some(),
            Wanted::Address | Wanted::Byte => address(text).is_ok(),
            Wanted::Word => word(text).is_ok(),
            Wanted::AnyByte => any_byte(text).is_ok(),
            Wanted::AnyWord => any_word(text).is_ok(),
            Wanted::Index => index(text).is_ok(),
            Wanted::Speed => Speed::read(text).is_some(),
            Wanted::Whole => whole(text).is_some(),
            Wanted::Number => decimal_u32(text).is_some(),
            Wanted::Interface => interface(text).is_ok(),
            Wanted::InAnswer | Wanted::ReadAnswer => is_read(alloc, text)?,
            Wanted::OutAnswer | Wanted::WriteAnswer => is_write(text),
            Wanted::PlainAnswer => is_plain(text),
        })
    }

    /// What is wanted, in a sentence.
    #[tactic(auto, unfolding(crate::specs::Wanted::wanted_text))]
    pub fn sentence(self) -> &'static str
        ensures { result.now ≡ wanted_text self }
    {
        match self {
            Wanted::Device => "a device's number stands here, 0 to 3",
            Wanted::Bytes => "bytes stand here: an even number of hexadecimal digits",
            Wanted::Address => "an endpoint's address stands here: two hexadecimal digits",
            Wanted::Byte => "two hexadecimal digits stand here",
            Wanted::Word => "four hexadecimal digits stand here",
            Wanted::AnyByte => "two hexadecimal digits stand here, or `*`",
            Wanted::AnyWord => "four hexadecimal digits stand here, or `*`",
            Wanted::Index => "the index of a string stands here, a decimal number from 1 to 255",
            Wanted::Speed => "a speed stands here: `low`, `full` or `high`",
            Wanted::Whole => "a device descriptor stands here: 18 bytes, 36 hexadecimal digits",
            Wanted::Number => "a decimal number below 2^32 stands here, without leading zeros",
            Wanted::Interface => {
                "an interface's number stands here, a decimal number from 0 to 255"
            }
            Wanted::InAnswer => "an answer of an IN endpoint is `d:HEX`, `n`, `s` or `b`",
            Wanted::OutAnswer => "an answer of an OUT endpoint is `a`, `n`, `s` or `b`",
            Wanted::ReadAnswer => "an answer to a request that reads is `d:HEX`, `n`, `s` or `b`",
            Wanted::WriteAnswer => "an answer to a request that writes is `a`, `n`, `s` or `b`",
            Wanted::PlainAnswer => "an answer to requests of any type is `n`, `s` or `b`",
        }
    }
}
