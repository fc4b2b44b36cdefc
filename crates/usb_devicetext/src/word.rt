//! Words that spell the numbers of descriptors and requests.

ghost use Rattle.std.specs.Prelude.{◌≡◌, ◌+◌, ◌*◌};
ghost use Rattle.std.specs.Result.{result_ok};
ghost use Rattle.usb_scripttext.specs.Number.{address_of};
ghost use Rattle.usb_devicetext.specs.Word.{any_of, index_of, speed_of, word_of};

use usb_model::EpAddr;
use usb_scripttext::Expected;
use usb_scripttext::number::{address, interface};

/// The byte of two hexadecimal digits.
pub(crate) fn byte(word: &str) -> Result<u8, Expected>
    ensures { result_ok result ≡ address_of word.now }
{
    let byte: EpAddr = address(word)?;
    Ok(byte.address())
}

/// The number of two bytes.
pub(crate) fn both(low: u8, high: u8) -> u16
    ensures { result ≡ 256 * high + low }
{
    256 * u16::from(high) + u16::from(low)
}

/// The number of four hexadecimal digits; None where the word is none of these.
#[tactic(auto, unfolding(crate::specs::Word::word_of))]
fn hex_word(word: &str) -> Option<u16>
    ensures { result ≡ word_of word.now }
{
    let mut bytes = [0u8; 2];
    hex::decode_to_slice(word, &mut bytes).ok()?;
    Some(both(bytes[1], bytes[0]))
}

/// The number of four hexadecimal digits.
pub(crate) fn word(word: &str) -> Result<u16, Expected>
    ensures { result_ok result ≡ word_of word.now }
{
    hex_word(word).ok_or(Expected::Bytes)
}

/// The byte of two hexadecimal digits; `*` is any.
pub(crate) fn any_byte(word: &str) -> Result<Option<u8>, Expected>
    ensures { result_ok result ≡ any_of address_of word.now }
{
    match word {
        "*" => Ok(None),
        _ => Ok(Some(byte(word)?)),
    }
}

/// The number of four hexadecimal digits; `*` is any.
pub(crate) fn any_word(digits: &str) -> Result<Option<u16>, Expected>
    ensures { result_ok result ≡ any_of word_of digits.now }
{
    match digits {
        "*" => Ok(None),
        _ => Ok(Some(word(digits)?)),
    }
}

/// The index of a string: decimal, 1 to 255.
#[tactic(auto, unfolding(crate::specs::Word::index_of))]
pub(crate) fn index(word: &str) -> Result<u8, Expected>
    ensures { result_ok result ≡ index_of word.now }
{
    match interface(word)? {
        0 => Err(Expected::Number),
        index => Ok(index),
    }
}

/// The speed of a device (USB 2.0, 5.3.1.1).
#[derive(Clone, Copy, PartialEq, Eq, Debug)]
pub enum Speed {
    /// 1.5 Mb/s
    Low,
    /// 12 Mb/s
    Full,
    /// 480 Mb/s
    High,
}

impl Speed {
    /// The speed of a word.
    #[tactic(auto, unfolding(crate::specs::Word::speed_of))]
    pub(crate) fn read(word: &str) -> Option<Speed>
        ensures { result ≡ speed_of word.now }
    {
        match word {
            "low" => Some(Speed::Low),
            "full" => Some(Speed::Full),
            "high" => Some(Speed::High),
            _ => None,
        }
    }
}
