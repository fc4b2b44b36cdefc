//! What a scenario expects of a packet that an endpoint takes.

ghost use Rattle.std.specs.Prelude.{codes};
ghost use Rattle.std.specs.Option.{option_and_then};
ghost use Rattle.usb_scripttext.specs.ExpectedPacket.{expected_bytes_of, expected_packet_of, packet_bytes_of};
ghost use Rattle.usb_scripttext.specs.Results.{ReadsAs};
ghost use Rattle.usb_scripttext.specs.Prefix.{behind};

use crate::expected::Expected;
use crate::fault::LineFault;
use crate::prefix::behind;
use crate::problem::Problem;
use hex::FromHexError;
use std::alloc::Global;
use usb_model::Bytes;
use usb_model::limits::LARGEST_PACKET;

/// What a packet has to be that an endpoint takes. It changes nothing of what the endpoint does.
#[derive(Debug, Drop)]
pub enum ExpectedPacket {
    /// Any packet: `a`.
    Anything,
    /// These bytes, at most 2,048: `a:HEX`.
    Exactly(Bytes),
    /// These bytes, at most 2,048, and any behind them: `a:HEX*`.
    Beginning(Bytes),
}

/// What a word expects that stands for a packet that is taken. An error where it isn't such a word.
#[tactic(auto, unfolding(crate::specs::ExpectedPacket::expected_packet_of))]
pub fn read_expected_packet(alloc: Global, word: &str) -> Result<ExpectedPacket, LineFault>
    ensures { ReadsAs result (expected_packet_of word.now) }
{
    if word == "a" {
        return Ok(ExpectedPacket::Anything);
    }
    let text = behind("a:", word).ok_or(Expected::OutAnswer)?;
    expected_bytes(alloc, text.as_bytes())
}

/// What is expected of a packet's bytes: all of them, or those before a `*`.
#[tactic(auto, unfolding(crate::specs::ExpectedPacket::expected_bytes_of))]
fn expected_bytes(alloc: Global, text: &[u8]) -> Result<ExpectedPacket, LineFault>
    ensures { ReadsAs result (expected_bytes_of text.now) }
{
    match text {
        [digits @ .., b'*'] => {
            let bytes = packet_bytes(alloc, digits)?;
            Ok(ExpectedPacket::Beginning(bytes))
        }
        digits => {
            let bytes = packet_bytes(alloc, digits)?;
            Ok(ExpectedPacket::Exactly(bytes))
        }
    }
}

/// The bytes of hexadecimal digits, as many as a packet may have.
#[tactic(auto, unfolding(crate::specs::ExpectedPacket::packet_bytes_of, crate::specs::Number::bytes_of))]
fn packet_bytes(alloc: Global, digits: &[u8]) -> Result<Bytes, LineFault>
    ensures { ReadsAs result (packet_bytes_of digits.now) }
{
    let bytes = match hex::decode(alloc, digits) {
        Ok(bytes) => bytes,
        Err(FromHexError::OutOfMemory) => return Err(LineFault::Memory),
        Err(_) => return Err(LineFault::Bad(Problem::Word(Expected::PacketBytes))),
    };
    if bytes.len() > LARGEST_PACKET {
        return Err(LineFault::Bad(Problem::Packet));
    }
    Ok(Bytes::from_vec(bytes))
}
