//! A TRB as sixteen bytes.

ghost use borrow.Rule.Slice.PartMut.{mid_of};
ghost use Rattle.std.specs.Prelude.{◌≡◌, ◌≢◌, ◌==◌, IfOk, IfErr, IfSome, Ok, Some};
ghost use Rattle.byteorder.specs.Endian.{little_number};
ghost use Rattle.usb_trb.specs.Words.{trb_bytes, IsTrb};
ghost use Rattle.usb_trb.specs.Read.{as_normal, type_in, is_no_op};
ghost use Rattle.usb_trb.specs.declared.trb.Trb.{Trb};

use crate::kind::Normal;
use crate::trb::Trb;
use crate::types;
use crate::words::Words;
use byteorder::{ByteOrder, LittleEndian};
use thiserror::Error;

/// Sixteen bytes that no TRB is written as.
#[derive(Clone, Copy, PartialEq, Eq, Debug, Drop, Error)]
#[error("no TRB is written as these bytes")]
pub struct Unknown;

/// The bytes of a TRB.
#[tactic(auto, unfolding(crate::specs::Words::trb_bytes))]
pub fn encode(trb: &Trb) -> [u8; 16]
    ensures bytes { result ≡ trb_bytes trb.now }
    ensures ranges { IsTrb trb.now }
{
    let words = Words::of(trb);
    let mut bytes = [0; 16];
    LittleEndian::write_u64(&mut bytes, words.parameter);
    LittleEndian::write_u32(&mut bytes[8..], words.status);
    LittleEndian::write_u32(&mut bytes[12..], words.control);
    bytes
}

/// The TRB that is written as these bytes; Unknown where there is none: where the type is another, a bit is set that no
/// field has, a length is over 65,536, or a slot or an endpoint id is 0.
///
/// Inlined down to the fields of a Normal TRB, so that no TRB is copied: a TRB written and read takes half the time.
#[inline(always)]
pub fn decode(bytes: &[u8; 16]) -> Result<Trb, Unknown>
    ensures known { IfOk result (λ t. IsTrb t × (trb_bytes t ≡ bytes.now)) }
    ensures found { (t : Trb) → IsTrb t → trb_bytes t ≡ bytes.now → result ≡ Ok t }
    ensures unknown { IfErr result (λ _. (t : Trb) → IsTrb t → trb_bytes t ≢ bytes.now) }
{
    words_in(bytes).trb()
}

/// What the Normal TRB that is written as these bytes says; None where another TRB is written so, or none.
///
/// Inlined, as `decode` is, and faster where a ring holds little else: no other kind is made.
#[inline(always)]
pub fn decode_normal(bytes: &[u8; 16]) -> Option<Normal>
    ensures known { IfSome result (λ n. (t : Trb) × IsTrb t × (trb_bytes t ≡ bytes.now) × (as_normal t.kind ≡ Some n)) }
    ensures found { (t : Trb) → IsTrb t → trb_bytes t ≡ bytes.now → result ≡ as_normal t.kind }
{
    words_in(bytes).fields()
}

/// The three numbers that stand in a TRB's bytes. Inlined, as what reads them is.
#[inline(always)]
fn words_in(bytes: &[u8; 16]) -> Words
    ensures parameter { result.parameter ≡ little_number 8 bytes.now }
    ensures status { result.status ≡ little_number 4 (mid_of 8 8 bytes.now) }
    ensures control { result.control ≡ little_number 4 (mid_of 12 4 bytes.now) }
{
    Words {
        parameter: LittleEndian::read_u64(bytes),
        status: LittleEndian::read_u32(&bytes[8..]),
        control: LittleEndian::read_u32(&bytes[12..]),
    }
}

/// Whether a No Op stands in a TRB's bytes. The type alone is read.
pub fn is_no_op(bytes: &[u8; 16]) -> bool
    ensures read { result ≡ (type_in bytes.now == 8) }
    ensures told { (t : Trb) → IsTrb t → trb_bytes t ≡ bytes.now → result ≡ is_no_op t.kind }
{
    u32::from(bytes[13] / 4) == types::NO_OP
}
