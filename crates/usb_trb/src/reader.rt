//! The TRB that stands in three numbers.

ghost use Rattle.std.specs.Prelude.{◌≡◌, ◌==◌, ◌/◌, ◌%◌, ◌<◌, Ok, IfOk, IfSome, nat_lt, if◌then◌else◌};
ghost use Rattle.usb_trb.specs.Words.{IsInWords};
ghost use Rattle.usb_trb.specs.Read.{as_normal, normal_trb, kind_by, kind_at, endpoint_kind, normal_in, completion_in, pointer_in, slot_in, id_in, has};
ghost use Rattle.usb_trb.specs.declared.trb.Trb.{Trb};

use crate::bytes::Unknown;
use crate::field::{EndpointId, Length, Pointer, Residual, Slot};
use crate::kind::{Normal, TrbKind};
use crate::trb::Trb;
use crate::types;
use crate::words::{Words, bit_of, endpoint_bits, normal_flags, whole};

impl Words {
    /// The TRB that has these numbers; Unknown where there is none. Inlined for speed, as `decode` is.
    #[inline(always)]
    pub fn trb(self) -> Result<Trb, Unknown>
        ensures known { IfOk result (λ t. IsInWords t self.parameter self.status self.control) }
        ensures found { (t : Trb) → IsInWords t self.parameter self.status self.control → result ≡ Ok t }
    {
        match self.type_number() {
            types::NORMAL => self.normal(),
            types::TRANSFER_EVENT => self.event(),
            _ => self.any(),
        }
    }

    /// The Normal TRB that has these numbers, the most frequent one. Inlined for speed, and made where it is returned.
    #[inline(always)]
    fn normal(self) -> Result<Trb, Unknown>
        ensures known { IfOk result (λ t. IsInWords t self.parameter self.status self.control) }
        ensures found { (t : Trb) → IsInWords t self.parameter self.status self.control
            → normal_in self.parameter self.status self.control ≡ Ok t.kind → result ≡ Ok t }
    {
        let cycle = self.cycle();
        match self.fields() {
            Some(normal) => Ok(Trb {
                kind: TrbKind::Normal(normal),
                cycle,
            }),
            None => Err(Unknown),
        }
    }

    /// What the Normal TRB that has these numbers says; None where another TRB has them, or none. Inlined for speed: so it is
    /// read without a `TrbKind`, whose parts would be copied through memory.
    #[inline(always)]
    pub fn fields(self) -> Option<Normal>
        ensures known { IfSome result (λ n. IsInWords (normal_trb n self.control) self.parameter self.status self.control) }
        ensures found { (t : Trb) → IsInWords t self.parameter self.status self.control → result ≡ as_normal t.kind }
    {
        let Some(length) = Length::new(self.status % 131072) else {
            return None;
        };
        let (short, chain, done) = (self.has(4), self.has(16), self.has(32));
        let (buffer, bytes) = (whole(self.parameter), length.bytes());
        let control = bit_of(self.cycle()) + 1024 + normal_flags(short, chain, done);
        if control != self.control || bytes != self.status {
            return None;
        }
        Some(Normal {
            buffer,
            length,
            short,
            chain,
            done,
        })
    }

    /// The Transfer Event that has these numbers, the most frequent TRB of the event ring. Inlined for speed, as `normal` is.
    #[inline(always)]
    fn event(self) -> Result<Trb, Unknown>
        ensures known { IfOk result (λ t. IsInWords t self.parameter self.status self.control) }
        ensures found { (t : Trb) → IsInWords t self.parameter self.status self.control
            → endpoint_kind 32 self.parameter self.status self.control ≡ Ok t.kind → result ≡ Ok t }
    {
        let (Some(slot), Some(id)) = (self.slot(), self.id()) else {
            return Err(Unknown);
        };
        let (pointer, residual, code) = (self.pointer(), Residual::low(self.status), self.code());
        let cycle = self.cycle();
        let control = bit_of(cycle) + 32768 + endpoint_bits(slot, id);
        if control != self.control || pointer.address() != self.parameter {
            return Err(Unknown);
        }
        Ok(Trb {
            kind: TrbKind::TransferEvent {
                pointer,
                residual,
                code,
                slot,
                id,
            },
            cycle,
        })
    }

    /// The TRB of any kind that has these numbers.
    fn any(self) -> Result<Trb, Unknown>
        ensures known { IfOk result (λ t. IsInWords t self.parameter self.status self.control) }
        ensures found { (t : Trb) → IsInWords t self.parameter self.status self.control → result ≡ Ok t }
    {
        self.checked(self.kind())
    }

    /// The TRB of this kind, if it has these numbers.
    fn checked(self, kind: Result<TrbKind, Unknown>) -> Result<Trb, Unknown>
        ensures known { IfOk result (λ t. IsInWords t self.parameter self.status self.control) }
        ensures found { (t : Trb) → IsInWords t self.parameter self.status self.control → kind ≡ Ok t.kind → result ≡ Ok t }
    {
        let kind = kind?;
        let trb = Trb {
            kind,
            cycle: self.cycle(),
        };
        let again = Words::of(&trb);
        if again.parameter == self.parameter
            && again.status == self.status
            && again.control == self.control
        {
            Ok(trb)
        } else {
            Err(Unknown)
        }
    }

    /// What the numbers say, where the fields that their type has are in range; what else stands in them isn't looked at.
    fn kind(self) -> Result<TrbKind, Unknown>
        ensures { result ≡ kind_by (self.control / 1024 % 64) self.parameter self.status self.control }
    {
        match self.type_number() {
            types::NORMAL => self.normal_kind(),
            types::LINK => Ok(TrbKind::Link {
                segment: self.pointer(),
                toggle: self.has(2),
                chain: self.has(16),
            }),
            types::NO_OP => Ok(TrbKind::NoOp),
            types::COMMAND_COMPLETION => self.completion(),
            kind => self.at_endpoint(kind),
        }
    }

    fn normal_kind(self) -> Result<TrbKind, Unknown>
        ensures { result ≡ normal_in self.parameter self.status self.control }
    {
        match Length::new(self.status % 131072) {
            Some(length) => Ok(TrbKind::Normal(Normal {
                buffer: self.parameter,
                length,
                short: self.has(4),
                chain: self.has(16),
                done: self.has(32),
            })),
            None => Err(Unknown),
        }
    }

    fn completion(self) -> Result<TrbKind, Unknown>
        ensures { result ≡ completion_in self.parameter self.status self.control }
    {
        match self.slot() {
            Some(slot) => Ok(TrbKind::CommandCompletion {
                pointer: self.pointer(),
                code: self.code(),
                slot,
            }),
            None => Err(Unknown),
        }
    }

    /// The kinds that name an endpoint.
    fn at_endpoint(self, kind: u32) -> Result<TrbKind, Unknown>
        ensures { result ≡ endpoint_kind kind self.parameter self.status self.control }
    {
        match (self.slot(), self.id()) {
            (Some(slot), Some(id)) => self.at(kind, slot, id),
            _ => Err(Unknown),
        }
    }

    fn at(self, kind: u32, slot: Slot, id: EndpointId) -> Result<TrbKind, Unknown>
        ensures { result ≡ kind_at kind slot id self.parameter self.status }
    {
        match kind {
            types::RESET_ENDPOINT => Ok(TrbKind::ResetEndpoint { slot, id }),
            types::STOP_ENDPOINT => Ok(TrbKind::StopEndpoint { slot, id }),
            types::SET_DEQUEUE => Ok(TrbKind::SetDequeue {
                pointer: self.pointer(),
                state: self.parameter % 2 == 1,
                slot,
                id,
            }),
            types::TRANSFER_EVENT => Ok(TrbKind::TransferEvent {
                pointer: self.pointer(),
                residual: Residual::low(self.status),
                code: self.code(),
                slot,
                id,
            }),
            _ => Err(Unknown),
        }
    }

    fn type_number(self) -> u32
        ensures { result ≡ self.control / 1024 % 64 }
    {
        self.control / 1024 % 64
    }

    fn cycle(self) -> bool
        ensures { result ≡ (self.control % 2 == 1) }
    {
        self.control % 2 == 1
    }

    fn pointer(self) -> Pointer
        ensures { result ≡ pointer_in self.parameter }
    {
        Pointer::before(self.parameter)
    }

    fn code(self) -> u8
        ensures { result ≡ self.status / 16777216 }
    {
        (self.status / 16777216) as u8
    }

    fn slot(self) -> Option<Slot>
        ensures { result ≡ (if nat_lt 0 (slot_in self.control) then Some (slot_in self.control) else None) }
    {
        Slot::new((self.control / 16777216) as u8)
    }

    fn id(self) -> Option<EndpointId>
        ensures { result ≡ (if nat_lt 0 (id_in self.control) then Some (id_in self.control) else None) }
    {
        EndpointId::new((self.control / 65536 % 32) as u8)
    }

    /// Whether the last number has the bit of this power of two.
    fn has(self, power: u32) -> bool
        requires { 0 < power }
        ensures { result ≡ has power self.control }
    {
        self.control / power % 2 == 1
    }
}
