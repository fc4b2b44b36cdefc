//! What is found where somebody looks.

use std::fmt;
use usb_model::{Ask, EndpointState, Errand};

/// What is found.
#[derive(Clone, Copy)]
pub enum Found {
    /// The bytes of a TRB, in order of memory.
    Trb([u8; 16]),
    /// The place of a ring at which the next TRB is put.
    Place {
        /// Its index.
        index: usize,
        /// The cycle bit that is written there.
        cycle: bool,
    },
    /// What a device took at an endpoint.
    Taken {
        /// How many packets.
        packets: usize,
        /// How many bytes they have together.
        bytes: usize,
    },
    /// How an endpoint stands.
    Standing {
        /// Its state at the controller.
        state: EndpointState,
        /// The errand that is under way.
        errand: Option<Errand>,
        /// Whether its device has it halted.
        is_halted: bool,
    },
    /// A transfer in a line.
    InLine {
        /// Its number.
        n: u64,
        /// How many bytes it asks for, or sends.
        length: usize,
        /// How many it read.
        read: usize,
        /// Why it was asked to end.
        ask: Option<Ask>,
    },
    /// A transfer in its callback, by its endpoint's address.
    InCallback(u8),
    /// Whether a device was unplugged.
    IsGone(bool),
    /// Nothing.
    Nothing,
}

/// Writes a TRB, each byte as two digits, a space between its four words.
fn write_trb<W: fmt::Write>(f: &mut fmt::Formatter<W>, trb: &[u8; 16]) -> fmt::Result {
    for (at, byte) in trb.iter().enumerate() {
        if at > 0 && at % 4 == 0 {
            f.write_str(" ")?;
        }
        let value = *byte;
        write!(f, "{value:02x}")?;
    }
    Ok(())
}

/// Writes how an endpoint stands, as `Running`, and behind it the errand and the halt.
fn write_standing<W: fmt::Write>(
    f: &mut fmt::Formatter<W>,
    state: EndpointState,
    errand: Option<Errand>,
    is_halted: bool,
) -> fmt::Result {
    write!(f, "{state:?}")?;
    if let Some(errand) = errand {
        write!(f, ", {errand:?}")?;
    }
    if is_halted {
        f.write_str(", its device halted")?;
    }
    Ok(())
}

/// Writes a transfer in a line, as `0: 8 of 24`, and behind it why it was asked to end.
fn write_in_line<W: fmt::Write>(
    f: &mut fmt::Formatter<W>,
    n: u64,
    length: usize,
    read: usize,
    ask: Option<Ask>,
) -> fmt::Result {
    write!(f, "{n}: {read} of {length}")?;
    match ask {
        Some(ask) => write!(f, ", {ask:?}"),
        None => Ok(()),
    }
}

/// A TRB as `00000000 01000000 08000000 25040000`, a place as `73 cycle 0`, and what was taken as `257 packets of 131072`.
impl fmt::Display for Found {
    fn fmt<W: fmt::Write>(&self, f: &mut fmt::Formatter<W>) -> fmt::Result {
        match self {
            Found::Trb(trb) => write_trb(f, trb),
            Found::Place { index, cycle } => {
                let cycle = u8::from(*cycle);
                write!(f, "{index} cycle {cycle}")
            }
            Found::Taken { packets, bytes } => write!(f, "{packets} packets of {bytes}"),
            Found::Standing {
                state,
                errand,
                is_halted,
            } => write_standing(f, *state, *errand, *is_halted),
            Found::InLine {
                n,
                length,
                read,
                ask,
            } => write_in_line(f, *n, *length, *read, *ask),
            Found::InCallback(ep) => {
                let ep = *ep;
                write!(f, "of {ep:02x}")
            }
            Found::IsGone(is_gone) => f.write_str(if *is_gone { "gone" } else { "there" }),
            Found::Nothing => f.write_str("nothing"),
        }
    }
}
