//! A core of one device, to which a line is told at a time.

use crate::bytes::device::{Answers, setup};
use crate::bytes::found::Found;
use anyhow::{Result, anyhow};
use std::alloc::{AllocError, Global};
use trace_scenario::{Line, handle};
use usb_core::Core;
use usb_device::TableDevice;
use usb_model::{Body, DeviceNo, EpAddr, Flags, Kind, Plan, Request, Sequence, Step, Verdict};
use usb_rings::TransferRing;
use usb_scripttext::number::{address, decimal_u32};

/// A core, and its device.
#[derive(Drop)]
pub struct Host {
    core: Core<(), TableDevice>,
    dev: DeviceNo,
    alloc: Global,
}

/// The index that a word says.
fn index(word: &str) -> Option<usize> {
    Some(decimal_u32(word)? as usize)
}

/// A write of so many zeros with an empty packet behind them, that words say: the handle, the endpoint, how many.
fn write_of_zeros(alloc: Global, words: &[&str]) -> Option<Step> {
    let [h, ep, len] = words else {
        return None;
    };
    let bytes = Vec::from_elem(alloc, 0, index(len)?).ok()?;
    Some(Step::Submit {
        h: handle(h).ok()?,
        request: Request {
            ep: address(ep).ok()?,
            kind: Kind::Bulk,
            flags: Flags::ADD_ZERO_PACKET,
            timeout: 0,
            body: Body::Out(Sequence::from_vec(bytes)),
        },
    })
}

/// The step of a piece of a plan; a callback that returns ends.
fn step_in(piece: Plan) -> Step {
    match piece {
        Plan::Do(step) => step,
        Plan::Return { h, n } => Step::Answer {
            h,
            n,
            verdict: Verdict::Stop,
        },
    }
}

/// The step of a line of a scenario.
fn step_of(alloc: Global, line: &str) -> Option<Step> {
    match Line::from_text(alloc, line.as_bytes()).ok()? {
        Line::Submit { h, request, .. } => Some(Step::Submit { h, request }),
        Line::Piece(piece) => Some(step_in(piece)),
        Line::Device { .. } | Line::Script { .. } | Line::Feed { .. } => None,
    }
}

impl Host {
    /// A core over the device that gives these answers, in packets of so many bytes.
    pub fn new(alloc: Global, size: u16, answers: &[Answers]) -> Result<Host> {
        let dev = DeviceNo::new(0).ok_or_else(|| anyhow!("no device"))?;
        let core = Core::new(alloc, setup(alloc, size, answers)?)?;
        Ok(Host { core, dev, alloc })
    }

    /// What a look finds, which changes nothing; None where a line is no look, or nothing is there. A look is `transfer EP INDEX`,
    /// `order INDEX` or `event INDEX` for a TRB in memory, `enqueue EP` for the place of the next TRB, `taken EP` for the packets
    /// that the device took; `stands EP` for how an endpoint stands, `line EP INDEX` for the transfer at a place of its line,
    /// `callback H N` for one in its callback, and `plug` for whether the device is there.
    pub fn find(&self, line: &str) -> Result<Option<Found>> {
        let words: Vec<&str> = line.split(' ').collect(self.alloc)?;
        Ok(self.look(words.as_slice()))
    }

    /// Makes the step of a line, and gives what is told of it: a line of a scenario, or `zeros H EP N` for a write of so many zeros
    /// with an empty packet behind them. An error where a line is neither.
    pub fn tell(&mut self, line: &str) -> Result<String> {
        let words: Vec<&str> = line.split(' ').collect(self.alloc)?;
        match self.step(line, words.as_slice()) {
            Some(step) => self.make(step),
            None => Err(anyhow!("nothing is known of {line}")),
        }
    }

    /// What a look finds.
    fn look(&self, words: &[&str]) -> Option<Found> {
        match words {
            [what, at] => match *what {
                "order" => self.order(at),
                "event" => self.event(at),
                "enqueue" => self.enqueue(at),
                "taken" => self.taken(at),
                "stands" => self.standing(at),
                _ => None,
            },
            [what, of, at] => match *what {
                "transfer" => self.transfer(of, at),
                "line" => self.in_line(of, at),
                "callback" => self.in_callback(of, at),
                _ => None,
            },
            [what] if *what == "plug" => Some(Found::IsGone(self.core.is_gone(self.dev))),
            _ => None,
        }
    }

    /// The order at an index of the command ring.
    fn order(&self, at: &str) -> Option<Found> {
        let ring = self.core.controller().command_ring();
        ring.bytes_at(index(at)?).map(Found::Trb)
    }

    /// The event at an index of the event ring.
    fn event(&self, at: &str) -> Option<Found> {
        let ring = self.core.controller().event_ring();
        ring.bytes_at(index(at)?).map(Found::Trb)
    }

    /// The transfer ring of an endpoint.
    fn ring(&self, ep: &str) -> Option<&TransferRing> {
        let slot = self.core.controller().slot(self.dev)?;
        Some(slot.context(address(ep).ok()?)?.ring())
    }

    /// The TRB at an index of an endpoint's ring.
    fn transfer(&self, ep: &str, at: &str) -> Option<Found> {
        self.ring(ep)?.bytes_at(index(at)?).map(Found::Trb)
    }

    /// The place at which an endpoint's next TRB is put.
    fn enqueue(&self, ep: &str) -> Option<Found> {
        let (index, cycle) = self.ring(ep)?.enqueue();
        Some(Found::Place { index, cycle })
    }

    /// What the device took at an endpoint, of its first 1,000 packets.
    fn taken(&self, ep: &str) -> Option<Found> {
        let ep = address(ep).ok()?;
        let (mut packets, mut bytes) = (0, 0);
        for at in 0..1_000_usize {
            if let Some(packet) = self.core.taken(self.dev, ep, at) {
                packets = at + 1;
                bytes = packet.len().saturating_add(bytes);
            }
        }
        Some(Found::Taken { packets, bytes })
    }

    /// How an endpoint stands.
    fn standing(&self, ep: &str) -> Option<Found> {
        let ep = address(ep).ok()?;
        Some(Found::Standing {
            state: self.core.state_at(self.dev, ep),
            errand: self.core.errand_at(self.dev, ep),
            is_halted: self.core.is_halted_at_device(self.dev, ep),
        })
    }

    /// The transfer at a place of an endpoint's line.
    fn in_line(&self, ep: &str, at: &str) -> Option<Found> {
        let (ep, at) = (address(ep).ok()?, index(at)?);
        let Some(transfer) = self.core.in_line(self.dev, ep, at) else {
            return Some(Found::Nothing);
        };
        Some(Found::InLine {
            n: transfer.n,
            length: transfer.request.body.length(),
            read: transfer.read.len(),
            ask: transfer.ask,
        })
    }

    /// A handle's transfer in its callback.
    fn in_callback(&self, h: &str, n: &str) -> Option<Found> {
        let (h, n) = (handle(h).ok()?, u64::from(decimal_u32(n)?));
        match self.core.callback(h, n) {
            Some(callback) => Some(Found::InCallback(callback.request.ep.address())),
            None => Some(Found::Nothing),
        }
    }

    /// The step that a line says.
    fn step(&self, line: &str, words: &[&str]) -> Option<Step> {
        match words {
            [what, of @ ..] if *what == "zeros" => write_of_zeros(self.alloc, of),
            _ => step_of(self.alloc, line),
        }
    }

    /// Makes a step, and gives what is printed of it.
    fn make(&mut self, step: Step) -> Result<String> {
        let payload = if step.takes_payload() { Some(()) } else { None };
        let Ok(stepped) = self.core.step(step, payload) else {
            return Err(anyhow!("no memory"));
        };
        let entry = stepped.entry;
        Ok(format!(in self.alloc; "{entry}")?)
    }
}
