//! The answers of a device that a transfer took, and what they have in common.

ghost use Rattle.std.specs.Prelude.{◌≡◌, List, [], ◌∷◌, ◌++◌, length, IfOk, OnErr};
ghost use Rattle.usb_model.specs.declared.response.Response.{Response};
ghost use Rattle.usb_model.specs.Alike.{AreAlike, acks_by, packets_by};
ghost use Rattle.usb_model.specs.Endpoint.Packets.{without_naks};

use crate::response::{Response, Script};
use std::alloc::{AllocError, Global};
use std::marker::Model;

/// What answers have in common, but for those of a device that wasn't ready.
#[derive(Clone, Copy, PartialEq, Eq, Debug)]
pub enum Alike {
    /// There is none.
    Nothing,
    /// They are so many packets of this size, for the host.
    Packets {
        /// The bytes of each.
        size: usize,
        /// How many there are.
        count: usize,
    },
    /// They are so many acknowledgements.
    Acks {
        /// How many there are.
        count: usize,
    },
    /// Nothing that is kept.
    Mixed,
}

impl Alike {
    /// So many packets of this size; nothing is kept of more than can be counted.
    fn packets(size: usize, count: Option<usize>) -> Alike
        ensures { result ≡ packets_by size count }
    {
        match count {
            Some(count) => Alike::Packets { size, count },
            None => Alike::Mixed,
        }
    }

    /// So many acknowledgements; nothing is kept of more than can be counted.
    fn acks(count: Option<usize>) -> Alike
        ensures { result ≡ acks_by count }
    {
        match count {
            Some(count) => Alike::Acks { count },
            None => Alike::Mixed,
        }
    }

    /// What answers have in common behind which this one comes.
    #[tactic(auto, using(crate::proofs::Alikes::one_packet, crate::proofs::Alikes::packet_more, crate::proofs::Alikes::one_ack, crate::proofs::Alikes::ack_more, crate::proofs::Alikes::nak_more))]
    pub fn with(self, answer: &Response) -> Alike
        ensures { (xs : List Response) → AreAlike self xs → AreAlike result (xs ++ without_naks (answer.now ∷ [])) }
    {
        match (self, answer) {
            (_, Response::Nak) => self,
            (Alike::Nothing, Response::Data(bytes)) => Alike::Packets {
                size: bytes.len(),
                count: 1,
            },
            (Alike::Packets { size, count }, Response::Data(bytes)) if bytes.len() == size => {
                Alike::packets(size, count.checked_add(1))
            }
            (Alike::Nothing, Response::Ack) => Alike::Acks { count: 1 },
            (Alike::Acks { count }, Response::Ack) => Alike::acks(count.checked_add(1)),
            _ => Alike::Mixed,
        }
    }
}

/// The answers that a transfer took. Contracts see the list of them. What they have in common is known without a look at each.
#[derive(Debug, Drop)]
pub struct Share {
    answers: Vec<Response>,
    alike: Alike,
}

impl Model for Share {
    ghost use Rattle.std.specs.Prelude.{List};
    ghost use Rattle.usb_model.specs.declared.response.Response.{Response};
    ghost use Rattle.usb_model.specs.Alike.{AreAlike};
    ghost use Rattle.usb_model.specs.Endpoint.Packets.{without_naks};

    ghost Value = { List Response };

    ghost invariant = { λ s. AreAlike s.alike (without_naks s.answers.items) };

    ghost view = { λ s. s.answers.items };
}

impl Share {
    /// No answer, which takes no memory.
    pub fn new(alloc: Global) -> Share
        ensures { result ≡ [] }
    {
        Share {
            answers: Vec::new(alloc),
            alike: Alike::Nothing,
        }
    }

    /// The answers, in order.
    pub fn as_slice(&self) -> &[Response]
        ensures { result.now ≡ self.now }
    {
        self.answers.as_slice()
    }

    /// What they have in common.
    pub fn alike(&self) -> Alike
        ensures { AreAlike result (without_naks self.now) }
    {
        self.alike
    }

    /// Puts an answer behind the others. Without memory nothing changes.
    #[tactic(auto, using(crate::proofs::Alikes::naks_append))]
    pub fn push(&mut self, answer: Response) -> Result<(), AllocError>
        ensures pushed { IfOk result (λ _. self.new ≡ self.old ++ answer ∷ []) }
        ensures kept { OnErr result (self.new ≡ self.old) }
    {
        let alike = self.alike.with(&answer);
        self.answers.push(answer)?;
        self.alike = alike;
        Ok(())
    }

    /// The answers, with others behind them.
    pub fn append(mut self, behind: Script) -> Result<Share, AllocError>
        ensures { IfOk result (λ s. s ≡ self ++ behind) }
    {
        for answer in behind.into_vec() {
            self.push(answer)?;
        }
        Ok(self)
    }
}
