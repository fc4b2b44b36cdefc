//! What came of a transfer.

ghost use Rattle.std.specs.Prelude.{◌≡◌, ◌==◌, ◌&&◌, IfOk};
ghost use Rattle.usb_model.specs.Machine.{is_result_at};

use crate::bytes_read::BytesRead;
use crate::name::{EpAddr, Name};
use crate::reply::Returned;
use crate::request::Request;
use crate::sequence::Bytes;
use crate::shared::Tagged;
use crate::status::Status;
use std::alloc::AllocError;

/// A result that waits to be taken; with its request, so that it may be submitted again.
#[derive(Debug, Drop)]
pub struct TransferResult {
    /// The number of its transfer.
    pub n: u64,
    /// What was asked.
    pub request: Request,
    /// How often it was submitted before.
    pub round: u64,
    /// What came of it.
    pub status: Status,
    /// How many bytes moved.
    pub actual: u32,
    /// The bytes that were read; none for OUT.
    pub bytes: Bytes,
}

/// A transfer in its callback.
#[derive(Debug, Drop)]
pub struct InCallback {
    /// The number of its transfer.
    pub n: u64,
    /// What was asked.
    pub request: Request,
    /// How often it was submitted before.
    pub round: u64,
    /// What came of it.
    pub status: Status,
}

impl TransferResult {
    /// Whether it came of a transfer of this endpoint.
    pub fn is_at(&self, ep: EpAddr) -> bool
        ensures { result ≡ is_result_at ep self.now }
    {
        self.request.ep == ep
    }

    /// What the callback of a name's transfer is given.
    pub fn returned(&self, h: Name) -> Result<Returned, AllocError>
        ensures { IfOk result (λ r. r ≡ record { h = h; n = self.now.n; ep = self.now.request.ep; round = self.now.round; status = self.now.status; actual = self.now.actual; bytes = self.now.bytes }) }
    {
        Ok(Returned {
            h,
            n: self.n,
            ep: self.request.ep,
            round: self.round,
            status: self.status,
            actual: self.actual,
            bytes: BytesRead::from_bytes(self.bytes.clone()?),
        })
    }

    /// What is kept of it while its callback runs.
    pub fn in_callback(&self) -> Result<InCallback, AllocError>
        ensures { IfOk result (λ x. x ≡ record { n = self.now.n; request = self.now.request; round = self.now.round; status = self.now.status }) }
    {
        Ok(InCallback {
            n: self.n,
            request: self.request.clone()?,
            round: self.round,
            status: self.status,
        })
    }
}

impl Tagged<TransferResult> {
    /// Whether it is the name's, of this endpoint.
    pub fn is_at(&self, h: Name, ep: EpAddr) -> bool
        ensures { result ≡ ((self.now.name == h) && is_result_at ep self.now.piece) }
    {
        self.name == h && self.piece.is_at(ep)
    }
}
