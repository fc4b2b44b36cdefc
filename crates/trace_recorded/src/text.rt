//! A text that is written line by line.

ghost use Rattle.std.specs.Prelude.{◌≡◌, ◌++◌, [], IfOk};
ghost use Rattle.std.specs.List.{flat_map};
ghost use Rattle.hex.specs.Hex.{encode_lower};
ghost use Rattle.trace_recorded.specs.Lines.{endpoint_notes, left_out_line, note_line, noted_of, other_note, other_notes, script_head, script_line, script_text, with_other_of};

use crate::described::SaidIds;
use crate::device::OtherTransfer;
use crate::endpoint::RecordedEndpoint;
use crate::left_out::LeftOut;
use crate::note::{EndpointNote, Noted};
use std::alloc::{AllocError, Global};
use std::marker::Model;
use trace_faults::DeviceIds;
use usb_model::{Bytes, EpAddr, Sequence};

/// A text that is written line by line; contracts see its bytes.
#[derive(Drop)]
pub(crate) struct ScenarioText {
    bytes: Vec<u8>,
    alloc: Global,
}

impl Model for ScenarioText {
    ghost use Rattle.std.specs.Prelude.{ℕ, List};

    ghost Value = { List ℕ };

    ghost view = { λ t. t.bytes.items };
}

/// One transfer more, where it is of this endpoint.
fn with_other_of(ep: EpAddr, other: OtherTransfer, noted: Noted) -> Noted
    ensures { result ≡ with_other_of ep other noted }
{
    if other.ep.address() == ep.address() {
        noted.with(other.frame, 1)
    } else {
        noted
    }
}

/// The transfers of an endpoint among those without a script.
fn noted_of(others: &[OtherTransfer], ep: EpAddr) -> Noted
    ensures { result ≡ noted_of others.now ep }
{
    let mut noted = Noted::new();
    for other in others {
        noted = with_other_of(ep, *other, noted);
    }
    noted
}

impl ScenarioText {
    /// An empty text. Takes no memory.
    pub(crate) fn new(alloc: Global) -> ScenarioText
        ensures { result ≡ [] }
    {
        ScenarioText {
            bytes: Vec::new(alloc),
            alloc,
        }
    }

    /// Where its memory comes from.
    pub(crate) fn alloc(&self) -> Global {
        self.alloc
    }

    /// Its bytes.
    pub(crate) fn into_bytes(self) -> Bytes
        ensures { result ≡ self }
    {
        let ScenarioText { bytes, alloc: _ } = self;
        Sequence::from_vec(bytes)
    }

    /// Puts some more behind it.
    pub(crate) fn put(&mut self, more: &str) -> Result<(), AllocError>
        ensures { IfOk result (λ _. self.new ≡ self.old ++ more.now) }
    {
        self.bytes.extend_from_slice(more.as_bytes())
    }

    /// Puts another text behind it.
    pub(crate) fn append(&mut self, other: &ScenarioText) -> Result<(), AllocError>
        ensures { IfOk result (λ _. self.new ≡ self.old ++ other.now) }
    {
        self.bytes.extend_from_slice(other.bytes.as_slice())
    }

    /// Puts bytes behind it, as two hexadecimal digits each.
    pub(crate) fn put_hex(&mut self, bytes: &[u8]) -> Result<(), AllocError>
        ensures { IfOk result (λ _. self.new ≡ self.old ++ encode_lower bytes.now) }
    {
        let digits = hex::encode(self.alloc, bytes)?;
        self.bytes.extend_from_slice(digits.as_bytes())
    }

    /// Puts the line of a device that is left out behind it, with the ids that it says itself, where they were read. Its first packet has
    /// this number.
    pub(crate) fn put_left_out(
        &mut self,
        key: u64,
        ids: Option<DeviceIds>,
        frame: u64,
        why: LeftOut,
    ) -> Result<(), AllocError>
        ensures { IfOk result (λ _. self.new ≡ self.old ++ left_out_line key ids frame why) }
    {
        let (bus, device, ids) = (key / 256, key % 256, SaidIds(ids));
        let line = format!(in self.alloc;
            "# bus {bus} device {device}{ids} is left out: {why} (first in frame {frame})\n"
        )?;
        self.put(line.as_str())
    }

    /// Puts a note of an endpoint behind it, where there is something to note.
    pub(crate) fn put_note(&mut self, ep: EpAddr, note: EndpointNote) -> Result<(), AllocError>
        ensures { IfOk result (λ _. self.new ≡ self.old ++ note_line ep note) }
    {
        if !note.is_due() {
            return Ok(());
        }
        let line = format!(in self.alloc; "# ep {ep}: {note}\n")?;
        self.put(line.as_str())
    }

    /// Puts the notes of an endpoint behind it.
    fn put_notes(&mut self, endpoint: &RecordedEndpoint) -> Result<(), AllocError>
        ensures { IfOk result (λ _. self.new ≡ self.old ++ endpoint_notes endpoint.now) }
    {
        let ep = endpoint.info.address;
        self.put_note(ep, EndpointNote::Lost(endpoint.lost))?;
        self.put_note(ep, EndpointNote::TooLong(endpoint.too_long))?;
        self.put_note(ep, EndpointNote::TooLarge(endpoint.left_out))?;
        self.put_note(
            ep,
            EndpointNote::TooMany(Noted {
                count: endpoint.count,
                frame: endpoint.next,
            }),
        )
    }

    /// Puts the note of an endpoint without a script behind it.
    fn put_other(&mut self, others: &[OtherTransfer], ep: u8) -> Result<(), AllocError>
        ensures { IfOk result (λ _. self.new ≡ self.old ++ other_note others.now ep) }
    {
        let ep = EpAddr::new(ep);
        self.put_note(ep, EndpointNote::Others(noted_of(others, ep)))
    }

    /// Puts those of all endpoints behind it.
    pub(crate) fn put_others(&mut self, others: &[OtherTransfer]) -> Result<(), AllocError>
        ensures { IfOk result (λ _. self.new ≡ self.old ++ other_notes others.now 256) }
    {
        for ep in 0..256u16 {
            self.put_other(others, ep as u8)?;
        }
        Ok(())
    }

    /// Puts the beginning of a script's line behind it.
    fn put_head(&mut self, number: u8, ep: EpAddr) -> Result<(), AllocError>
        ensures { IfOk result (λ _. self.new ≡ self.old ++ script_head number ep) }
    {
        let head = format!(in self.alloc; "script {number} {ep}")?;
        self.put(head.as_str())
    }

    /// Puts the line of a script behind it.
    #[tactic(auto, unfolding(crate::specs::Lines::script_text))]
    fn put_line(&mut self, number: u8, endpoint: &RecordedEndpoint) -> Result<(), AllocError>
        ensures { IfOk result (λ _. self.new ≡ self.old ++ script_text number endpoint.now) }
    {
        self.put_head(number, endpoint.info.address)?;
        self.put_answers(endpoint.answers.as_slice())?;
        self.put("\n")
    }

    /// The same, where it has answers.
    fn put_script(&mut self, number: u8, endpoint: &RecordedEndpoint) -> Result<(), AllocError>
        ensures { IfOk result (λ _. self.new ≡ self.old ++ script_line number endpoint.now) }
    {
        if endpoint.answers.is_empty() {
            return Ok(());
        }
        self.put_line(number, endpoint)
    }

    /// Puts the notes of endpoints behind it.
    pub(crate) fn put_all_notes(&mut self, endpoints: &[RecordedEndpoint]) -> Result<(), AllocError>
        ensures { IfOk result (λ _. self.new ≡ self.old ++ flat_map endpoint_notes endpoints.now) }
    {
        for endpoint in endpoints {
            self.put_notes(endpoint)?;
        }
        Ok(())
    }

    /// Puts the lines of scripts behind it.
    pub(crate) fn put_scripts(
        &mut self,
        number: u8,
        endpoints: &[RecordedEndpoint],
    ) -> Result<(), AllocError>
        ensures { IfOk result (λ _. self.new ≡ self.old ++ flat_map (script_line number) endpoints.now) }
    {
        for endpoint in endpoints {
            self.put_script(number, endpoint)?;
        }
        Ok(())
    }
}
