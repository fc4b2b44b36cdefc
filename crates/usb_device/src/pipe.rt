//! One endpoint that answers by a script.

ghost use Rattle.std.specs.Prelude.{◌≡◌, ◌≤◌, ◌+◌, ◌*◌, ◌++◌, ◌<◌, [], true, false, None, Some, IfSome, OnErr, OnOk, count_by, length, slice_get, nat_lt, if◌then◌else◌, drop};
ghost use Rattle.std.specs.List.{list_all};
ghost use Rattle.std.specs.Option.{option_copied};
ghost use Rattle.usb_model.specs.Limits.{longest_script};
ghost use Rattle.usb_device.specs.Feeds.{pipe_fed};
ghost use Rattle.usb_device.specs.Pipe.{act_of, answer_of, buffer_after, bytes_after, cleared, is_ack, is_ready, packet_of, pipe_after, rewound};
ghost use Rattle.usb_device.specs.Scripts.{pipe_of, is_short};
ghost use Rattle.usb_device.specs.Skims.{are_taken, are_whole, is_whole, packet_in, pipe_behind, pipe_given, read_in};

use crate::device::Act;
use crate::scripts::acks;
use crate::taken::TakenPackets;
use std::alloc::AllocError;
use std::marker::Model;
use usb_model::{Buffer, Response};

/// An endpoint: its script, the place of the next answer in it, and the packets that it took.
#[derive(Drop)]
pub(crate) struct TablePipe {
    script: Vec<Response>,
    place: usize,
    /// How many answers of the script take a packet.
    acks: usize,
    halted: bool,
    taken: TakenPackets,
}

impl Model for TablePipe {
    ghost use Rattle.std.specs.Prelude.{◌≡◌, ◌≤◌, ◌+◌, true, count_by, drop, length, vec_len};
    ghost use Rattle.std.specs.List.{list_all};
    ghost use Rattle.usb_device.specs.Pipe.{Pipe, is_ack};
    ghost use Rattle.usb_device.specs.Scripts.{is_short};

    ghost Value = { Pipe };

    ghost view = { λ p. record {
      size = p.taken.size;
      script = p.script.items;
      left = drop p.place p.script.items;
      halted = p.halted;
      taken = p.taken.packets;
    } };

    ghost invariant = { λ p. (p.place ≤ vec_len p.script)
        × (list_all is_short p.script.items ≡ true)
        × (p.acks ≡ count_by is_ack p.script.items)
        × (p.acks ≤ p.taken.places)
        × (length p.taken.packets + count_by is_ack (drop p.place p.script.items) ≤ count_by is_ack p.script.items) };
}

/// Puts a packet at the front of a buffer, if it fits.
fn put_packet(packet: &[u8], buf: &mut [u8])
    ensures { buf.new ≡ (if nat_lt (length buf.old) (length packet.now) then buf.old else packet.now ++ drop (length packet.now) buf.old) }
{
    let count = packet.len();
    if count <= buf.len() {
        buf[..count].copy_from_slice(packet);
    }
}

/// Appends a packet to the bytes, if there is room for it.
fn append_packet(packet: &[u8], room: usize, bytes: &mut Buffer)
    requires room { length bytes.old.items + room ≤ bytes.old.capacity }
    ensures bytes { bytes.new.items ≡ (if nat_lt room (length packet.now) then bytes.old.items else bytes.old.items ++ packet.now) }
    ensures capacity { bytes.old.capacity ≤ bytes.new.capacity }
    ensures lent { bytes.new.lent ≡ bytes.old.lent }
    ensures more { length bytes.old.items ≤ length bytes.new.items }
    ensures most { length bytes.new.items ≤ length bytes.old.items + room }
{
    if packet.len() <= room {
        bytes.append(packet);
    }
}

/// The packet of this number, where bytes are sent so many to a packet.
fn packet_in(size: usize, bytes: &[u8], count: usize) -> &[u8]
    requires { (count + 1) * size ≤ length bytes.now }
    ensures packet { result.now ≡ packet_in size bytes.now count }
    ensures size { length result.now ≤ size }
{
    let at = count * size;
    &bytes[at..at + size]
}

impl TablePipe {
    /// An endpoint at the beginning of its script, with room for the packets that its Acks take.
    pub(crate) fn new(script: Vec<Response>, taken: TakenPackets) -> TablePipe
        requires short { list_all is_short script.items ≡ true }
        requires room { count_by is_ack script.items ≤ taken.places }
        requires fresh { taken.packets ≡ [] }
        ensures { result ≡ pipe_of taken.size script.items }
    {
        let acks = acks(script.as_slice());
        TablePipe {
            script,
            place: 0,
            acks,
            halted: false,
            taken,
        }
    }

    /// `Device::answer` at this endpoint.
    pub(crate) fn answer(&mut self, out: Option<&[u8]>, buf: &mut [u8]) -> Act
        requires size { IfSome out (λ packet. length packet.now ≤ self.old.size) }
        ensures act { result ≡ act_of (answer_of self.old) }
        ensures pipe { self.new ≡ pipe_after (option_copied out.entry) self.old }
        ensures buffer { buf.new ≡ buffer_after (answer_of self.old) buf.old }
    {
        if self.halted {
            return Act::Stall;
        }
        if self.place >= self.script.len() {
            return Act::Nak;
        }
        let at = self.place;
        self.place += 1;
        match &self.script[at] {
            Response::Data(packet) => {
                let packet = packet.as_slice();
                put_packet(packet, buf);
                Act::Data(packet.len() as u32)
            }
            Response::Ack => {
                if let Some(packet) = out {
                    self.taken.push(packet);
                }
                Act::Ack
            }
            Response::Nak => Act::Nak,
            Response::Stall => {
                self.halted = true;
                Act::Stall
            }
            Response::Broken => Act::Broken,
        }
    }

    /// `Device::answer_in` at this endpoint.
    pub(crate) fn answer_in(&mut self, room: usize, bytes: &mut Buffer) -> Act
        requires room { length bytes.old.items + room ≤ bytes.old.capacity }
        ensures act { result ≡ act_of (answer_of self.old) }
        ensures pipe { self.new ≡ pipe_after None self.old }
        ensures bytes { bytes.new.items ≡ bytes_after (answer_of self.old) room bytes.old.items }
        ensures capacity { bytes.old.capacity ≤ bytes.new.capacity }
        ensures lent { bytes.new.lent ≡ bytes.old.lent }
        ensures more { length bytes.old.items ≤ length bytes.new.items }
        ensures most { length bytes.new.items ≤ length bytes.old.items + room }
    {
        if self.halted {
            return Act::Stall;
        }
        if self.place >= self.script.len() {
            return Act::Nak;
        }
        let at = self.place;
        self.place += 1;
        match &self.script[at] {
            Response::Data(packet) => {
                let packet = packet.as_slice();
                append_packet(packet, room, bytes);
                Act::Data(packet.len() as u32)
            }
            Response::Ack => Act::Ack,
            Response::Nak => Act::Nak,
            Response::Stall => {
                self.halted = true;
                Act::Stall
            }
            Response::Broken => Act::Broken,
        }
    }

    /// One transaction to which no packet is sent, if it is met by a packet of just so many bytes, which joins the others; whether it is.
    fn skim_one_in(&mut self, size: usize, bytes: &mut Buffer) -> bool
        requires room { length bytes.old.items + size ≤ bytes.old.capacity }
        ensures met { result ≡ true → (is_whole size (answer_of self.old) ≡ true) × (self.new ≡ pipe_after None self.old)
            × (bytes.new.items ≡ bytes.old.items ++ packet_of (answer_of self.old)) × (length bytes.new.items ≡ length bytes.old.items + size) }
        ensures kept { result ≡ false → (self.new ≡ self.old) × (bytes.new ≡ bytes.old) }
        ensures capacity { bytes.old.capacity ≤ bytes.new.capacity }
        ensures lent { bytes.new.lent ≡ bytes.old.lent }
    {
        if self.halted || self.place >= self.script.len() {
            return false;
        }
        let at = self.place;
        match &self.script[at] {
            Response::Data(packet) if packet.len() == size => {
                bytes.append(packet.as_slice());
            }
            _ => return false,
        }
        self.place += 1;
        true
    }

    /// `Device::skim_in` at this endpoint.
    pub(crate) fn skim_in(&mut self, size: usize, most: usize, bytes: &mut Buffer) -> usize
        requires room { length bytes.old.items + most * size ≤ bytes.old.capacity }
        ensures most { result ≤ most }
        ensures whole { are_whole size result self.old ≡ true }
        ensures pipe { self.new ≡ pipe_behind result self.old }
        ensures bytes { bytes.new.items ≡ bytes.old.items ++ read_in result self.old }
        ensures capacity { bytes.old.capacity ≤ bytes.new.capacity }
        ensures lent { bytes.new.lent ≡ bytes.old.lent }
        ensures length { length bytes.new.items ≡ length bytes.old.items + result * size }
    {
        for count in 0..most {
            if !self.skim_one_in(size, bytes) {
                return count;
            }
        }
        most
    }

    /// One transaction to which this packet is sent, if it is taken; whether it is.
    fn skim_one_out(&mut self, packet: &[u8]) -> bool
        requires size { length packet.now ≤ self.old.size }
        ensures taken { result ≡ true → (is_ack (answer_of self.old) ≡ true) × (self.new ≡ pipe_after (Some packet.now) self.old) }
        ensures kept { result ≡ false → self.new ≡ self.old }
    {
        if self.halted || self.place >= self.script.len() {
            return false;
        }
        let at = self.place;
        if !matches!(&self.script[at], Response::Ack) {
            return false;
        }
        self.place += 1;
        self.taken.push(packet);
        true
    }

    /// `Device::skim_out` at this endpoint.
    pub(crate) fn skim_out(&mut self, size: usize, most: usize, bytes: &[u8]) -> usize
        requires size { size ≤ self.old.size }
        requires bytes { most * size ≤ length bytes.now }
        ensures most { result ≤ most }
        ensures taken { are_taken size bytes.now result self.old ≡ true }
        ensures pipe { self.new ≡ pipe_given size bytes.now result self.old }
    {
        for count in 0..most {
            if !self.skim_one_out(packet_in(size, bytes, count)) {
                return count;
            }
        }
        most
    }

    /// One more answer behind the script. An error where memory is refused: the endpoint stays as it was.
    pub(crate) fn feed(&mut self, answer: Response) -> Result<(), AllocError>
        requires short { is_short answer ≡ true }
        requires room { length self.old.script < longest_script }
        ensures fed { OnOk result (self.new ≡ pipe_fed answer self.old) }
        ensures stays { OnErr result (self.new ≡ self.old) }
    {
        if !matches!(&answer, Response::Ack) {
            self.script.push(answer)?;
            return Ok(());
        }
        self.taken.grow(self.acks + 1)?;
        self.script.push(answer)?;
        self.acks += 1;
        Ok(())
    }

    /// How many answers the script has.
    pub(crate) fn script_len(&self) -> usize
        ensures { result ≡ length self.now.script }
    {
        self.script.len()
    }

    /// The most bytes of a packet that it takes.
    pub(crate) fn size(&self) -> u16
        ensures { result ≡ self.now.size }
    {
        self.taken.size()
    }

    /// Whether an answer is left, or it is halted.
    pub(crate) fn ready(&self) -> bool
        ensures { result ≡ is_ready self.now }
    {
        self.halted || self.place < self.script.len()
    }

    /// How many answers are left.
    pub(crate) fn answers_left(&self) -> usize
        ensures { result ≡ length self.now.left }
    {
        self.script.len() - self.place
    }

    /// Whether it is halted.
    pub(crate) fn is_halted(&self) -> bool
        ensures { result ≡ self.now.halted }
    {
        self.halted
    }

    /// The packet of this index among those taken; None past the last.
    pub(crate) fn taken(&self, i: usize) -> Option<&[u8]>
        ensures { option_copied result ≡ slice_get self.now.taken i }
    {
        self.taken.get(i)
    }

    /// Goes back to the beginning of the script, not halted and with nothing taken.
    pub(crate) fn rewind(&mut self)
        ensures { self.new ≡ rewound self.old }
    {
        self.place = 0;
        self.taken.clear();
        self.clear_halt();
    }

    /// Clears the halt.
    pub(crate) fn clear_halt(&mut self)
        ensures { self.new ≡ cleared self.old }
    {
        self.halted = false;
    }
}
