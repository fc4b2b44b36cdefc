//! What a device is to the controller.

ghost use Rattle.std.specs.Prelude.{◌≡◌, ◌≤◌, ◌+◌, ◌*◌, ◌++◌, ℕ, true, List, None, Some, IfSome, length, slice_get, slice_set};
ghost use Rattle.std.specs.Option.{option_copied};
ghost use Rattle.usb_model.specs.Setup.{endpoint_id};
ghost use Rattle.usb_device.specs.Skims.{are_taken, are_whole, pipe_behind, pipe_given, read_in};
ghost use Rattle.usb_device.specs.Pipe.{Pipe, IsLawful, act_of, answer_of, buffer_after, bytes_after, cleared, is_ready, pipe_after, pipe_at, rewound};

use crate::append::count_within;
use usb_model::{Buffer, EpAddr, Memory};

/// How a device met one transaction (USB 2.0, 8.4.5).
#[derive(Clone, Copy, PartialEq, Eq, Debug)]
pub enum Act {
    /// A packet for the host, of so many bytes.
    Data(u32),
    /// The packet was taken.
    Ack,
    /// Not ready.
    Nak,
    /// The endpoint is halted.
    Stall,
    /// A transaction that failed all its retries.
    Broken,
}

/// A device. Its law: each endpoint has a script of answers, which is settled when the device is made or fed (`Feed`), and answers by
/// the next of them; a Stall halts it, and it then stalls until it is cleared or rewound. A call changes the endpoint that it
/// names and no other, and takes no memory. An IN endpoint has no Ack in its script, an OUT endpoint no Data.
pub trait Device: Drop {
    /// Each endpoint by its id, 0 to 31.
    ghost pipes: { Self → List Pipe };

    /// One transaction at an endpoint. `out` is the packet that the host sends, if it sends one; the device keeps it where
    /// it answers Ack. A packet for the host is put at the front of `buf`; one that is longer than `buf` is left out.
    fn answer(&mut self, ep: EpAddr, out: Option<&[u8]>, buf: &mut [u8]) -> Act
        requires size { IfSome out (λ packet. length packet.now ≤ (pipe_at (pipes self.old) ep).size) }
        ensures act { result ≡ act_of (answer_of (pipe_at (pipes self.old) ep)) }
        ensures pipes { pipes self.new ≡ slice_set (pipes self.old) (endpoint_id ep) (pipe_after (option_copied out.entry) (pipe_at (pipes self.old) ep)) }
        ensures buffer { buf.new ≡ buffer_after (answer_of (pipe_at (pipes self.old) ep)) buf.old };

    /// One transaction at an endpoint to which no packet is sent, where there is room for so many bytes behind those in
    /// `bytes`. A packet that fits joins them; a longer one is left out. A device that computes its packets needn't write
    /// this: `answer` puts them into zeros behind the bytes.
    fn answer_in(&mut self, ep: EpAddr, room: usize, bytes: &mut Buffer) -> Act
        requires room { length bytes.old.items + room ≤ bytes.old.capacity }
        ensures act { result ≡ act_of (answer_of (pipe_at (pipes self.old) ep)) }
        ensures pipes { pipes self.new ≡ slice_set (pipes self.old) (endpoint_id ep) (pipe_after None (pipe_at (pipes self.old) ep)) }
        ensures bytes { bytes.new.items ≡ bytes_after (answer_of (pipe_at (pipes self.old) ep)) room bytes.old.items }
        ensures capacity { bytes.old.capacity ≤ bytes.new.capacity }
        ensures lent { bytes.new.lent ≡ bytes.old.lent }
        ensures more { length bytes.old.items ≤ length bytes.new.items }
        ensures most { length bytes.new.items ≤ length bytes.old.items + room }
    {
        let before = bytes.len();
        bytes.append_zeros(room);
        let (act, memory) = match bytes.take().into_memory() {
            Memory::Own(mut own) => {
                let act = self.answer(ep, None, &mut own[before..]);
                (act, Memory::Own(own))
            }
            Memory::Lent(mut lent) => {
                let act = self.answer(ep, None, &mut lent[before..]);
                (act, Memory::Lent(lent))
            }
        };
        bytes.put(memory);
        bytes.truncate(before + count_within(act, room));
        act
    }

    /// Transactions in a row at an endpoint to which no packet is sent, at most so many: as long as each is met by a packet of just
    /// `size` bytes, which joins the others in `bytes`. How many they were. A device may stop before it has to, so none is always right:
    /// what it leaves is asked for one by one.
    #[tactic(auto, using(crate::proofs::Skims::none_whole, crate::proofs::Skims::none_behind, crate::proofs::Skims::none_read))]
    fn skim_in(&mut self, ep: EpAddr, size: usize, most: usize, bytes: &mut Buffer) -> usize
        requires room { length bytes.old.items + most * size ≤ bytes.old.capacity }
        ensures most { result ≤ most }
        ensures whole { are_whole size result (pipe_at (pipes self.old) ep) ≡ true }
        ensures pipes { pipes self.new ≡ slice_set (pipes self.old) (endpoint_id ep) (pipe_behind result (pipe_at (pipes self.old) ep)) }
        ensures bytes { bytes.new.items ≡ bytes.old.items ++ read_in result (pipe_at (pipes self.old) ep) }
        ensures capacity { bytes.old.capacity ≤ bytes.new.capacity }
        ensures lent { bytes.new.lent ≡ bytes.old.lent }
        ensures length { length bytes.new.items ≡ length bytes.old.items + result * size }
    {
        let _ = (ep, size, most, bytes.len());
        0
    }

    /// Transactions in a row at an endpoint, at most so many, to which these bytes are sent, `size` to a packet: as long as each is taken.
    /// How many they were; a device may stop before it has to.
    #[tactic(auto, using(crate::proofs::Skims::none_taken, crate::proofs::Skims::none_given))]
    fn skim_out(&mut self, ep: EpAddr, size: usize, most: usize, bytes: &[u8]) -> usize
        requires size { size ≤ (pipe_at (pipes self.old) ep).size }
        requires bytes { most * size ≤ length bytes.now }
        ensures most { result ≤ most }
        ensures taken { are_taken size bytes.now result (pipe_at (pipes self.old) ep) ≡ true }
        ensures pipes { pipes self.new ≡ slice_set (pipes self.old) (endpoint_id ep) (pipe_given size bytes.now result (pipe_at (pipes self.old) ep)) }
    {
        let _ = (ep, size, most, bytes.len());
        0
    }

    /// Whether an endpoint has an answer left, or is halted; else it isn't ready.
    fn ready(&self, ep: EpAddr) -> bool
        ensures ready { result ≡ is_ready (pipe_at (pipes self.now) ep) }
        ensures lawful { IsLawful (pipes self.now) };

    /// The packet of index `i`, from 0 on, among those that an endpoint took since it was rewound; None past the last.
    fn taken(&self, ep: EpAddr, i: usize) -> Option<&[u8]>
        ensures { option_copied result ≡ slice_get (pipe_at (pipes self.now) ep).taken i };

    /// Goes back to the beginning of an endpoint's script. It isn't halted, and has taken nothing.
    fn rewind(&mut self, ep: EpAddr)
        ensures pipes { pipes self.new ≡ slice_set (pipes self.old) (endpoint_id ep) (rewound (pipe_at (pipes self.old) ep)) }
        ensures lawful { IsLawful (pipes self.new) };

    /// Clears an endpoint's halt (USB 2.0, 9.4.5, ENDPOINT_HALT). It goes on in its script.
    fn clear_halt(&mut self, ep: EpAddr)
        ensures pipes { pipes self.new ≡ slice_set (pipes self.old) (endpoint_id ep) (cleared (pipe_at (pipes self.old) ep)) }
        ensures lawful { IsLawful (pipes self.new) };
}
