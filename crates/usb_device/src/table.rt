//! A device that answers by a table of scripts.

ghost use Rattle.std.specs.Prelude.{◌≡◌, ◌≤◌, true, IfErr, IfOk, OnErr, OnOk, drop, length, map, if◌then◌else◌};
ghost use Rattle.std.specs.List.{range_with_len};
ghost use Rattle.std.specs.Vec.Iter.{into_iter_items};
ghost use Rattle.usb_model.specs.declared.refused.Refused.TheVariants.{InvalidParam, NoMem};
ghost use Rattle.usb_device.specs.Feeds.{may_be_fed, pipe_fed};
ghost use Rattle.usb_device.specs.Pipe.{pipe_at};
ghost use Rattle.usb_device.specs.Scripts.{Takes, are_scripts, pipes_of, rooms_of, script_by};

use crate::device::{Act, Device};
use crate::feed::Feed;
use crate::pipe::TablePipe;
use crate::scripted::Scripted;
use crate::scripts::{acks, are_scripts, is_answer, script_by, size_by};
use crate::taken::TakenPackets;
use std::alloc::{AllocError, Global};
use std::marker::Model;
use std::vec::IntoIter;
use thiserror::Error;
use usb_descriptors::Config;
use usb_model::limits::LONGEST_SCRIPT;
use usb_model::{Buffer, EpAddr, Refused, Response, Script, Sequence};

/// The endpoint ids of a device: 0 to 31 (xHCI 1.2, 4.5.1).
const IDS: usize = 32;

/// A device of scripts, one for each endpoint id. Contracts see the list of its endpoints.
#[derive(Drop)]
pub struct TableDevice {
    pipes: Vec<TablePipe>,
}

impl Model for TableDevice {
    ghost use Rattle.std.specs.Prelude.{List};
    ghost use Rattle.usb_device.specs.Pipe.{Pipe, IsLawful};

    ghost Value = { List Pipe };

    ghost view = { λ d. d.pipes.items };

    ghost invariant = { λ d. IsLawful d.pipes.items };
}

/// Why no device was made, with the scripts as they were.
#[derive(Debug, Drop, Error)]
#[error("{why}")]
pub struct MakeDeviceError {
    /// InvalidParam or NoMem.
    pub why: Refused,
    /// The scripts that were given.
    pub scripts: Sequence<Script>,
}

/// Room for the packets that each script takes, by endpoint id.
fn make_rooms(
    alloc: Global,
    config: &Config,
    scripts: &[Script],
) -> Result<Vec<TakenPackets>, AllocError>
    requires { are_scripts config.now scripts.now ≡ true }
    ensures { IfOk result (λ rooms. rooms.items ≡ rooms_of config.now scripts.now) }
{
    let mut rooms = Vec::with_capacity(alloc, IDS)?;
    for id in 0..IDS {
        let places = acks(script_by(scripts, id));
        rooms.push(TakenPackets::new(alloc, places, size_by(config, id))?)?;
    }
    Ok(rooms)
}

/// The answers of the next script; none behind the last.
fn next_script(alloc: Global, scripts: &mut IntoIter<Script>) -> Vec<Response>
    ensures script { result.items ≡ script_by (into_iter_items scripts.old) 0 }
    ensures rest { into_iter_items scripts.new ≡ drop 1 (into_iter_items scripts.old) }
{
    match scripts.next() {
        Some(script) => script.into_vec(),
        None => Vec::new(alloc),
    }
}

impl TableDevice {
    /// A device of this configuration that answers by these scripts, at the endpoint ids of their places (`EpAddr::id`); past the
    /// last, scripts are empty. InvalidParam where a script has an answer and no endpoint has its id, or an answer of the wrong
    /// direction (an Ack for IN, Data for OUT), a packet longer than `LARGEST_PACKET`, or more than `LONGEST_SCRIPT` answers;
    /// else NoMem where memory is refused. No later call takes memory but `Feed::feed`.
    pub fn new(
        alloc: Global,
        config: &Config,
        scripts: Sequence<Script>,
    ) -> Result<TableDevice, MakeDeviceError>
        ensures made { IfOk result (λ d. ⟦<TableDevice as Device>⟧.pipes d ≡ pipes_of config.now scripts) }
        ensures takes { IfOk result (λ d. Takes config.now (⟦<TableDevice as Device>⟧.pipes d)) }
        ensures fit { OnOk result (are_scripts config.now scripts ≡ true) }
        ensures why { IfErr result (λ u. u.why ≡ (if are_scripts config.now scripts then NoMem else InvalidParam)) }
        ensures back { IfErr result (λ u. u.scripts ≡ scripts) }
    {
        if !are_scripts(config, scripts.as_slice()) {
            let why = Refused::InvalidParam;
            return Err(MakeDeviceError { why, scripts });
        }
        let Ok(rooms) = make_rooms(alloc, config, scripts.as_slice()) else {
            let why = Refused::NoMem;
            return Err(MakeDeviceError { why, scripts });
        };
        let Ok(mut pipes) = Vec::with_capacity(alloc, IDS) else {
            let why = Refused::NoMem;
            return Err(MakeDeviceError { why, scripts });
        };
        let mut scripts = scripts.into_vec().into_iter();
        for room in rooms {
            pipes.push_reserved(TablePipe::new(next_script(alloc, &mut scripts), room));
        }
        Ok(TableDevice { pipes })
    }
}

impl Device for TableDevice {
    ghost pipes = { λ d. d };

    fn answer(&mut self, ep: EpAddr, out: Option<&[u8]>, buf: &mut [u8]) -> Act {
        let pipe = &mut self.pipes[usize::from(ep.id())];
        pipe.answer(out, buf)
    }

    fn answer_in(&mut self, ep: EpAddr, room: usize, bytes: &mut Buffer) -> Act {
        let pipe = &mut self.pipes[usize::from(ep.id())];
        pipe.answer_in(room, bytes)
    }

    #[tactic(auto, using(crate::proofs::Skims::script_behind))]
    fn skim_in(&mut self, ep: EpAddr, size: usize, most: usize, bytes: &mut Buffer) -> usize {
        let pipe = &mut self.pipes[usize::from(ep.id())];
        pipe.skim_in(size, most, bytes)
    }

    #[tactic(auto, using(crate::proofs::Skims::script_given))]
    fn skim_out(&mut self, ep: EpAddr, size: usize, most: usize, bytes: &[u8]) -> usize {
        let pipe = &mut self.pipes[usize::from(ep.id())];
        pipe.skim_out(size, most, bytes)
    }

    fn ready(&self, ep: EpAddr) -> bool {
        self.pipes[usize::from(ep.id())].ready()
    }

    fn taken(&self, ep: EpAddr, i: usize) -> Option<&[u8]> {
        self.pipes[usize::from(ep.id())].taken(i)
    }

    fn rewind(&mut self, ep: EpAddr) {
        let pipe = &mut self.pipes[usize::from(ep.id())];
        pipe.rewind();
    }

    fn clear_halt(&mut self, ep: EpAddr) {
        let pipe = &mut self.pipes[usize::from(ep.id())];
        pipe.clear_halt();
    }
}

impl Scripted for TableDevice {
    fn answers_left(&self, ep: EpAddr) -> usize {
        self.pipes[usize::from(ep.id())].answers_left()
    }

    fn is_halted(&self, ep: EpAddr) -> bool {
        self.pipes[usize::from(ep.id())].is_halted()
    }
}

/// Whether an endpoint of this address may have one more answer.
fn may_be_fed(ep: EpAddr, answer: &Response, pipe: &TablePipe) -> bool
    ensures { result ≡ may_be_fed ep answer.now pipe.now }
{
    pipe.size() > 0 && is_answer(ep.is_in(), answer) && pipe.script_len() < LONGEST_SCRIPT
}

/// One more answer at the endpoint of this address.
fn feed_at(ep: EpAddr, answer: Response, pipe: &mut TablePipe) -> Result<(), Refused>
    ensures fed { OnOk result (pipe.new ≡ pipe_fed answer pipe.old) }
    ensures may { OnOk result (may_be_fed ep answer pipe.old ≡ true) }
    ensures stays { OnErr result (pipe.new ≡ pipe.old) }
    ensures why { IfErr result (λ why. why ≡ (if may_be_fed ep answer pipe.old then NoMem else InvalidParam)) }
{
    if !may_be_fed(ep, &answer, pipe) {
        return Err(Refused::InvalidParam);
    }
    match pipe.feed(answer) {
        Ok(()) => Ok(()),
        Err(_) => Err(Refused::NoMem),
    }
}

impl Feed for TableDevice {
    fn feed(&mut self, ep: EpAddr, answer: Response) -> Result<(), Refused> {
        feed_at(ep, answer, &mut self.pipes[usize::from(ep.id())])
    }
}
