//! The journal that is kept in memory.

ghost use Rattle.std.specs.Prelude.{◌≡◌, ◌++◌, ◌+◌, ◌-◌, ◌^◌, ◌<◌, ◌≤◌, ◌==◌, ◌∷◌, ℕ, List, [], IfOk, IfSome, OnOk, length, slice_get, vec_capacity, vec_len};
ghost use Rattle.usb_model.specs.declared.reply.Reply.TheVariants.{Called};
ghost use Rattle.usb_model.specs.declared.step.Step.TheVariants.{Take};
ghost use Rattle.usb_recorder.specs.declared.kept.CompactStep.TheVariants.{Take as TakeAsked};
ghost use Rattle.usb_recorder.specs.declared.kept.LongEntry.{LongEntry};
ghost use Rattle.usb_recorder.specs.declared.place.Place.{Place};
ghost use Rattle.usb_recorder.specs.declared.short.ResultTail.{ResultTail};
ghost use Rattle.usb_recorder.specs.Kept.{HasRoom, IsThere, of_name, place_in, reply_of, step_of};
ghost use Rattle.usb_recorder.specs.Records.{bytes_in};

use crate::kept::{CompactReply, CompactStep, LongEntry, given_by, sent_by};
use crate::place::Place;
use crate::reader;
use crate::recorder::Recorder;
use crate::short::{PackedEntry, ResultTail};
use std::alloc::{AllocError, Global};
use std::marker::Model;
use usb_model::{Entry, Name, Reply, Returned, Step};

/// Keeps each place in few bytes. What a result has beyond them, and all of a place that isn't short, stands with others of its kind,
/// and the bytes of all places stand in one buffer.
#[derive(Drop)]
pub struct Journal {
    shorts: Vec<PackedEntry>,
    rests: Vec<ResultTail>,
    longs: Vec<LongEntry>,
    bytes: Vec<u8>,
    used: usize,
    /// For how many more places there is room, of whichever kind they are.
    room: usize,
}

/// For how many more places room is made at least, so that it needn't be asked for each.
const AHEAD: usize = 64;

/// A step without its bytes, which stand in the buffer.
#[derive(Drop)]
pub struct Draft {
    asked: CompactStep,
}

/// Contracts see the places. Behind the bytes of these stand those of a step that is drafted.
impl Model for Journal {
    ghost use Rattle.std.specs.Prelude.{◌+◌, ◌≤◌, drop, map, vec_capacity, vec_len};
    ghost use Rattle.usb_recorder.specs.Kept.{AreAmong, AreThere, AreWithin, Journaled, place_in};

    ghost Value = { Journaled };

    ghost view = { λ j. record { places = map (place_in j.bytes.items j.rests.items j.longs.items) j.shorts.items; drafted = drop j.used j.bytes.items; room = j.room; filled = vec_len j.bytes; bytes_capacity = vec_capacity j.bytes } };

    ghost invariant = { λ j. (j.used ≤ vec_len j.bytes) × AreAmong j.used j.rests.items × AreWithin j.used j.longs.items × AreThere (vec_len j.rests) (vec_len j.longs) j.shorts.items × (vec_len j.shorts + j.room ≤ vec_capacity j.shorts) × (vec_len j.rests + j.room ≤ vec_capacity j.rests) × (vec_len j.longs + j.room ≤ vec_capacity j.longs) };
}

impl Journal {
    /// How many places there are.
    pub fn len(&self) -> usize
        ensures { result ≡ length self.now.places }
    {
        self.shorts.len()
    }

    /// Whether there is none.
    pub fn is_empty(&self) -> bool
        ensures { result ≡ (length self.now.places == 0) }
    {
        self.shorts.is_empty()
    }

    /// Copies of all places, in order. An error where memory is wanting.
    pub fn places(&self, alloc: Global) -> Result<Vec<Place>, AllocError>
        ensures { IfOk result (λ places. places.items ≡ self.now.places) }
    {
        let mut places = Vec::new(alloc);
        for short in self.shorts.iter() {
            places.push(reader::place_in(
                alloc,
                short,
                self.rests.as_slice(),
                self.longs.as_slice(),
                self.bytes.as_slice(),
            )?)?;
        }
        Ok(places)
    }

    /// Makes room for so many more places.
    #[inline(never)]
    fn make_room(&mut self, places: usize) -> Result<(), AllocError>
        ensures room { OnOk result (places ≤ self.new.room) }
        ensures same { (self.new.places ≡ self.old.places) × (self.new.filled ≡ self.old.filled) × (self.new.bytes_capacity ≡ self.old.bytes_capacity) }
    {
        let room = if places < AHEAD { AHEAD } else { places };
        self.shorts.reserve(room)?;
        self.rests.reserve(room)?;
        self.longs.reserve(room)?;
        self.room = room;
        Ok(())
    }

    /// Keeps one place more, where that is short.
    #[inline(always)]
    fn keep_short(&mut self, short: PackedEntry)
        requires room { 1 ≤ self.old.room }
        requires here { (rests longs : ℕ) → IsThere rests longs short }
        ensures places { (p : Place) → ((bytes : List ℕ) (rests : List ResultTail) (longs : List LongEntry) → place_in bytes rests longs short ≡ p) → self.new.places ≡ self.old.places ++ p ∷ [] }
        ensures room { (places bytes : ℕ) → HasRoom self.old places bytes → HasRoom self.new (places - 1) bytes }
    {
        self.shorts.push_reserved(short);
        self.room -= 1;
    }

    /// Keeps one place more, of a result that goes out.
    #[inline(never)]
    fn keep_result(&mut self, caller: u32, returned: &Returned, moment: u64)
        requires room { HasRoom self.old 1 (length returned.now.bytes) }
        requires count { length returned.now.bytes < 2 ^ 32 }
        ensures places { self.new.places ≡ self.old.places ++ record { step = Take; caller = caller; entry = of_name returned.now.h (Called returned.now); moment = moment } ∷ [] }
        ensures room { (places bytes : ℕ) → HasRoom self.old places bytes → HasRoom self.new (places - 1) (bytes - length returned.now.bytes) }
    {
        let bytes = returned.bytes.as_slice();
        let from = self.bytes.len();
        append(&mut self.bytes, bytes);
        self.shorts.push_reserved(PackedEntry::Called {
            h: returned.h,
            ep: returned.ep,
            status: returned.status,
            caller,
            moment,
            n: returned.n,
            at: self.rests.len(),
        });
        self.rests.push_reserved(ResultTail {
            round: returned.round,
            from,
            count: bytes.len() as u32,
            actual: returned.actual,
        });
        self.used = self.bytes.len();
        self.room -= 1;
    }

    /// Keeps one place more, of any kind, of the step that was drafted last.
    #[inline(never)]
    fn keep_long(
        &mut self,
        asked: CompactStep,
        caller: u32,
        owner: Option<Name>,
        replied: CompactReply,
        given: &[u8],
        moment: u64,
    )
        requires room { HasRoom self.old 1 (length given.now) }
        ensures places { self.new.places ≡ self.old.places ++ record { step = step_of asked self.old.drafted; caller = caller; entry = record { owner = owner; reply = reply_of replied given.now }; moment = moment } ∷ [] }
        ensures room { (places bytes : ℕ) → HasRoom self.old places bytes → HasRoom self.new (places - 1) (bytes - length given.now) }
    {
        let from = self.used;
        let sent = self.bytes.len() - from;
        append(&mut self.bytes, given);
        self.shorts
            .push_reserved(PackedEntry::Long(self.longs.len()));
        self.longs.push_reserved(LongEntry {
            from,
            sent,
            given: given.len(),
            moment,
            asked,
            replied,
            caller,
            owner,
        });
        self.used = self.bytes.len();
        self.room -= 1;
    }

    /// The same with its entry, taken apart.
    #[inline(always)]
    fn keep_any(&mut self, asked: CompactStep, caller: u32, entry: &Entry, moment: u64)
        requires room { HasRoom self.old 1 (bytes_in entry.now.reply) }
        ensures places { self.new.places ≡ self.old.places ++ record { step = step_of asked self.old.drafted; caller = caller; entry = entry.now; moment = moment } ∷ [] }
        ensures room { (places bytes : ℕ) → HasRoom self.old places bytes → HasRoom self.new (places - 1) (bytes - bytes_in entry.now.reply) }
    {
        let replied = CompactReply::of(&entry.reply);
        let given = given_by(&entry.reply);
        self.keep_long(asked, caller, entry.owner, replied, given, moment);
    }

    /// The same with an entry that stands in memory as a whole: it is taken apart out of line, else it would be wherever a step is made.
    #[inline(never)]
    fn keep_handed(&mut self, asked: CompactStep, caller: u32, entry: &Entry, moment: u64)
        requires room { HasRoom self.old 1 (bytes_in entry.now.reply) }
        ensures places { self.new.places ≡ self.old.places ++ record { step = step_of asked self.old.drafted; caller = caller; entry = entry.now; moment = moment } ∷ [] }
        ensures room { (places bytes : ℕ) → HasRoom self.old places bytes → HasRoom self.new (places - 1) (bytes - bytes_in entry.now.reply) }
    {
        self.keep_any(asked, caller, entry, moment);
    }
}

/// These bytes go behind the others, where there is room.
fn append(bytes: &mut Vec<u8>, more: &[u8])
    requires { vec_len bytes.old + length more.now ≤ vec_capacity bytes.old }
    ensures items { bytes.new.items ≡ bytes.old.items ++ more.now }
    ensures len { vec_len bytes.new ≡ vec_len bytes.old + length more.now }
    ensures capacity { vec_capacity bytes.old ≤ vec_capacity bytes.new }
{
    if !more.is_empty() {
        // There is room, so that this can't fail.
        let _ = bytes.extend_from_slice(more);
    }
}

/// Whether the core hands out the entry of a step whole, and no part of it is made here.
#[inline(always)]
fn is_handed_on(asked: &CompactStep) -> bool {
    matches!(
        asked,
        CompactStep::Serve { .. } | CompactStep::Deliver | CompactStep::Take
    )
}

/// The result that goes out, if it is one of its name's own, of fewer than 2^32 bytes.
#[inline(always)]
fn result_in<'a>(asked: &CompactStep, entry: &'a Entry) -> Option<&'a Returned>
    ensures { IfSome result (λ r. (asked.now ≡ TakeAsked) × (entry.now ≡ of_name r.now.h (Called r.now)) × (length r.now.bytes < 2 ^ 32)) }
{
    match asked {
        CompactStep::Take => match &entry.reply {
            Reply::Called(returned)
                if returned.h.is_its(entry.owner)
                    && returned.bytes.as_slice().len() <= u32::MAX as usize => { Some(returned) }
            _ => None,
        },
        _ => None,
    }
}

impl Recorder for Journal {
    ghost use Rattle.std.specs.Prelude.{◌≡◌, ◌+◌, ◌≤◌};
    ghost use Rattle.usb_recorder.specs.Kept.{HasRoom, step_of};

    type Draft = Draft;

    ghost stands = { λ j journal. j.places ≡ journal };

    ghost has_room = { HasRoom };

    ghost is_draft = { λ j draft step. step_of draft.asked j.drafted ≡ step };

    fn new(alloc: Global) -> Journal {
        Journal {
            shorts: Vec::new(alloc),
            rests: Vec::new(alloc),
            longs: Vec::new(alloc),
            bytes: Vec::new(alloc),
            used: 0,
            room: 0,
        }
    }

    #[inline(always)]
    fn reserve(&mut self, places: usize, bytes: usize) -> Result<(), AllocError> {
        if self.room < places {
            self.make_room(places)?;
        }
        self.bytes.reserve(bytes)
    }

    #[inline(always)]
    fn draft(&mut self, step: &Step) -> Draft {
        // What is left of a step that found no memory goes first.
        self.bytes.truncate(self.used);
        append(&mut self.bytes, sent_by(step));
        Draft {
            asked: CompactStep::of(step),
        }
    }

    #[inline(always)]
    fn keep(&mut self, draft: Draft, caller: u32, entry: &Entry, moment: u64) {
        let Draft { asked } = draft;
        if let Some(returned) = result_in(&asked, entry) {
            self.keep_result(caller, returned, moment);
            return;
        }
        match PackedEntry::of(&asked, caller, entry, moment) {
            Some(short) => self.keep_short(short),
            None if is_handed_on(&asked) => self.keep_handed(asked, caller, entry, moment),
            None => self.keep_any(asked, caller, entry, moment),
        }
    }
}
