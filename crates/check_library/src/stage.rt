//! Threads that play over a library that lives, and what it leaves.

use crate::acts::Act;
use crate::callback::SceneCallback;
use crate::player::Player;
use crate::signals::{Mark, Signals};
use crate::turnstile::{Stop, Turnstile};
use anyhow::{Result, anyhow};
use crossbeam_utils::sync::Parker;
use example_devices::Reader;
use std::alloc::{AllocError, Global};
use std::result;
use std::sync::Wait;
use std::thread::Threads;
use usb_core::Setup;
use usb_device::Device;
use usb_journal::{Journal, Place, Recorder};
use usb_model::{Entry, Reply};
use usb_workers::{Gates, Lived, live_gated};

/// What a thread leaves, or that it waited in vain.
pub type Left = result::Result<Vec<Reply>, AllocError>;

/// What is left of a library in a scene.
type Life<'a, D, J> = Lived<SceneCallback<'a>, D, J, Left>;

/// What a scene saw.
#[derive(Drop)]
pub struct Seen {
    /// Its journal.
    pub places: Vec<Place>,
    /// What each thread was answered.
    pub replies: Vec<Vec<Reply>>,
    /// How many callbacks ended early.
    pub cuts: u64,
    /// Whether a worker was refused memory.
    pub lacked_memory: bool,
}

/// Threads of these handles that do these acts. The first may park.
pub fn players<'a>(
    alloc: Global,
    readers: &[Reader],
    threads: &[&'a [Act]],
    signals: &'a Signals,
    parker: Parker,
) -> Result<Vec<Player<'a>>> {
    let mut players = Vec::new(alloc);
    let mut parker = Some(parker);
    for ((reader, acts), called) in readers.iter().zip(threads).zip(&signals.called) {
        players.push(Player {
            reader: *reader,
            acts: *acts,
            signals,
            called,
            parker: parker.take(),
            alloc,
        })?;
    }
    Ok(players)
}

/// What is looked at of a library's life: its journal, what its threads left, and what its workers met. The core goes.
#[derive(Drop)]
pub struct Remains<J> {
    /// What was kept of its journal.
    pub kept: J,
    /// What its threads left.
    pub left: Vec<Left>,
    /// How many callbacks ended early.
    pub cuts: u64,
    /// Whether a worker was refused memory.
    pub lacked_memory: bool,
}

/// What is looked at of a library's life.
fn remains_of<D: Device, J: Drop>(life: Life<'_, D, J>) -> Remains<J> {
    let Lived {
        kept,
        left,
        cuts,
        lacked_memory,
        ..
    } = life;
    Remains {
        kept,
        left,
        cuts,
        lacked_memory,
    }
}

/// What remains of a library that lives over the devices with these players.
pub fn lived<'a, D: Device + Send, J: Recorder + Send, R: Threads + Wait + Sync>(
    rt: &R,
    alloc: Global,
    setup: Setup<D>,
    gates: Gates<Turnstile<'a>>,
    players: Vec<Player<'a>>,
) -> result::Result<Remains<J>, AllocError>
where
    J::Draft: Send,
{
    let life = live_gated::<SceneCallback<'a>, D, J, Turnstile<'a>, Player<'a>, R>(
        rt,
        alloc,
        setup,
        gates,
        u64::MAX,
        players,
    )?;
    Ok(remains_of(life))
}

/// What all threads were answered. An error where one waited in vain.
pub fn all_played(alloc: Global, left: Vec<Left>) -> Result<Vec<Vec<Reply>>> {
    let mut all = Vec::new(alloc);
    for played in left {
        all.push(played.map_err(|_| anyhow!("a thread waited in vain"))?)?;
    }
    Ok(all)
}

/// What was seen. An error where a thread waited in vain.
fn seen_of(alloc: Global, remains: Remains<Journal>) -> Result<Seen> {
    let Remains {
        kept,
        left,
        cuts,
        lacked_memory,
    } = remains;
    Ok(Seen {
        places: kept.places(alloc)?,
        replies: all_played(alloc, left)?,
        cuts,
        lacked_memory,
    })
}

/// What these players saw. An error where a worker or a callback was held for too long.
fn play_with<'a, D: Device + Send, R: Threads + Wait + Sync>(
    rt: &R,
    alloc: Global,
    setup: Setup<D>,
    signals: &'a Signals,
    gates: Gates<Turnstile<'a>>,
    players: Vec<Player<'a>>,
) -> Result<Seen> {
    let remains = lived::<D, Journal, R>(rt, alloc, setup, gates, players)?;
    if signals.is_said(Mark::Late) {
        return Err(anyhow!("a worker waited in vain"));
    }
    seen_of(alloc, remains)
}

/// Plays these threads over the devices, each of a handle, where workers go by rows of at most so many steps and are held at a
/// stop. An error where one waited in vain.
pub fn play<D: Device + Send, R: Threads + Wait + Sync>(
    rt: &R,
    alloc: Global,
    setup: Setup<D>,
    stop: Stop,
    burst: u32,
    readers: &[Reader],
    threads: &[&[Act]],
) -> Result<Seen> {
    let parker = Parker::new(alloc)?;
    let signals = Signals::new(alloc, threads.len(), parker.unparker().clone()?)?;
    let players = players(alloc, readers, threads, &signals, parker)?;
    let gates = Turnstile::both(stop, burst, &signals);
    play_with(rt, alloc, setup, &signals, gates, players)
}

/// The line of an entry, behind these.
fn add_line(alloc: Global, lines: &mut String, entry: &Entry) -> Result<()> {
    let line = format!(in alloc; "{entry}\n")?;
    Ok(lines.push_str(line.as_str())?)
}

impl Seen {
    /// What its callbacks were told, as printed lines.
    pub fn told(&self, alloc: Global) -> Result<String> {
        let mut lines = String::new(alloc);
        for place in &self.places {
            if matches!(&place.entry.reply, Reply::Called(_)) {
                add_line(alloc, &mut lines, &place.entry)?;
            }
        }
        Ok(lines)
    }

    /// Whether its callbacks were told one of these.
    pub fn is_told_one_of(&self, alloc: Global, endings: &[&str]) -> Result<bool> {
        let told = self.told(alloc)?;
        Ok(endings.iter().any(|ending| told.as_str() == *ending))
    }

    /// How many its callbacks are, and whether their numbers rise from 0 on.
    pub fn callbacks(&self) -> (u64, bool) {
        let (mut count, mut is_in_order): (u64, bool) = (0, true);
        for place in &self.places {
            if let Reply::Called(returned) = &place.entry.reply {
                is_in_order = is_in_order && returned.n == count;
                count = count.saturating_add(1);
            }
        }
        (count, is_in_order)
    }

    /// What the first thread was answered at last.
    pub fn last_answer(&self, alloc: Global) -> Result<String> {
        let Some(replies) = self.replies.first() else {
            return Ok(String::new(alloc));
        };
        match replies.last() {
            Some(reply) => Ok(format!(in alloc; "{reply}")?),
            None => Ok(String::new(alloc)),
        }
    }

    /// What the first thread was answered, without its owner, a comma between two.
    pub fn answers(&self, alloc: Global) -> Result<String> {
        let mut answers = String::new(alloc);
        let Some(first) = self.replies.first() else {
            return Ok(answers);
        };
        for reply in first {
            let comma = if answers.as_str().is_empty() {
                ""
            } else {
                ", "
            };
            let answer = format!(in alloc; "{comma}{reply}")?;
            answers.push_str(answer.as_str())?;
        }
        Ok(answers)
    }
}
