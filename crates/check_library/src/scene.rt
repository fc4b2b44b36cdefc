//! A scene as data: what threads of one handle do over one device, and what is looked at of what they see.

use crate::acts::Act;
use crate::stage::{Seen, play};
use crate::turnstile::Stop;
use anyhow::Result;
use example_devices::{Reader, devices};
use std::alloc::Global;
use std::sync::Wait;
use std::thread::Threads;

/// What is looked at of what the first thread of a scene is answered.
#[derive(Clone, Copy)]
pub enum Answers {
    /// Each, which is always the same.
    All,
    /// The last; one before it depends on how threads happen to run.
    Last,
}

/// What is looked at of a scene's callbacks.
#[derive(Clone, Copy)]
pub enum Look {
    /// What each is told, which is always the same.
    Told,
    /// Whether they are told one of these, by how threads happen to run.
    OneOf(&'static [&'static str]),
    /// How many they are, and whether they come in order.
    Count,
}

/// A scene.
#[derive(Clone, Copy)]
pub struct Scene {
    /// What it is called.
    pub name: &'static str,
    /// The sizes of the packets with which the device answers.
    pub sizes: &'static [u16],
    /// Where workers are held: it is played once for each.
    pub stops: &'static [Stop],
    /// What each thread does, of one or two.
    pub threads: &'static [&'static [Act]],
    /// What is looked at of what the first of them is answered.
    pub answers: Answers,
    /// What is looked at of its callbacks.
    pub callbacks: Look,
}

impl Scene {
    /// Plays it once for each of its stops, and prints what is seen each time. An error where a thread waited in vain.
    pub fn play<R: Threads + Wait + Sync + Print>(&self, rt: &R, alloc: Global) -> Result<()> {
        println!(rt; "{}", self.name)?;
        for stop in self.stops {
            let seen = self.play_once(rt, alloc, *stop)?;
            self.show(rt, alloc, &seen)?;
        }
        Ok(())
    }

    /// Plays it where workers go step by step, and are held at this stop.
    fn play_once<R: Threads + Wait + Sync>(
        &self,
        rt: &R,
        alloc: Global,
        stop: Stop,
    ) -> Result<Seen> {
        let reader = Reader::new(1, 0, 0)?;
        let setup = devices(alloc, 1, 8, self.sizes)?;
        play(rt, alloc, setup, stop, 1, &[reader; 2], self.threads)
    }

    /// Prints what was seen once.
    fn show<R: Print>(&self, rt: &R, alloc: Global, seen: &Seen) -> Result<()> {
        match self.answers {
            Answers::All => println!(rt; "answered {}", seen.answers(alloc)?)?,
            Answers::Last => println!(rt; "at last answered {}", seen.last_answer(alloc)?)?,
        }
        self.show_callbacks(rt, alloc, seen)?;
        let Seen {
            cuts,
            lacked_memory,
            ..
        } = seen;
        println!(rt; "{cuts} cut short, memory refused: {lacked_memory}")?;
        Ok(())
    }

    /// Prints what was seen of its callbacks.
    fn show_callbacks<R: Print>(&self, rt: &R, alloc: Global, seen: &Seen) -> Result<()> {
        match self.callbacks {
            Look::Told => print!(rt; "{}", seen.told(alloc)?)?,
            Look::OneOf(endings) => {
                let is_one = seen.is_told_one_of(alloc, endings)?;
                println!(rt; "told one of {} endings: {is_one}", endings.len())?;
            }
            Look::Count => {
                let (count, is_in_order) = seen.callbacks();
                println!(rt; "{count} callbacks, in order: {is_in_order}")?;
            }
        }
        Ok(())
    }
}
