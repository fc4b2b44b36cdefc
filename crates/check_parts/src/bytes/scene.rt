//! A scene, and how it is played.

use crate::bytes::device::Answers;
use crate::bytes::found::Found;
use crate::bytes::host::Host;
use crate::bytes::pattern::{fits, numbered};
use anyhow::{Result, anyhow};
use std::alloc::Global;

/// Lines, once for each of some numbers.
#[derive(Clone, Copy)]
pub struct Block {
    /// The first number.
    pub from: u64,
    /// The number behind the last.
    pub to: u64,
    /// What is done, a colon and a space, and what is told of it; `#` stands for the number. `*` at the end of what is told
    /// leaves open all that follows.
    pub lines: &'static str,
}

/// A scene: a device, and what is done with it from the beginning on.
#[derive(Clone, Copy)]
pub struct Scene {
    /// What is printed of it, before how many steps it had and what was found.
    pub title: &'static str,
    /// How many bytes a packet of the bulk endpoints has.
    pub size: u16,
    /// What the device answers.
    pub answers: &'static [Answers],
    /// What is done.
    pub blocks: &'static [Block],
}

/// What a scene saw.
#[derive(Drop)]
pub struct Seen {
    /// How many steps were told as the scene says.
    pub steps: u64,
    /// Where somebody looked, and what was found there.
    pub looks: Vec<String>,
}

/// Plays a scene. An error where another thing is told or found than it says, or where memory is refused.
pub fn play(alloc: Global, scene: &Scene) -> Result<Seen> {
    let mut host = Host::new(alloc, scene.size, scene.answers)?;
    play_blocks(alloc, &mut host, scene.blocks)
}

/// Plays blocks.
fn play_blocks(alloc: Global, host: &mut Host, blocks: &[Block]) -> Result<Seen> {
    let mut seen = Seen {
        steps: 0,
        looks: Vec::new(alloc),
    };
    for block in blocks {
        play_block(alloc, host, block, &mut seen)?;
    }
    Ok(seen)
}

/// Plays the lines of a block.
fn play_block(alloc: Global, host: &mut Host, block: &Block, seen: &mut Seen) -> Result<()> {
    for number in block.from..block.to {
        let number = number.to_string(alloc)?;
        for line in block.lines.split('\n') {
            let line = numbered(alloc, line, number.as_str())?;
            play_line(alloc, host, line.as_str(), seen)?;
        }
    }
    Ok(())
}

/// Plays one line.
fn play_line(alloc: Global, host: &mut Host, line: &str, seen: &mut Seen) -> Result<()> {
    let Some((act, told)) = line.split_once(": ") else {
        return Err(anyhow!("{line} says nothing of what is told"));
    };
    match host.find(act)? {
        Some(found) => seen.look(alloc, act, told, found),
        None => seen.step(act, told, host.tell(act)?.as_str()),
    }
}

impl Seen {
    /// Somebody looked, and this was found. An error unless it is what the scene says.
    fn look(&mut self, alloc: Global, act: &str, told: &str, found: Found) -> Result<()> {
        let found = format!(in alloc; "{found}")?;
        is_as_said(act, told, found.as_str())?;
        self.looks.push(format!(in alloc; "{act}: {found}")?)?;
        Ok(())
    }

    /// A step was made, and this was told. An error unless it is what the scene says.
    fn step(&mut self, act: &str, told: &str, found: &str) -> Result<()> {
        is_as_said(act, told, found)?;
        self.steps = self.steps.saturating_add(1);
        Ok(())
    }
}

/// An error unless what is found fits what a scene says.
fn is_as_said(act: &str, told: &str, found: &str) -> Result<()> {
    if fits(found.as_bytes(), told.as_bytes()) {
        Ok(())
    } else {
        Err(anyhow!("{act}: {found}, and not {told}"))
    }
}
