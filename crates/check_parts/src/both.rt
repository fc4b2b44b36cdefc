//! Scenes over two kinds of device in one setup.
//!
//! - `packets.rt`, `boxes.rt`, `memory.rt`: the scenes
//! - `kinds.rt`: a device that counts its answers; one of either kind
//! - `stand.rt`: a setup of both, which answer alike
//! - `bench.rt`, `told.rt`: a core of both, step by step; entries in lines

mod bench;
mod boxes;
mod kinds;
mod memory;
mod packets;
mod stand;
mod told;

use anyhow::Result;
use std::alloc::Global;

/// Plays the scenes.
pub fn play<P: Print>(rt: &P, alloc: Global) -> Result<()> {
    packets::play(rt, alloc)?;
    boxes::play(rt, alloc)?;
    memory::play(rt, alloc)
}
