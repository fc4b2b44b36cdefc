//! Scenes of the core in which the bytes of its rings have to be those of the standard (xHCI 1.2, 4.9, 6.4). Each is data:
//! what is done, and what is told and found behind it.

mod device;
pub mod found;
mod host;
mod long;
mod pattern;
mod scene;
mod short;
mod standing;

use anyhow::Result;
use scene::{Scene, Seen};

/// Plays a scene, and prints how many steps it had and what was found.
fn show(rt: &HostRuntime, scene: &Scene) -> Result<()> {
    let Seen { steps, looks } = scene::play(rt.alloc(), scene)?;
    let title = scene.title;
    println!(rt; "{title}; {steps} steps")?;
    for look in &looks {
        println!(rt; "{look}")?;
    }
    Ok(())
}

/// Plays all.
pub fn play(rt: &HostRuntime) -> Result<()> {
    for scene in short::SCENES {
        show(rt, scene)?;
    }
    for scene in long::SCENES {
        show(rt, scene)?;
    }
    for scene in standing::SCENES {
        show(rt, scene)?;
    }
    Ok(())
}
