//! What a scene expects.

use anyhow::{Result, anyhow};

/// An error that names the subject and its fault, unless what is expected holds.
pub fn expect(holds: bool, subject: &str, fault: &str) -> Result<()> {
    if holds {
        Ok(())
    } else {
        Err(anyhow!("{subject}: {fault}"))
    }
}

/// What there has to be; an error that names it, where it is missing.
pub fn present<T>(value: Option<T>, what: &str) -> Result<T> {
    match value {
        Some(value) => Ok(value),
        None => Err(anyhow!("there is no {what}")),
    }
}
