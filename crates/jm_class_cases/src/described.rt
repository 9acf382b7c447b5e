//! What a class says of a module.

use crate::texts::put_stored;
use jm_bytes::Or;
use jm_modinfo::{Descriptor, Need, describe_bytes};
use std::alloc::{AllocError, Global};

/// Puts a name that is required, with a `!` behind it if it is mandated.
fn put_need(told: &mut String, need: &Need) -> Result<(), AllocError> {
    told.push(' ')?;
    put_stored(told, need.name.as_slice())?;
    if need.flags == 0x8000 {
        told.push('!')?;
    }
    Ok(())
}

/// Puts a module's name and what it requires, and its main class.
fn put_descriptor(told: &mut String, found: &Descriptor) -> Result<(), AllocError> {
    put_stored(told, found.name.as_slice())?;
    for need in found.needs.as_slice() {
        put_need(told, need)?;
    }
    if let Some(class) = &found.main {
        told.push_str("; main ")?;
        put_stored(told, class.as_slice())?;
    }
    Ok(())
}

/// Puts what bytes say of a module for a release, or the fault that they have as one.
pub fn put_described(
    told: &mut String,
    alloc: Global,
    release: u32,
    bytes: &[u8],
) -> Result<(), AllocError> {
    match describe_bytes(alloc, release, bytes) {
        Ok(found) => put_descriptor(told, &found),
        Err(Or::Fault(fault)) => write!(told, "{fault}"),
        Err(Or::Memory) => told.push_str("no memory"),
    }
}
