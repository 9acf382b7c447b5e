//! Images that are planned, and that are opened.

use crate::fit::are_fit;
use jm_bytes::{Or, Order};
use jm_halves::NoGate;
use jm_lines::put_bytes;
use jm_pool::Pool;
use jm_valid::{OpenError, open_image};
use jm_writer::{PlanFault, plan};
use std::alloc::{AllocError, Global};
use std::thread::Threads;

/// How long the image of a pool is in an order of bytes, or why there is none.
fn told_draft(alloc: Global, order: Order, pool: &Pool) -> Result<Option<String>, AllocError> {
    if !are_fit(pool) {
        return Ok(None);
    }
    let mut told = String::new(alloc);
    match plan(alloc, order, pool) {
        Ok(draft) => write!(told, "{} bytes", draft.length)?,
        Err(Or::Fault(PlanFault::Clash(name))) => {
            told.push_str("Clash ")?;
            put_bytes(&mut told, name.as_slice())?;
        }
        Err(Or::Fault(fault)) => write!(told, "{fault:?}")?,
        Err(Or::Memory) => return Err(AllocError),
    }
    Ok(Some(told))
}

/// The same in both orders; None where a name isn't fit for an image.
pub fn told_plan(alloc: Global, pool: &Pool) -> Result<Option<String>, AllocError> {
    let little = told_draft(alloc, Order::Little, pool)?;
    let big = told_draft(alloc, Order::Big, pool)?;
    match (little, big) {
        (Some(little), Some(big)) => Ok(Some(format!(in alloc; "{little}, big {big}")?)),
        _ => Ok(None),
    }
}

/// Whether some bytes have a damage.
fn is_damaged<T: Threads + Sync>(rt: &T, alloc: Global, bytes: &[u8]) -> bool {
    matches!(
        open_image(rt, alloc, 1, bytes, &NoGate),
        Err(OpenError::Damaged(_))
    )
}

/// The length of the shortest front of some bytes that has no damage, and their length.
pub fn told_fronts<T: Threads + Sync>(
    rt: &T,
    alloc: Global,
    bytes: &[u8],
) -> Result<String, AllocError> {
    let length = bytes.len();
    for front in 0..length {
        let (front_bytes, _) = bytes.split_at(front);
        if !is_damaged(rt, alloc, front_bytes) {
            return format!(in alloc; "{front} of {length}");
        }
    }
    let damaged = is_damaged(rt, alloc, bytes);
    format!(in alloc; "{length} of {length}, damaged {damaged}")
}
