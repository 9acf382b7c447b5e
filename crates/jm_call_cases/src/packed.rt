//! What deflate and zlib streams come to.

use crate::lines::number_in;
use jm_bytes::Or;
use jm_inflate::{Fault, ZlibFault, adler, crc32, inflate, zlib};
use std::alloc::{AllocError, Global};

/// How many bytes were given, and both their sums.
fn sums_of(alloc: Global, given: &[u8]) -> Result<String, AllocError> {
    let (adler, crc) = (adler(given), crc32(given));
    format!(in alloc; "{} bytes, adler {adler}, crc {crc}", given.len())
}

/// What the deflate stream in front gives, and where the bytes behind it begin; or its fault.
pub fn told_inflated(
    alloc: Global,
    limit: &[u8],
    bytes: &[u8],
) -> Result<Option<String>, AllocError> {
    let Some(limit) = number_in(alloc, limit)? else {
        return Ok(None);
    };
    Ok(Some(match inflate(alloc, bytes, limit as usize) {
        Ok((given, end)) => {
            let mut told = sums_of(alloc, given.as_slice())?;
            write!(told, ", to {end}")?;
            told
        }
        Err(Or::Fault(Fault::Stream(at))) => format!(in alloc; "Stream {at}")?,
        Err(Or::Fault(Fault::TooMuch)) => format!(in alloc; "TooMuch")?,
        Err(Or::Memory) => return Err(AllocError),
    }))
}

/// What a zlib stream of so many bytes gives, or its fault.
pub fn told_unzipped(
    alloc: Global,
    size: &[u8],
    bytes: &[u8],
) -> Result<Option<String>, AllocError> {
    let Some(size) = number_in(alloc, size)? else {
        return Ok(None);
    };
    Ok(Some(match zlib(alloc, bytes, size as usize) {
        Ok(given) => sums_of(alloc, given.as_slice())?,
        Err(Or::Fault(ZlibFault::Stream(at))) => format!(in alloc; "Stream {at}")?,
        Err(Or::Fault(ZlibFault::Size)) => format!(in alloc; "Size")?,
        Err(Or::Fault(ZlibFault::Check)) => format!(in alloc; "Check")?,
        Err(Or::Memory) => return Err(AllocError),
    }))
}
