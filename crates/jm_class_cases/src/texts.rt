//! Stored texts and faults as text.

use jm_bytes::Or;
use jm_class::ClassFault;
use jm_lines::put_digits;
use std::alloc::AllocError;

/// Puts a stored text, in digits where it isn't UTF-8.
pub fn put_stored(told: &mut String, bytes: &[u8]) -> Result<(), AllocError> {
    match str::from_utf8(bytes) {
        Ok(text) => told.push_str(text),
        Err(_) => put_digits(told, bytes),
    }
}

/// Puts why a class isn't read.
pub fn put_error(told: &mut String, error: Or<ClassFault>) -> Result<(), AllocError> {
    match error {
        Or::Fault(fault) => write!(told, "{fault}"),
        Or::Memory => told.push_str("no memory"),
    }
}
