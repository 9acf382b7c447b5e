//! What is told, as a text that is compared.

use jm_bytes::copy_of;
use std::alloc::Global;
use std::test::Fail;

/// Some bytes as a text.
pub fn text_of(alloc: Global, bytes: &[u8]) -> Result<String, Fail> {
    Ok(String::from_utf8(copy_of(alloc, bytes)?)?)
}
