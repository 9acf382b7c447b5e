//! Patterns, and lists of them.

use jm_bytes::Or;
use jm_pattern::{Pattern, PatternFault, read_list};
use std::alloc::{AllocError, Global};

fn matches(alloc: Global, pattern: &[u8], name: &[u8]) -> Result<bool, Or<PatternFault>> {
    Ok(Pattern::parse(alloc, pattern)?.matches(name))
}

/// Whether a name matches a pattern.
pub fn told_match(alloc: Global, pattern: &[u8], name: &[u8]) -> Result<String, AllocError> {
    let got = matches(alloc, pattern, name);
    format!(in alloc; "{got:?}")
}

/// Why a text is no pattern.
pub fn told_fault(alloc: Global, text: &[u8]) -> Result<String, AllocError> {
    let fault = Pattern::parse(alloc, text).err();
    format!(in alloc; "{fault:?}")
}

fn first_match(alloc: Global, list: &[u8], name: &[u8]) -> Result<Option<usize>, Or<PatternFault>> {
    let patterns = read_list(alloc, list)?;
    Ok(
        patterns
            .as_slice()
            .iter()
            .position(|pattern| pattern.matches(name)),
    )
}

/// Which pattern of a list is the first that a name matches.
pub fn told_first(alloc: Global, list: &[u8], name: &[u8]) -> Result<String, AllocError> {
    let got = first_match(alloc, list, name);
    format!(in alloc; "{got:?}")
}
