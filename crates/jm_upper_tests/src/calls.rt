//! Objects in memory, with the numbers of their calls that fail.

use jm_bytes::{List, NoMemory, Text};
use jm_outside::{MemShelf, MemSink, MemSource};
use std::alloc::Global;

/// The numbers of calls as a list.
pub fn call_numbers(alloc: Global, numbers: &[u64]) -> Result<List<u64>, NoMemory> {
    match Vec::from_slice(alloc, numbers) {
        Ok(numbers) => Ok(List::from_vec(numbers)),
        Err(_) => Err(NoMemory),
    }
}

/// Puts a file on a shelf.
fn put(alloc: Global, shelf: &mut MemShelf, path: &str, bytes: &[u8]) -> Result<(), NoMemory> {
    let path = Text::copy_of(alloc, path.as_bytes())?;
    shelf.put_file(path, Text::copy_of(alloc, bytes)?)
}

/// A shelf of these files, each a path and its bytes.
pub fn shelf_of(
    alloc: Global,
    files: &[(&str, &[u8])],
    failing: &[u64],
) -> Result<MemShelf, NoMemory> {
    let failing = call_numbers(alloc, failing)?;
    let mut shelf = MemShelf::new(alloc);
    shelf.fail_on(failing);
    for (path, bytes) in files {
        put(alloc, &mut shelf, path, bytes)?;
    }
    Ok(shelf)
}

/// A source of these bytes, with the cuts of its calls.
pub fn source_of(
    alloc: Global,
    bytes: &[u8],
    cuts: &[usize],
    failing: &[u64],
) -> Result<MemSource, NoMemory> {
    let bytes = Text::copy_of(alloc, bytes)?;
    match Vec::from_slice(alloc, cuts) {
        Ok(cuts) => {
            let mut source = MemSource::new(bytes, List::from_vec(cuts));
            source.fail_on(call_numbers(alloc, failing)?);
            Ok(source)
        }
        Err(_) => Err(NoMemory),
    }
}

/// A sink of no byte.
pub fn sink_of(alloc: Global, failing: &[u64]) -> Result<MemSink, NoMemory> {
    let failing = call_numbers(alloc, failing)?;
    let mut sink = MemSink::new(alloc);
    sink.fail_on(failing);
    Ok(sink)
}
