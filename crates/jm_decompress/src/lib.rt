//! What `decompress` reads and writes: the resources of an image whose contents may be compressed,
//! their contents, and the image of these as it is without compression.
#![tactic(auto)]

mod contents;
mod decompressing;
mod held;
mod resources;
mod stored_file;
mod told;

pub use decompressing::decompress;
pub use stored_file::StoredFile;
