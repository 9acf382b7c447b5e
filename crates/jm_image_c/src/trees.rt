ghost use Rattle.std.specs.Prelude.{◌≡◌, ◌<◌, length};
ghost use Rattle.jm_form.specs.Validity.{Valid};
ghost use Rattle.jm_jrt.specs.Stat as trees;
ghost use Rattle.jm_image_c.specs.Told.{owner_name, owner_told, put_front, standing_told};

use crate::numbers::{Owner, Standing};
use jm_bytes::{Meter, Steps};
use jm_jrt::{JrtError, Node, owner, stat};
use jm_valid::Image;
use std::sync::ledger::{Blank, Ledger};

/// What stands at a path, with counters of its own.
pub fn standing<H: Ledger, R: Ledger>(
    bytes: &[u8],
    path: &[u8],
    hashes: Blank,
    reads: Blank,
) -> Standing
    requires valid { Valid bytes.now }
    requires hashes_name { hashes.name ≡ H.name }
    requires hashes_parts { hashes.parts ≡ H.parts }
    requires hashes_some { 0 < hashes.parts }
    requires reads_name { reads.name ≡ R.name }
    requires reads_parts { reads.parts ≡ R.parts }
    requires reads_some { 0 < reads.parts }
    ensures { result ≡ standing_told (trees.stat bytes.now path.now) }
{
    let image = Image::of_valid(bytes);
    let mut hashes = Steps::<H>::new(hashes);
    let mut reads = Meter::<R>::new(bytes, reads);
    let (kind, number) = match stat(&image, path, &mut hashes, &mut reads) {
        Ok(Node::Folder(list)) => (1, list.len() as u64),
        Ok(Node::File(file)) => (2, file.len() as u64),
        Ok(Node::Link(module)) => (3, module.len() as u64),
        Err(JrtError::BadNode(place)) => (4, place as u64),
        Err(JrtError::NotThere | JrtError::NotFolder) => (0, 0),
    };
    Standing { kind, number }
}

/// Puts as many bytes of a text as there is room for into the front of the room.
fn put_front(text: &[u8], room: &mut [u8])
    ensures { room.new ≡ put_front text.now room.old }
{
    let size = text.len().min(room.len());
    room[..size].copy_from_slice(&text[..size]);
}

/// The first full owner of the package at a path, with counters of its own, and its name.
pub fn first_owner<H: Ledger, R: Ledger>(
    bytes: &[u8],
    path: &[u8],
    name: &mut [u8],
    hashes: Blank,
    reads: Blank,
) -> Owner
    requires valid { Valid bytes.now }
    requires hashes_name { hashes.name ≡ H.name }
    requires hashes_parts { hashes.parts ≡ H.parts }
    requires hashes_some { 0 < hashes.parts }
    requires reads_name { reads.name ≡ R.name }
    requires reads_parts { reads.parts ≡ R.parts }
    requires reads_some { 0 < reads.parts }
    ensures owner { result ≡ owner_told (trees.owner bytes.now path.now) }
    ensures room { length name.new ≡ length name.old }
    ensures name { name.new ≡ put_front (owner_name (trees.owner bytes.now path.now)) name.old }
{
    let image = Image::of_valid(bytes);
    let mut hashes = Steps::<H>::new(hashes);
    let mut reads = Meter::<R>::new(bytes, reads);
    let (kind, number) = match owner(&image, path, &mut hashes, &mut reads) {
        Ok(Some(module)) => {
            put_front(module, name);
            (1, module.len() as u64)
        }
        Ok(None) => (2, 0),
        Err(JrtError::BadNode(place)) => (4, place as u64),
        Err(JrtError::NotThere | JrtError::NotFolder) => (0, 0),
    };
    Owner { kind, number }
}
