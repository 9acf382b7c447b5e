ghost use Rattle.std.specs.Prelude.{◌≡◌, ◌+◌, ◌<◌, ◌≤◌, length, slice_range, IfSome};
ghost use Rattle.jm_bytes.specs.Metered.{CostsAtMost, RisesAtMost};
ghost use Rattle.jm_form.specs.Validity.{look, Valid};
ghost use Rattle.jm_image_c.specs.Told.{content_told};

use crate::numbers::Content;
use jm_bytes::{Meter, Steps};
use jm_reader::find_row;
use jm_valid::Image;
use std::sync::ledger::{Blank, Ledger};

/// Where the content of the entry of a name stands. It costs at most two hashes, and at most the
/// name's bytes and 76 more.
fn content_named<H: Ledger, R: Ledger>(
    image: &Image,
    name: &[u8],
    hashes: &mut Steps<H>,
    reads: &mut Meter<R>,
) -> Content
    requires { reads.old.bytes ≡ image.now }
    ensures found { result ≡ content_told image.now (look image.now name.now) }
    ensures content { IfSome (look image.now name.now) (λ found.
        slice_range image.now result.place (result.place + result.size) ≡ found.1) }
    ensures within { result.place + result.size ≤ length image.now }
    ensures hashes { RisesAtMost hashes.old hashes.new 2 }
    ensures reads { CostsAtMost reads.old reads.new (length name.now + 76) }
{
    let header = image.header();
    let _size = image.buf().len();
    match find_row(image, name, hashes, reads) {
        Some(row) => Content {
            place: header.contents_place() as u64 + row.offset,
            size: row.size,
            found: true,
        },
        None => Content {
            place: 0,
            size: 0,
            found: false,
        },
    }
}

/// Does what `content_named` does, with counters of its own.
pub fn find_content<H: Ledger, R: Ledger>(
    bytes: &[u8],
    name: &[u8],
    hashes: Blank,
    reads: Blank,
) -> Content
    requires valid { Valid bytes.now }
    requires hashes_name { hashes.name ≡ H.name }
    requires hashes_parts { hashes.parts ≡ H.parts }
    requires hashes_some { 0 < hashes.parts }
    requires reads_name { reads.name ≡ R.name }
    requires reads_parts { reads.parts ≡ R.parts }
    requires reads_some { 0 < reads.parts }
    ensures found { result ≡ content_told bytes.now (look bytes.now name.now) }
    ensures content { IfSome (look bytes.now name.now) (λ found.
        slice_range bytes.now result.place (result.place + result.size) ≡ found.1) }
    ensures within { result.place + result.size ≤ length bytes.now }
{
    let image = Image::of_valid(bytes);
    let mut hashes = Steps::<H>::new(hashes);
    let mut reads = Meter::<R>::new(bytes, reads);
    content_named(&image, name, &mut hashes, &mut reads)
}
