ghost use Rattle.std.specs.Prelude.{◌≡◌, ℕ, List};
ghost use Rattle.jm_form.specs.Entries.{content_of};
ghost use Rattle.jm_form.specs.Head.{IsFileOf};
ghost use Rattle.jm_form.specs.Places.{contents};
ghost use Rattle.jm_form.specs.Rows.{as_stored};
ghost use Rattle.jm_reader.specs.Look.{SoundIn, head};
ghost use Rattle.jm_filed.specs.Filed.{IsWithin, content_at};

use jm_form::Row;
use jm_reader::{place_of_content, place_of_stored};
use jm_valid::{Index, StoredIndex};

/// Where in the file of an image the content of an entry stands.
#[derive(Clone, Copy, Debug)]
pub struct Extent {
    /// Its place, in bytes from the beginning of the file.
    pub at: u64,
    /// How many bytes it has.
    pub size: u64,
}

impl Extent {
    /// The extent of the content of an entry with this row. No byte is read: the index says it.
    pub fn of(index: &Index, row: &Row) -> Extent
        requires { SoundIn index.now row.now }
        ensures content { (b : List ℕ) → IsFileOf index.now.bytes index.now.length b
            → content_at b result ≡ content_of (contents b (head b)) row.now }
        ensures within { IsWithin index.now.length result }
        ensures size { result.size ≡ row.now.size }
    {
        let _length = index.length();
        Extent {
            at: place_of_content(index, row),
            size: row.size,
        }
    }

    /// The extent of the stored bytes of an entry with this row. No byte is read: the index says
    /// it.
    pub fn of_stored(index: &StoredIndex, row: &Row) -> Extent
        requires { SoundIn index.now (as_stored row.now) }
        ensures content { (b : List ℕ) → IsFileOf index.now.bytes index.now.length b
            → content_at b result ≡ content_of (contents b (head b)) (as_stored row.now) }
        ensures within { IsWithin index.now.length result }
        ensures size { result.size ≡ (as_stored row.now).size }
    {
        let _length = index.length();
        Extent {
            at: place_of_stored(index, row),
            size: row.as_stored().size,
        }
    }
}
