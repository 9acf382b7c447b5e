//! The content that a look-up leads to, read from a file by its index.
ghost use Rattle.std.specs.Prelude.{◌≡◌, ◌≤◌, ◌+◌, IfSome, IsOk, IsErrOf};
ghost use Rattle.jm_outside.specs.Outcome.{CountsFaults};
ghost use Rattle.jm_reader.specs.Look.{SoundIn};
ghost use Rattle.jm_inspect.specs.Sought.{ReadsContent, row_size};

use crate::front::{OpenFront, file_part};
use crate::stop::Stop;
use jm_bytes::Text;
use jm_form::Row;
use jm_outside::Shelf;
use jm_reader::place_of_content;
use std::alloc::Global;

/// The content of a row of an image, if there is one.
pub fn sought_content<S: Shelf>(
    alloc: Global,
    image: &OpenFront,
    row: &Option<Row>,
    shelf: &mut S,
) -> Result<Option<Text>, Stop>
    requires { IfSome row.now (SoundIn image.now.front) }
    ensures files { S.files shelf.new ≡ S.files shelf.old }
    ensures reads { ReadsContent (S.files shelf.old) image.now.path image.now.front row.now result }
    ensures handed { S.handed shelf.new ≤ S.handed shelf.old + row_size row.now }
    ensures faults { CountsFaults (S.faults shelf.old) (S.faults shelf.new) (IsOk result)
        (IsErrOf result Stop.Outside) }
{
    match row {
        None => Ok(None),
        Some(row) => {
            let place = place_of_content(image.as_index(), row);
            match file_part(alloc, image.path(), place, row.size as usize, shelf) {
                Ok(content) => Ok(Some(content)),
                Err(stop) => Err(stop),
            }
        }
    }
}
