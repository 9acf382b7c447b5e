ghost use Rattle.std.specs.Prelude.{◌≡◌, length, OnErr, OnOk};
ghost use Rattle.std.specs.Int.{w8, w16, w32};
ghost use Rattle.jm_class.specs.Readings.{and_then, inner_part, number, part};
ghost use Rattle.jm_poolmap.specs.Finds.{Reads};
ghost use Rattle.jm_poolmap.specs.Forms.{unfit};

use crate::forms::Unknown;
use jm_class::Cursor;

/// That many bytes.
pub fn part<'a>(cursor: &mut Cursor<'a>, n: usize) -> Result<&'a [u8], Unknown>
    ensures { Reads (λ p. p.now) (part unfit n cursor.old) result cursor.new }
{
    cursor.part(n).ok_or(Unknown)
}

/// A byte.
pub fn number8(cursor: &mut Cursor) -> Result<u8, Unknown>
    ensures { Reads (λ n. n) (number unfit w8 cursor.old) result cursor.new }
{
    cursor.u8().ok_or(Unknown)
}

/// A number of two bytes.
pub fn number16(cursor: &mut Cursor) -> Result<u16, Unknown>
    ensures { Reads (λ n. n) (number unfit w16 cursor.old) result cursor.new }
{
    cursor.u16().ok_or(Unknown)
}

/// A number of four bytes.
pub fn number32(cursor: &mut Cursor) -> Result<u32, Unknown>
    ensures { Reads (λ n. n) (number unfit w32 cursor.old) result cursor.new }
{
    cursor.u32().ok_or(Unknown)
}

/// A length of four bytes, and a cursor of its own over that many bytes.
pub fn sized<'a>(cursor: &mut Cursor<'a>) -> Result<Cursor<'a>, Unknown>
    ensures { Reads (λ inner. inner) (and_then (number unfit w32) (inner_part unfit) cursor.old)
        result cursor.new }
{
    let size = number32(cursor)?;
    cursor.inner(size as usize).ok_or(Unknown)
}

/// Nothing, where no byte is left.
pub fn end(cursor: &Cursor) -> Result<(), Unknown>
    ensures ok { OnOk result (length cursor.now.bytes ≡ 0) }
    ensures err { OnErr result (¬ (length cursor.now.bytes ≡ 0)) }
{
    if cursor.len() == 0 {
        Ok(())
    } else {
        Err(Unknown)
    }
}
