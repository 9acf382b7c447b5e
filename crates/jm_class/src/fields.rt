ghost use Rattle.std.specs.Prelude.{◌≡◌};
ghost use Rattle.std.specs.Int.{w16, w32};
ghost use Rattle.jm_class.specs.Readings.{number, part, sized, inner_part};
ghost use Rattle.jm_class.specs.Views.{fault_at, Reads};

use crate::class::ClassFault;
use crate::cursor::Cursor;

/// What is said of a field that doesn't fit.
#[derive(Clone, Copy)]
pub enum Missing {
    /// It is short, at its own place.
    Here,
    /// The part in which it stands has this fault.
    Within(ClassFault),
}

impl Missing {
    /// The fault of a field at a place.
    pub fn fault(self, at: usize) -> ClassFault
        ensures { result ≡ fault_at self at }
    {
        match self {
            Missing::Here => ClassFault::Short(at),
            Missing::Within(fault) => fault,
        }
    }
}

/// A number of two bytes.
pub fn number16(cursor: &mut Cursor, missing: Missing) -> Result<u16, ClassFault>
    ensures { Reads (λ n. n) (number (fault_at missing) w16 cursor.old) result cursor.new }
{
    let at = cursor.place();
    cursor.u16().ok_or(missing.fault(at))
}

/// A number of four bytes.
pub fn number32(cursor: &mut Cursor, missing: Missing) -> Result<u32, ClassFault>
    ensures { Reads (λ n. n) (number (fault_at missing) w32 cursor.old) result cursor.new }
{
    let at = cursor.place();
    cursor.u32().ok_or(missing.fault(at))
}

/// That many bytes.
pub fn part<'a>(cursor: &mut Cursor<'a>, n: usize, missing: Missing) -> Result<&'a [u8], ClassFault>
    ensures { Reads (λ p. p.now) (part (fault_at missing) n cursor.old) result cursor.new }
{
    let at = cursor.place();
    cursor.part(n).ok_or(missing.fault(at))
}

/// A length of four bytes, and that many bytes.
pub fn sized<'a>(cursor: &mut Cursor<'a>, missing: Missing) -> Result<&'a [u8], ClassFault>
    ensures { Reads (λ p. p.now) (sized (fault_at missing) cursor.old) result cursor.new }
{
    let size = number32(cursor, missing)?;
    part(cursor, size as usize, missing)
}

/// That many bytes as a cursor of their own.
pub fn inner<'a>(
    cursor: &mut Cursor<'a>,
    n: usize,
    missing: Missing,
) -> Result<Cursor<'a>, ClassFault>
    ensures { Reads (λ inner. inner) (inner_part (fault_at missing) n cursor.old)
        result cursor.new }
{
    let at = cursor.place();
    cursor.inner(n).ok_or(missing.fault(at))
}
