//! The releases of Java SE, by the major versions of their classes.
ghost use Rattle.std.specs.Prelude.{◌≡◌};
ghost use Rattle.jm_class.specs.Releases.{major_in, release_fault};

use crate::class::ClassFault;
use crate::cursor::Cursor;
use crate::reading::MAGIC;

/// The release of the calls that name none.
pub const DEFAULT_RELEASE: u32 = 21;

/// The major version in the first eight bytes, if these are there and begin with the magic.
fn major_in(bytes: &[u8]) -> Option<u16>
    ensures { result ≡ major_in bytes.now }
{
    let mut cursor = Cursor::new(bytes);
    let magic = cursor.u32()?;
    let _minor = cursor.u16()?;
    let major = cursor.u16()?;
    if magic == MAGIC { Some(major) } else { None }
}

/// The fault of a class newer than a release, if it is: of release N are the major versions up to
/// 44 + N (JVMS 4.1).
pub fn release_fault(release: u32, bytes: &[u8]) -> Option<ClassFault>
    ensures { result ≡ release_fault release bytes.now }
{
    let major = major_in(bytes)?;
    if 44 + u64::from(release) < u64::from(major) {
        Some(ClassFault::Version(major))
    } else {
        None
    }
}
