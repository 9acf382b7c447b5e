ghost use Rattle.std.specs.Prelude.{◌≡◌, ◌++◌, ◌<◌, OnOk};
ghost use Rattle.jm_class.specs.Classes.{u2, u4, sized_text, FitsSized};

use jm_bytes::{NoMemory, extend};

/// Puts a number of two bytes at the end, the highest first.
pub fn put16(text: &mut Vec<u8>, n: u16) -> Result<(), NoMemory>
    ensures { OnOk result (text.new.items ≡ text.old.items ++ u2 n) }
{
    extend(text, &n.to_be_bytes())
}

/// Puts a number of four bytes at the end, the highest first.
pub fn put32(text: &mut Vec<u8>, n: u32) -> Result<(), NoMemory>
    ensures { OnOk result (text.new.items ≡ text.old.items ++ u4 n) }
{
    extend(text, &n.to_be_bytes())
}

/// Puts a length of four bytes and that many bytes at the end.
pub fn put_sized(text: &mut Vec<u8>, bytes: &[u8]) -> Result<(), NoMemory>
    requires { FitsSized bytes.now }
    ensures { OnOk result (text.new.items ≡ text.old.items ++ sized_text bytes.now) }
{
    put32(text, bytes.len() as u32)?;
    extend(text, bytes)
}
