ghost use Rattle.std.specs.Prelude.{◌≡◌, ◌+◌, ◌≤◌, ◌++◌, length, take, drop};
ghost use Rattle.jm_class.specs.Classes.{u2, u4};

fn patch(text: &mut [u8], at: usize, bytes: &[u8])
    requires { at + length bytes.now ≤ length text.old }
    ensures { text.new ≡
        take at text.old ++ (bytes.now ++ drop (at + length bytes.now) text.old) }
{
    text[at..at + bytes.len()].copy_from_slice(bytes);
}

/// Puts a number of two bytes in the place of those that stand at a place.
pub fn patch16(text: &mut Vec<u8>, at: usize, n: u16)
    requires { at + 2 ≤ length text.old.items }
    ensures { text.new.items ≡ take at text.old.items ++ (u2 n ++ drop (at + 2) text.old.items) }
{
    patch(text.as_mut_slice(), at, &n.to_be_bytes());
}

/// Puts a number of four bytes in the place of those that stand at a place.
pub fn patch32(text: &mut Vec<u8>, at: usize, n: u32)
    requires { at + 4 ≤ length text.old.items }
    ensures { text.new.items ≡ take at text.old.items ++ (u4 n ++ drop (at + 4) text.old.items) }
{
    patch(text.as_mut_slice(), at, &n.to_be_bytes());
}
