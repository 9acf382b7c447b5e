ghost use Rattle.std.specs.Prelude.{◌≡◌, IfOk};
ghost use Rattle.jm_names.specs.Names.{dotted};

use jm_bytes::{NoMemory, Text};
use std::alloc::Global;

/// The name of the package whose classes stand in a folder (JLS 7): each slash becomes a dot.
pub fn dotted(alloc: Global, folder: &[u8]) -> Result<Text, NoMemory>
    ensures { IfOk result (λ text. text ≡ dotted folder.now) }
{
    let mut text = Text::new(alloc);
    for byte in folder {
        text.push(if *byte == b'/' { b'.' } else { *byte })?;
    }
    Ok(text)
}
