//! Texts in byte order.
ghost use Rattle.std.specs.Prelude.{◌≡◌, IfOk};
ghost use Rattle.jm_form.specs.Rising.{items_of, rising};

use jm_bytes::{List, NoMemory, Text};
use std::alloc::Global;

/// The texts, each once, rising. Time n log n.
pub fn rising(alloc: Global, texts: Vec<Vec<u8>>) -> Result<List<Text>, NoMemory>
    ensures { IfOk result (λ list. list ≡ rising (items_of texts.items)) }
{
    let mut sorted = texts;
    sorted.sort_unstable();
    sorted.dedup();
    let mut list = List::new(alloc);
    for text in sorted {
        list.push(Text::from_vec(text))?;
    }
    Ok(list)
}
