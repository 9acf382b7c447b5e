ghost use Rattle.std.specs.Prelude.{◌≡◌, ◌<◌, IfOk};
ghost use Rattle.jm_modinfo.specs.Written.{info_text};
ghost use Rattle.jm_gen.specs.Generated.{module_name, need_of, needs};

use crate::names::module_name;
use jm_bytes::{List, NoMemory, Text};
use jm_modinfo::{Need, SharedText, write_info};
use std::alloc::Global;

/// A need of a module of this number.
fn need(alloc: Global, number: u32) -> Result<Need, NoMemory>
    ensures { IfOk result (λ need. need ≡ need_of number) }
{
    Ok(Need {
        name: SharedText::copy_of(alloc, &module_name(number))?,
        flags: 0,
        version: None,
    })
}

/// The needs of a module: the module before it, and one of those before that, by a draw.
fn needs(alloc: Global, number: u32, draw: u64) -> Result<List<Need>, NoMemory>
    ensures { IfOk result (λ list. list ≡ needs number draw) }
{
    let mut list = List::new(alloc);
    if number == 0 {
        return Ok(list);
    }
    list.push(need(alloc, number - 1)?)?;
    if number > 1 {
        let other = (draw >> 33) % u64::from(number - 1);
        list.push(need(alloc, other as u32)?)?;
    }
    Ok(list)
}

/// The class of the descriptor of a module.
pub fn info(alloc: Global, number: u32, draw: u64) -> Result<Text, NoMemory>
    ensures { IfOk result (λ text. text ≡ info_text (module_name number) (needs number draw)) }
{
    let needs = needs(alloc, number, draw)?;
    write_info(alloc, &module_name(number), needs.as_slice())
}
