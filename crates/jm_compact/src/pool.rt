ghost use Rattle.std.specs.Prelude.{◌≡◌, ◌++◌, All, length, OnOk};
ghost use Rattle.jm_class.specs.Classes.{slot_text};
ghost use Rattle.jm_class.specs.Views.{slot_of, pool_of};
ghost use Rattle.jm_classout.specs.Fits.{FitsSlot};
ghost use Rattle.jm_compact.specs.Compact.{renamed};
ghost use Rattle.jm_compact.specs.Steps.{by_numbers, kept_text};

use crate::numbers::Numbers;
use crate::sites::put_renumbered;
use jm_bytes::{NoMemory, extend};
use jm_class::Slot;
use jm_classout::put16;
use jm_poolmap::name_sites;

/// Puts a slot of the pool, with the new numbers of what it names.
fn put_slot(text: &mut Vec<u8>, slot: &Slot, numbers: &Numbers) -> Result<(), NoMemory>
    requires { FitsSlot (slot_of slot.now) }
    ensures { OnOk result (text.new.items ≡ text.old.items
        ++ slot_text (renamed (by_numbers numbers.now) (slot_of slot.now))) }
{
    let Slot::Constant { tag, body } = slot else {
        return Ok(());
    };
    extend(text, &tag.to_be_bytes())?;
    if *tag == 1 {
        put16(text, body.len() as u16)?;
    }
    put_renumbered(text, name_sites(*tag), 0, body, numbers)
}

/// Puts the slots that are kept.
pub fn put_pool(
    text: &mut Vec<u8>,
    pool: &[Slot],
    flags: &[bool],
    numbers: &Numbers,
) -> Result<(), NoMemory>
    requires slots { All FitsSlot (pool_of pool.now) }
    requires flags { length flags.now ≡ length pool.now }
    ensures { OnOk result (text.new.items ≡ text.old.items
        ++ kept_text (by_numbers numbers.now) flags.now (pool_of pool.now)) }
{
    for place in 0..pool.len() {
        let slot = &pool[place];
        if flags[place] {
            put_slot(text, slot, numbers)?;
        }
    }
    Ok(())
}
