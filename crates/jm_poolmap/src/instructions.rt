ghost use Rattle.std.specs.Prelude.{◌≡◌, ◌-◌, option_map};
ghost use Rattle.jm_poolmap.specs.Finds.{Finds};
ghost use Rattle.jm_poolmap.specs.Forms.{Texts, row_of};
ghost use Rattle.jm_poolmap.specs.Instructions.{instruction_rows, wide_rows, from_least};
ghost use Rattle.jm_poolmap.specs.Instructions.{operands, instruction, instructions};
ghost use Rattle.jm_poolmap.specs.Views.{operands_of};

use crate::forms::{Item, Operands, Unknown};
use crate::items::items;
use crate::readings::{number8, number32, part};
use crate::site::FoundSite;
use jm_bytes::{List, Or};
use jm_class::Cursor;

/// What follows an opcode.
fn instruction_row(opcode: u8) -> Option<Operands>
    ensures { option_map operands_of result ≡ row_of instruction_rows opcode }
{
    match opcode {
        18 => Some(Operands::Items(&[Item::ByteSite])),
        19 | 20 | 178..=184 | 187 | 189 | 192 | 193 => Some(Operands::Items(&[Item::Site])),
        185 | 186 => Some(Operands::Items(&[Item::Site, Item::Bytes(2)])),
        197 => Some(Operands::Items(&[Item::Site, Item::Bytes(1)])),
        16 | 21..=25 | 54..=58 | 169 | 188 => Some(Operands::Items(&[Item::Bytes(1)])),
        17 | 132 | 153..=168 | 198 | 199 => Some(Operands::Items(&[Item::Bytes(2)])),
        200 | 201 => Some(Operands::Items(&[Item::Bytes(4)])),
        170 => Some(Operands::Table),
        171 => Some(Operands::Lookup),
        196 => Some(Operands::Wide),
        0..=201 => Some(Operands::Items(&[])),
        _ => None,
    }
}

/// What follows the opcode after a `wide`.
fn wide_row(opcode: u8) -> Option<&'static [Item]>
    ensures { option_map (λ row. row.now) result ≡ row_of wide_rows opcode }
{
    match opcode {
        21..=25 | 54..=58 | 169 => Some(&[Item::Bytes(2)]),
        132 => Some(&[Item::Bytes(4)]),
        _ => None,
    }
}

/// A signed number by its place in the order of all of them.
fn from_least(n: u32) -> u32
    ensures { result ≡ from_least n }
{
    if n < 1 << 31 {
        n + (1 << 31)
    } else {
        n - (1 << 31)
    }
}

/// What follows an opcode, by how many bytes of the code stand before it.
fn operands(
    found: &mut List<FoundSite>,
    cursor: &mut Cursor,
    before: usize,
    kind: Operands,
) -> Result<(), Or<Unknown>>
    ensures { (texts : Texts)
        → Finds texts (operands before (operands_of kind)) found.old cursor.old
        result found.new cursor.new }
{
    match kind {
        Operands::Items(list) => items(found, cursor, list),
        Operands::Table => {
            part(cursor, 3 - before % 4)?;
            part(cursor, 4)?;
            let low = from_least(number32(cursor)?);
            let high = from_least(number32(cursor)?);
            if high < low {
                return Err(Or::Fault(Unknown));
            }
            part(cursor, 4 * (high as usize - low as usize + 1))?;
            Ok(())
        }
        Operands::Lookup => {
            part(cursor, 3 - before % 4)?;
            part(cursor, 4)?;
            let count = number32(cursor)?;
            if count >= 1 << 31 {
                return Err(Or::Fault(Unknown));
            }
            part(cursor, 8 * count as usize)?;
            Ok(())
        }
        Operands::Wide => {
            let opcode = number8(cursor)?;
            let list = wide_row(opcode).ok_or(Unknown)?;
            items(found, cursor, list)
        }
    }
}

/// An instruction of a code that begins at a place.
fn instruction(
    found: &mut List<FoundSite>,
    cursor: &mut Cursor,
    start: usize,
) -> Result<(), Or<Unknown>>
    ensures { (texts : Texts)
        → Finds texts (instruction (cursor.old.place - start)) found.old cursor.old
        result found.new cursor.new }
{
    let before = cursor.place().saturating_sub(start);
    let opcode = number8(cursor)?;
    let kind = instruction_row(opcode).ok_or(Unknown)?;
    operands(found, cursor, before, kind)
}

/// The instructions of a code; each has a byte, so there are at most as many as bytes.
pub fn instructions(found: &mut List<FoundSite>, cursor: &mut Cursor) -> Result<(), Or<Unknown>>
    ensures { (texts : Texts)
        → Finds texts instructions found.old cursor.old result found.new cursor.new }
{
    let start = cursor.place();
    let most = cursor.len();
    for _k in 0..most {
        if cursor.len() == 0 {
            return Ok(());
        }
        instruction(found, cursor, start)?;
    }
    Ok(())
}
