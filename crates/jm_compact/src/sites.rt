ghost use Rattle.std.specs.Prelude.{◌≡◌, ◌++◌, ◌+◌, ◌<◌, ◌^◌, length, OnOk};
ghost use Rattle.std.specs.Int.{to_be_bytes, from_be_bytes};
ghost use Rattle.jm_poolmap.specs.Forms.{site_width};
ghost use Rattle.jm_compact.specs.Pieces.{size, renumbered};
ghost use Rattle.jm_compact.specs.Steps.{AreIn, by_numbers};

use crate::numbers::Numbers;
use jm_bytes::{NoMemory, extend};
use jm_poolmap::Site;

/// How many bytes a site has.
fn size(wide: bool) -> usize
    ensures { result ≡ size wide }
{
    if wide { 2 } else { 1 }
}

/// The new number for the one in some bytes. None grows, so one of a byte still fits.
fn put_number(
    text: &mut Vec<u8>,
    bytes: &[u8],
    wide: bool,
    numbers: &Numbers,
) -> Result<(), NoMemory>
    requires { length bytes.now ≡ size wide }
    ensures { OnOk result (text.new.items ≡ text.old.items
        ++ to_be_bytes (site_width wide)
        (by_numbers numbers.now (from_be_bytes (site_width wide) bytes.now))) }
{
    if wide {
        let number = numbers.of(u16::from_be_bytes([bytes[0], bytes[1]]));
        extend(text, &number.to_be_bytes())
    } else {
        let [_, number] = numbers.of(u16::from(bytes[0])).to_be_bytes();
        extend(text, &[number])
    }
}

/// Puts bytes, the first of which has a place, with new numbers at the sites among them.
pub fn put_renumbered(
    text: &mut Vec<u8>,
    sites: &[Site],
    place: usize,
    bytes: &[u8],
    numbers: &Numbers,
) -> Result<(), NoMemory>
    requires within { AreIn sites.now place (place + length bytes.now) }
    requires fits { place + length bytes.now < 2 ^ 64 }
    ensures { OnOk result (text.new.items ≡ text.old.items
        ++ renumbered (by_numbers numbers.now) sites.now place bytes.now) }
{
    let mut at = place;
    let mut rest = bytes;
    for site in sites {
        let next = site.place as usize;
        let (plain, after) = rest.split_at(next - at);
        let (number, after) = after.split_at(size(site.wide));
        extend(text, plain)?;
        put_number(text, number, site.wide, numbers)?;
        at = next + size(site.wide);
        rest = after;
    }
    extend(text, rest)
}
