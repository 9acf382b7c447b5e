ghost use Rattle.std.specs.Prelude.{◌≡◌, ◌+◌, length};
ghost use Rattle.jm_bytes.specs.Metered.{CostsAtMost, RisesAtMost};
ghost use Rattle.jm_form.specs.Validity.{look};
ghost use Rattle.jm_inspect.specs.Cat.{content_of, CatDoes};
ghost use Rattle.jm_inspect.specs.World.{sink_at};

use jm_bytes::{Meter, Steps};
use jm_outside::{Sink, SinkError};
use jm_reader::find;
use jm_valid::Image;
use std::alloc::Global;
use std::sync::ledger::Ledger;

/// Puts the content of the entry of that name, by one `put`, and answers true; answers false, with
/// nothing put, where no entry has the name.
///
/// It costs at most two hashes, and at most the name's bytes, 76 more and those of the content.
/// After `Failed` a prefix of the content was put, after `Memory` nothing.
pub fn cat_command<O: Sink, H: Ledger, R: Ledger>(
    alloc: Global,
    image: &Image,
    name: &[u8],
    out: &mut O,
    hashes: &mut Steps<H>,
    reads: &mut Meter<R>,
) -> Result<bool, SinkError>
    requires { reads.old.bytes ≡ image.now }
    ensures does { CatDoes (look image.now name.now) result
        (sink_at O.Sink out.old) (sink_at O.Sink out.new) }
    ensures hashes { RisesAtMost hashes.old hashes.new 2 }
    ensures reads { CostsAtMost reads.old reads.new
        (length name.now + 76 + length (content_of (look image.now name.now))) }
{
    let Some(found) = find(image, name, hashes, reads) else {
        return Ok(false);
    };
    out.put(alloc, found.bytes)?;
    Ok(true)
}
