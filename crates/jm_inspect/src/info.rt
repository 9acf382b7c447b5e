//! What `info` and `verify` put: what the header of an image says.
ghost use Rattle.jm_inspect.specs.Steps.{PutsOfFront};
ghost use Rattle.jm_inspect.specs.VerifyText.{verify_text};
ghost use Rattle.jm_inspect.specs.World.{sink_at};
ghost use Rattle.jm_texts.specs.InfoText.{info_text};

use crate::front::OpenFront;
use crate::output::put_text;
use crate::stop::Stop;
use jm_outside::Sink;
use jm_texts::header_text;
use std::alloc::Global;

/// Puts what the header says, and how long the contents are.
pub fn put_info<O: Sink>(alloc: Global, image: &OpenFront, out: &mut O) -> Result<(), Stop>
    ensures { PutsOfFront image.now.front info_text result
        (sink_at O.Sink out.old) (sink_at O.Sink out.new) }
{
    let index = image.as_index();
    let header = index.header();
    let contents = index
        .length()
        .saturating_sub(header.contents_place() as u64);
    put_text(alloc, header_text(alloc, &header, contents as usize), out)
}

/// Puts how many entries there are.
pub fn put_verified<O: Sink>(alloc: Global, image: &OpenFront, out: &mut O) -> Result<(), Stop>
    ensures { PutsOfFront image.now.front verify_text result
        (sink_at O.Sink out.old) (sink_at O.Sink out.new) }
{
    let count = image.as_index().header().count;
    put_text(alloc, format!(in alloc; "valid {count}\n"), out)
}
