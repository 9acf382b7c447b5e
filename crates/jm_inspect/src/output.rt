ghost use Rattle.std.specs.Prelude.{◌≡◌, ℕ, IfOk, List, string_bytes};
ghost use Rattle.jm_inspect.specs.Outcome.{done};
ghost use Rattle.jm_inspect.specs.Steps.{PutDoes};
ghost use Rattle.jm_inspect.specs.World.{sink_at};

use crate::stop::Stop;
use jm_outside::Sink;
use std::alloc::{AllocError, Global};

/// Puts the whole output of a command.
pub fn put_output<O: Sink>(alloc: Global, text: &[u8], out: &mut O) -> Result<(), Stop>
    ensures { PutDoes (done text.now) result
        (sink_at O.Sink out.old) (sink_at O.Sink out.new) }
{
    out.put(alloc, text)?;
    Ok(())
}

/// Puts a text as the whole output of a command, where memory was found for it.
pub fn put_text<O: Sink>(
    alloc: Global,
    text: Result<String, AllocError>,
    out: &mut O,
) -> Result<(), Stop>
    ensures { (due : List ℕ) → IfOk text (λ text. string_bytes text ≡ due)
        → PutDoes (done due) result (sink_at O.Sink out.old) (sink_at O.Sink out.new) }
{
    match text {
        Ok(text) => put_output(alloc, text.as_bytes(), out),
        Err(_) => Err(Stop::Memory),
    }
}
