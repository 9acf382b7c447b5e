ghost use Rattle.jm_commands.specs.HelpText.{version_text};
ghost use Rattle.jm_inspect.specs.Outcome.{done};
ghost use Rattle.jm_inspect.specs.Steps.{PutDoes};
ghost use Rattle.jm_inspect.specs.World.{sink_at};

use jm_inspect::{Stop, put_output};
use jm_outside::Sink;
use std::alloc::Global;

/// `--version`: the name and the version of the program.
pub fn version_command<O: Sink>(alloc: Global, out: &mut O) -> Result<(), Stop>
    ensures { PutDoes (done version_text) result
        (sink_at O.Sink out.old) (sink_at O.Sink out.new) }
{
    put_output(alloc, b"jm_tool 1.0.0\n", out)
}
