ghost use Rattle.jm_commands.specs.HelpText.{help_text};
ghost use Rattle.jm_inspect.specs.Outcome.{done};
ghost use Rattle.jm_inspect.specs.Steps.{PutDoes};
ghost use Rattle.jm_inspect.specs.World.{sink_at};

use jm_inspect::{Stop, put_output};
use jm_outside::Sink;
use jm_words::help_text;
use std::alloc::Global;

const STATUSES: &[u8] = b"\
statuses:
  0 success
  2 the command line is wrong
  3 the command refuses its input
  4 the image is damaged
  5 the image, the file or the name doesn't exist
  6 a file or a stream failed
  7 out of memory
  8 a session exceeded its limits
";

/// `--help`: every command with its words, the options, the plug-ins and the statuses.
pub fn help_command<O: Sink>(alloc: Global, out: &mut O) -> Result<(), Stop>
    ensures { PutDoes (done help_text) result
        (sink_at O.Sink out.old) (sink_at O.Sink out.new) }
{
    let mut text = help_text(alloc)?;
    text.extend(STATUSES)?;
    put_output(alloc, text.as_slice(), out)
}
