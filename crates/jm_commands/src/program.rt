ghost use Rattle.std.specs.Prelude.{map, string_bytes};
ghost use Rattle.jm_words.specs.Paths.{FilePathsAreText, NumbersFit};
ghost use Rattle.jm_words.specs.Rule.{Says};
ghost use Rattle.jm_commands.specs.Outcome.{early_in, early_of};
ghost use Rattle.jm_commands.specs.Run.{EndsStep, RunComesTo, TaskComesTo, WordsComeTo};
ghost use Rattle.jm_inspect.specs.Steps.{StepComesTo};
ghost use Rattle.jm_commands.specs.RelinkedRun.{RelinksRun};
ghost use Rattle.jm_commands.specs.Served.{ServesRun, served_in};
ghost use Rattle.jm_commands.specs.Taken.{TakesNoMore, TaskTakes};
ghost use Rattle.jm_inspect.specs.World.{sink_at, world_of};

use crate::decompress::decompress_command;
use crate::generator::gen_command;
use crate::help::help_command;
use crate::link::link_command;
use crate::version::version_command;
use jm_halves::{Gate, Workers};
use jm_inspect::{Status, Stop, describe_command, do_work};
use jm_outside::{Shelf, Sink, SinkError, Source};
use jm_words::{Task, read_words};
use std::alloc::Global;
use std::thread::Threads;

/// Ends a run whose command is done, or stopped: puts the line of a complaint, and gives the
/// status, or that of what went wrong with the line.
fn end<E: Sink>(alloc: Global, done: Result<(), Stop>, err: &mut E) -> Status
    ensures { EndsStep done result
        (sink_at E.Sink err.old) (sink_at E.Sink err.new) }
{
    match done {
        Ok(()) => Status::Done,
        Err(Stop::Complaint(complaint)) => {
            let Ok(line) = complaint.line(alloc) else {
                return Status::Memory;
            };
            match err.put(alloc, line.as_slice()) {
                Ok(()) => complaint.status(),
                Err(SinkError::Failed) => Status::Outside,
                Err(SinkError::Memory) => Status::Memory,
            }
        }
        Err(Stop::Outside) => Status::Outside,
        Err(Stop::Memory) => Status::Memory,
    }
}

/// Does what a command is to do.
fn do_command<T: Threads + Sync, S: Shelf, I: Source, O: Sink, G: Gate + Sync>(
    workers: &Workers<T, G>,
    task: Task,
    shelf: &mut S,
    input: &mut I,
    out: &mut O,
) -> Result<(), Stop>
    requires paths { FilePathsAreText task }
    requires numbers { NumbersFit task }
    ensures comes { StepComesTo (TaskComesTo (S.files shelf.old) (I.rest input.old) task)
        (early_of task) result
        (world_of S.Shelf I.Source O.Sink shelf.old input.old out.old)
        (world_of S.Shelf I.Source O.Sink shelf.new input.new out.new) }
    ensures takes { TaskTakes (S.files shelf.old) task
        (S.handed shelf.old) (S.handed shelf.new) }
{
    match task {
        Task::Link(task) => link_command(workers, task, shelf, out),
        Task::Image { image, work } => do_work(workers, &image, &work, shelf, input, out),
        Task::Decompress(task) => decompress_command(workers, &task, shelf, out),
        Task::Gen(task) => gen_command(workers, &task, shelf, out),
        Task::Describe { file, release } => {
            describe_command(workers.alloc, &file, release, shelf, out)
        }
        Task::Help => help_command(workers.alloc, out),
        Task::Version => version_command(workers.alloc, out),
    }
}

/// Does all that the program does: reads the words after the program's name, does the command,
/// puts its output to `out` and a line on what is wrong to `err`, and gives the status.
///
/// Only `serve` reads from `input`.
pub fn run<T: Threads + Sync, S: Shelf, I: Source, O: Sink, E: Sink, G: Gate + Sync>(
    rt: &T,
    alloc: Global,
    words: &[String],
    shelf: &mut S,
    input: &mut I,
    out: &mut O,
    err: &mut E,
    gate: &G,
) -> Status
    ensures comes { Says (map string_bytes words.now) (λ asked. RunComesTo
        (WordsComeTo (S.files shelf.old) (I.rest input.old) asked) (early_in asked) result
        (world_of S.Shelf I.Source O.Sink shelf.old input.old out.old)
        (world_of S.Shelf I.Source O.Sink shelf.new input.new out.new)
        (sink_at E.Sink err.old) (sink_at E.Sink err.new)) }
    ensures session { Says (map string_bytes words.now) (λ asked. ServesRun (served_in asked) result
        (world_of S.Shelf I.Source O.Sink shelf.old input.old out.old)
        (world_of S.Shelf I.Source O.Sink shelf.new input.new out.new)
        (sink_at E.Sink err.old) (sink_at E.Sink err.new)) }
    ensures relinks { Says (map string_bytes words.now) (λ asked. RelinksRun asked result
        (S.files shelf.old) (S.files shelf.new)) }
    ensures takes { Says (map string_bytes words.now) (λ asked. TakesNoMore
        (S.files shelf.old) asked (S.handed shelf.old) (S.handed shelf.new)) }
{
    match read_words(alloc, words) {
        Ok(command) => {
            let workers = Workers {
                rt,
                alloc,
                jobs: command.jobs,
                gate,
            };
            end(
                alloc,
                do_command(&workers, command.task, shelf, input, out),
                err,
            )
        }
        Err(error) => end(alloc, Err(Stop::from(error)), err),
    }
}
