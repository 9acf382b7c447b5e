//! A session: lines come from a source, in whatever pieces, and their replies go to a sink.
ghost use Rattle.std.specs.Prelude.{◌≡◌, ◌+◌, ◌*◌, ◌<◌, ◌≤◌, ◌++◌, [], length, take};
ghost use Rattle.std.specs.Prelude.{option_map};
ghost use Rattle.std.specs.Prelude.{Err, IfErr, IfOk, IsErrOf, IsOk};
ghost use Rattle.std.specs.Prelude.{OnErr, OnOk};
ghost use Rattle.jm_bytes.specs.Metered.{RisesAtMost};
ghost use Rattle.jm_outside.specs.Outcome.{CountsFaults, Shows, Told};
ghost use Rattle.jm_reader.specs.Walk.{IsLater};
ghost use Rattle.jm_jrt.specs.Reply.{IsWithin, line_bytes, reply};
ghost use Rattle.jm_jrt.specs.Sessions.{Arrives, Breaks, IsAnswered, IsFree, IsOpen, LineFails};
ghost use Rattle.jm_jrt.specs.Sessions.{Passes, PutFails, Refuses, Serves, moment};

use crate::requests::answer;
use crate::serve_error::ServeError;
use jm_bytes::{Meter, NoMemory, Steps, extend};
use jm_names::cut_at_first;
use jm_outside::{Sink, SinkError, Source};
use jm_valid::Image;
use std::alloc::Global;
use std::sync::ledger::Ledger;

/// The most bytes of a line, without its newline.
const LONGEST_LINE: usize = 8192;

/// The most lines of a session.
const MOST_LINES: u64 = 1_000_000;

/// How many bytes a call of the source is asked for.
const PIECE: usize = 65_536;

/// How far a session has come.
#[derive(Drop)]
struct Progress {
    /// How many lines were answered.
    lines: u64,
    /// The bytes of the line that has begun.
    part: Vec<u8>,
}

/// What answers change: the sink, and the counters.
#[derive(Drop)]
struct Answering<'o, 'h, 'r, 'm, O, H: Ledger, R: Ledger> {
    out: &'o mut O,
    hashes: &'h mut Steps<H>,
    reads: &'r mut Meter<'m, R>,
}

/// Refuses a line behind so many if it is one too many or too long.
fn check_line(lines: u64, len: usize) -> Result<(), ServeError>
    requires { lines ≤ 1000000 }
    ensures ok { OnOk result ((lines < 1000000) × (len ≤ 8192)) }
    ensures err { IfErr result (λ error. Refuses error lines len) }
{
    if lines == MOST_LINES {
        return Err(ServeError::TooManyLines);
    }
    if len > LONGEST_LINE {
        return Err(ServeError::LongLine(lines + 1));
    }
    Ok(())
}

/// Puts the reply to a line, by one `put`.
fn put_reply<O: Sink, H: Ledger, R: Ledger>(
    alloc: Global,
    image: &Image,
    answering: &mut Answering<O, H, R>,
    line: &[u8],
) -> Result<(), ServeError>
    requires { answering.old.reads.now.bytes ≡ image.now }
    ensures ok { OnOk result (O.content answering.new.out.now
        ≡ option_map (λ old. old ++ reply image.now line.now) (O.content answering.old.out.now)) }
    ensures err { IfErr result (λ error. PutFails error (reply image.now line.now)
        (O.content answering.old.out.now) (O.content answering.new.out.now)) }
    ensures faults { CountsFaults (O.faults answering.old.out.now)
        (O.faults answering.new.out.now) (IsOk result) (IsErrOf result ServeError.WriteFault) }
    ensures hashes { RisesAtMost answering.old.hashes.now answering.new.hashes.now 4 }
    ensures reads { IsWithin (line_bytes image.now line.now)
        answering.old.reads.now answering.new.reads.now }
    ensures same { (answering.new.out.ghost_name ≡ answering.old.out.ghost_name)
        × (answering.new.hashes.ghost_name ≡ answering.old.hashes.ghost_name)
        × (answering.new.reads.ghost_name ≡ answering.old.reads.ghost_name) }
{
    let reply = answer(alloc, image, line, answering.hashes, answering.reads)?;
    match answering.out.put(alloc, reply.as_slice()) {
        Ok(()) => Ok(()),
        Err(SinkError::Failed) => Err(ServeError::WriteFault),
        Err(SinkError::Memory) => Err(ServeError::Memory),
    }
}

/// Answers the line that the part and these bytes make.
fn end_line<O: Sink, H: Ledger, R: Ledger>(
    alloc: Global,
    image: &Image,
    answering: &mut Answering<O, H, R>,
    progress: &mut Progress,
    bytes: &[u8],
) -> Result<(), ServeError>
    requires metered { answering.old.reads.now.bytes ≡ image.now }
    requires open { IsOpen progress.old.lines progress.old.part.items }
    ensures put { OnOk result (O.content answering.new.out.now
        ≡ option_map (λ old. old ++ reply image.now (progress.old.part.items ++ bytes.now))
        (O.content answering.old.out.now)) }
    ensures line { OnOk result (IsAnswered progress.old.lines progress.new.lines
        (progress.old.part.items ++ bytes.now) progress.new.part.items) }
    ensures err { IfErr result (λ error. LineFails error image.now progress.old.lines
        (progress.old.part.items ++ bytes.now)
        (O.content answering.old.out.now) (O.content answering.new.out.now)) }
    ensures faults { CountsFaults (O.faults answering.old.out.now)
        (O.faults answering.new.out.now) (IsOk result) (IsErrOf result ServeError.WriteFault) }
    ensures hashes { RisesAtMost answering.old.hashes.now answering.new.hashes.now 4 }
    ensures reads { IsWithin (line_bytes image.now (progress.old.part.items ++ bytes.now))
        answering.old.reads.now answering.new.reads.now }
    ensures same { (answering.new.out.ghost_name ≡ answering.old.out.ghost_name)
        × (answering.new.hashes.ghost_name ≡ answering.old.hashes.ghost_name)
        × (answering.new.reads.ghost_name ≡ answering.old.reads.ghost_name) }
{
    check_line(progress.lines, progress.part.len() + bytes.len())?;
    progress.lines += 1;
    if progress.part.is_empty() {
        return put_reply(alloc, image, answering, bytes);
    }
    extend(&mut progress.part, bytes)?;
    put_reply(alloc, image, answering, progress.part.as_slice())?;
    progress.part.clear();
    Ok(())
}

/// Keeps the bytes of a line that doesn't end yet.
fn keep_part(progress: &mut Progress, bytes: &[u8]) -> Result<(), ServeError>
    requires open { IsOpen progress.old.lines progress.old.part.items }
    requires free { IsFree bytes.now }
    ensures open_new { OnOk result (IsOpen progress.new.lines progress.new.part.items) }
    ensures lines { OnOk result (progress.new.lines ≡ progress.old.lines) }
    ensures part { OnOk result (progress.new.part.items ≡ progress.old.part.items ++ bytes.now) }
    ensures err { IfErr result (λ error. Refuses error progress.old.lines
        (length (progress.old.part.items ++ bytes.now))) }
    ensures begun { OnErr result (0 < length bytes.now) }
{
    if bytes.is_empty() {
        return Ok(());
    }
    check_line(progress.lines, progress.part.len() + bytes.len())?;
    extend(&mut progress.part, bytes)?;
    Ok(())
}

/// Answers the lines that end in a piece of the input, and keeps what follows them.
fn take_piece<O: Sink, H: Ledger, R: Ledger>(
    alloc: Global,
    image: &Image,
    answering: &mut Answering<O, H, R>,
    progress: &mut Progress,
    piece: &[u8],
) -> Result<(), ServeError>
    requires metered { answering.old.reads.now.bytes ≡ image.now }
    requires open { IsOpen progress.old.lines progress.old.part.items }
    ensures passes { OnOk result (Passes image.now (progress.old.part.items ++ piece.now)
        (moment (O.content answering.old.out.now) progress.old.lines
        answering.old.hashes.now answering.old.reads.now)
        progress.new.part.items
        (moment (O.content answering.new.out.now) progress.new.lines
        answering.new.hashes.now answering.new.reads.now)) }
    ensures open_new { OnOk result (IsOpen progress.new.lines progress.new.part.items) }
    ensures err { IfErr result (λ error. Breaks error image.now
        (progress.old.part.items ++ piece.now)
        (moment (O.content answering.old.out.now) progress.old.lines
        answering.old.hashes.now answering.old.reads.now)
        (O.content answering.new.out.now)) }
    ensures faults { CountsFaults (O.faults answering.old.out.now)
        (O.faults answering.new.out.now) (IsOk result) (IsErrOf result ServeError.WriteFault) }
    ensures hashes { answering.old.hashes.now ≤ answering.new.hashes.now }
    ensures reads { IsLater answering.old.reads.now answering.new.reads.now }
    ensures same { (answering.new.out.ghost_name ≡ answering.old.out.ghost_name)
        × (answering.new.hashes.ghost_name ≡ answering.old.hashes.ghost_name)
        × (answering.new.reads.ghost_name ≡ answering.old.reads.ghost_name) }
{
    let mut rest = piece;
    while let Some((bytes, behind)) = cut_at_first(b'\n', rest) {
        end_line(alloc, image, answering, progress, bytes)?;
        rest = behind;
    }
    keep_part(progress, rest)
}

/// The next bytes of a source at the front of a piece, and how many; 0 at its end.
fn take<I: Source>(input: &mut I, piece: &mut Vec<u8>) -> Result<usize, ServeError>
    requires { 0 < length piece.old.items }
    ensures within { IfOk result (λ n. n ≤ length piece.new.items) }
    ensures length { length piece.new.items ≡ length piece.old.items }
    ensures moved { IfOk result (λ n. Told (I.rest input.old) (I.rest input.new)
        (λ old new. old ≡ take n piece.new.items ++ new)) }
    ensures end { IfOk result (λ n. n ≡ 0 → Shows (I.rest input.old) (λ rest. rest ≡ [])) }
    ensures err { OnErr result (I.rest input.new ≡ I.rest input.old) }
    ensures fault { IfErr result (λ error. error ≡ ServeError.ReadFault) }
    ensures faults { CountsFaults (I.faults input.old) (I.faults input.new) (IsOk result)
        (IsErrOf result ServeError.ReadFault) }
{
    match input.take(piece.as_mut_slice()) {
        Ok(count) => Ok(count),
        Err(_) => Err(ServeError::ReadFault),
    }
}

/// A piece of zeros, for the bytes of the source.
fn zeros(alloc: Global) -> Result<Vec<u8>, NoMemory>
    ensures { IfOk result (λ piece. length piece.items ≡ 65536) }
{
    Ok(Vec::from_elem(alloc, 0, PIECE)?)
}

/// Answers the lines of which the source gives the newline, up to its end.
fn serve_ended<I: Source, O: Sink, H: Ledger, R: Ledger>(
    alloc: Global,
    image: &Image,
    answering: &mut Answering<O, H, R>,
    input: &mut I,
) -> Result<Progress, ServeError>
    requires { answering.old.reads.now.bytes ≡ image.now }
    ensures ok { IfOk result (λ progress. Arrives image.now (I.rest input.old) (I.rest input.new)
        (moment (O.content answering.old.out.now) 0
        answering.old.hashes.now answering.old.reads.now) progress.part.items
        (moment (O.content answering.new.out.now) progress.lines
        answering.new.hashes.now answering.new.reads.now)) }
    ensures end { OnOk result (Told (I.rest input.old) (I.rest input.new)
        (λ old new. new ≡ [])) }
    ensures err { IfErr result (λ error. Serves image.now (Err error)
        (I.rest input.old) (I.rest input.new)
        (O.content answering.old.out.now) (O.content answering.new.out.now)
        answering.old.reads.now answering.new.reads.now) }
    ensures input_faults { CountsFaults (I.faults input.old) (I.faults input.new) (IsOk result)
        (IsErrOf result ServeError.ReadFault) }
    ensures out_faults { CountsFaults (O.faults answering.old.out.now)
        (O.faults answering.new.out.now) (IsOk result) (IsErrOf result ServeError.WriteFault) }
    ensures hashes { answering.old.hashes.now ≤ answering.new.hashes.now }
    ensures reads { IsLater answering.old.reads.now answering.new.reads.now }
    ensures same { (answering.new.out.ghost_name ≡ answering.old.out.ghost_name)
        × (answering.new.hashes.ghost_name ≡ answering.old.hashes.ghost_name)
        × (answering.new.reads.ghost_name ≡ answering.old.reads.ghost_name) }
{
    let mut piece = zeros(alloc)?;
    let mut progress = Progress {
        lines: 0,
        part: Vec::new(alloc),
    };
    loop {
        let count = take(input, &mut piece)?;
        if count == 0 {
            return Ok(progress);
        }
        let (bytes, _) = piece.as_slice().split_at(count);
        take_piece(alloc, image, answering, &mut progress, bytes)?;
    }
}

/// Answers each line of the input until its end, and gives the number of lines (this project's
/// rule). Each reply is one `put`. A line ends at a newline; a last one without a newline counts
/// where it has a byte. How the source cuts its bytes shows nowhere.
///
/// What was put before an error stays: the replies to the earlier lines, after `WriteFault` and a
/// front of one more, and after `ReadFault` those to the lines whose newline the source gave. Of
/// the input it took no more than these lines, the beginning of the next one, of at most 8,192
/// bytes, and one piece of 65,536. It costs at most four hashes for each line.
pub fn serve<I: Source, O: Sink, H: Ledger, R: Ledger>(
    alloc: Global,
    image: &Image,
    input: &mut I,
    out: &mut O,
    hashes: &mut Steps<H>,
    reads: &mut Meter<R>,
) -> Result<u64, ServeError>
    requires { reads.old.bytes ≡ image.now }
    ensures serves { Serves image.now result (I.rest input.old) (I.rest input.new)
        (O.content out.old) (O.content out.new) reads.old reads.new }
    ensures input_faults { CountsFaults (I.faults input.old) (I.faults input.new) (IsOk result)
        (IsErrOf result ServeError.ReadFault) }
    ensures out_faults { CountsFaults (O.faults out.old) (O.faults out.new) (IsOk result)
        (IsErrOf result ServeError.WriteFault) }
    ensures hashes { IfOk result (λ n. RisesAtMost hashes.old hashes.new (4 * n)) }
    ensures later { hashes.old ≤ hashes.new }
    ensures reads { IsLater reads.old reads.new }
{
    let mut answering = Answering { out, hashes, reads };
    let progress = serve_ended(alloc, image, &mut answering, input)?;
    let last = progress.part.as_slice();
    if last.is_empty() {
        return Ok(progress.lines);
    }
    put_reply(alloc, image, &mut answering, last)?;
    Ok(progress.lines + 1)
}
