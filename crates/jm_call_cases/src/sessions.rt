//! Sessions over an image: in pieces, with calls that fail, and with little memory.

ghost use Rattle.std.specs.Prelude.{◌≡◌, ◌<◌, IfOk};

use crate::streams::{TightSink, left_in, source_of};
use crate::texts::{numbers_of, put_quoted};
use jm_bytes::{List, Meter, Steps};
use jm_halves::NoGate;
use jm_jrt::{ServeError, serve};
use jm_lines::Known;
use jm_outside::{MemSink, MemSource};
use jm_valid::{Image, OpenError, open_image};
use std::alloc::{AllocError, Global};
use std::marker::Brand;
use std::sync::ledger::{Blank, Ledger};
use std::thread::Threads;

/// The image that some bytes are.
fn opened<'a, T: Threads + Sync>(
    rt: &T,
    alloc: Global,
    bytes: &'a [u8],
) -> Result<Image<'a>, OpenError>
    ensures { IfOk result (λ image. image ≡ bytes.now) }
{
    open_image(rt, alloc, 2, bytes, &NoGate)
}

/// A session with counters of its own.
fn counted<H: Ledger, R: Ledger>(
    alloc: Global,
    image: &Image,
    bytes: &[u8],
    streams: (&mut MemSource, &mut TightSink),
    blanks: (Blank, Blank),
) -> Result<u64, ServeError>
    requires bytes { image.now ≡ bytes.now }
    requires hashes_name { blanks.0.name ≡ H.name }
    requires hashes_parts { blanks.0.parts ≡ H.parts }
    requires hashes_some { 0 < blanks.0.parts }
    requires reads_name { blanks.1.name ≡ R.name }
    requires reads_parts { blanks.1.parts ≡ R.parts }
    requires reads_some { 0 < blanks.1.parts }
{
    let (input, out) = streams;
    let (hashes, reads) = blanks;
    let mut hashes = Steps::<H>::new(hashes);
    let mut reads = Meter::<R>::new(bytes, reads);
    serve(alloc, image, input, out, &mut hashes, &mut reads)
}

/// A session: the bytes of its image and of its input, how many of these each call gives at most,
/// or 0 for all that fit, the numbers of the takes and of the puts that fail, and for how many puts
/// there is memory.
#[derive(Drop)]
pub struct Session<'a> {
    image: &'a [u8],
    input: &'a [u8],
    piece: u64,
    takes: Vec<u64>,
    puts: Vec<u64>,
    room: u64,
}

/// The one number of some, or another one where there is none.
fn number_or(numbers: &[u64], other: u64) -> u64 {
    match numbers.first() {
        Some(number) => *number,
        None => other,
    }
}

/// The session of six texts, of which the last four are numbers.
pub fn session_of<'a>(
    alloc: Global,
    texts: &[&'a [u8]],
) -> Result<Option<Session<'a>>, AllocError> {
    let [image, input, piece, takes, puts, room] = texts else {
        return Ok(None);
    };
    let (piece, room) = (numbers_of(alloc, piece)?, numbers_of(alloc, room)?);
    let (takes, puts) = (numbers_of(alloc, takes)?, numbers_of(alloc, puts)?);
    let (Some(piece), Some(room), Some(takes), Some(puts)) = (piece, room, takes, puts) else {
        return Ok(None);
    };
    Ok(Some(Session {
        image,
        input,
        piece: number_or(piece.as_slice(), 0),
        takes,
        puts,
        room: number_or(room.as_slice(), u64::MAX),
    }))
}

/// More calls of a source than what a session leaves takes.
const CALLS: usize = 100;

/// What a session put, how it ended, and how many bytes its source then still gives.
pub fn told_session<T: Threads + Sync>(
    rt: &T,
    alloc: Global,
    known: &Known,
    session: Session,
) -> Result<Option<String>, AllocError> {
    let Ok(image) = opened(rt, alloc, session.image) else {
        return Ok(None);
    };
    let mut input = source_of(alloc, session.input, session.piece as usize, session.takes)?;
    let mut sink = MemSink::new(alloc);
    sink.fail_on(List::from_vec(session.puts));
    let mut out = TightSink {
        sink,
        room: session.room,
    };
    let blanks = (Blank::new(1), Blank::new(1));
    let streams = (&mut input, &mut out);
    let end = counted::<Brand, Brand>(alloc, &image, session.image, streams, blanks);
    let mut told = String::new(alloc);
    match known.name_of(out.sink.bytes()) {
        Some(name) => write!(told, "@{name}")?,
        None => put_quoted(&mut told, out.sink.bytes())?,
    }
    let left = left_in(alloc, &mut input, CALLS)?;
    write!(told, ", {end:?}, left {left:?}")?;
    Ok(Some(told))
}
