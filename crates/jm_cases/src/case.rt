//! A case: a shelf, the input of a session, and the calls that fail.

use jm_bytes::{List, Text};
use jm_commands::run;
use jm_halves::NoGate;
use jm_lines::{Known, put_bytes, words_of};
use jm_outside::{MemShelf, MemSink, MemSource};
use std::alloc::{AllocError, Global};
use std::thread::Threads;

/// What the runs of a case begin with.
#[derive(Drop)]
pub struct Case {
    pub shelf: MemShelf,
    pub input: Vec<u8>,
    /// How many bytes of the input each call gives, or 0 where it gives all that fit.
    pub piece: usize,
    /// How many bytes of an output are printed.
    pub front: usize,
    pub input_fails: Option<u64>,
    pub out_fails: Option<u64>,
    pub err_fails: Option<u64>,
}

impl Case {
    /// No file, no input, and no call that fails.
    pub fn new(alloc: Global) -> Case {
        Case {
            shelf: MemShelf::new(alloc),
            input: Vec::new(alloc),
            piece: 0,
            front: usize::MAX,
            input_fails: None,
            out_fails: None,
            err_fails: None,
        }
    }

    /// Gives a path these bytes.
    pub fn put_file(
        &mut self,
        alloc: Global,
        path: &str,
        bytes: Vec<u8>,
    ) -> Result<(), AllocError> {
        let path = Text::from_vec(Vec::from_slice(alloc, path.as_bytes())?);
        match self.shelf.put_file(path, Text::from_vec(bytes)) {
            Ok(()) => Ok(()),
            Err(_) => Err(AllocError),
        }
    }

    /// The bytes of the file at a path.
    pub fn file(&self, path: &str) -> Option<&[u8]> {
        self.shelf.file(path.as_bytes())
    }
}

/// So many numbers from a first one on.
pub fn numbers_from(alloc: Global, first: u64, count: u64) -> Result<List<u64>, AllocError> {
    let mut numbers = Vec::new(alloc);
    for step in 0..count {
        numbers.push(first.saturating_add(step))?;
    }
    Ok(List::from_vec(numbers))
}

/// The list of one number, or of none.
fn numbers(alloc: Global, number: Option<u64>) -> Result<List<u64>, AllocError> {
    match number {
        Some(number) => numbers_from(alloc, number, 1),
        None => Ok(List::new(alloc)),
    }
}

fn sink_of(alloc: Global, fails: Option<u64>) -> Result<MemSink, AllocError> {
    let mut sink = MemSink::new(alloc);
    sink.fail_on(numbers(alloc, fails)?);
    Ok(sink)
}

fn source_of(alloc: Global, case: &Case) -> Result<MemSource, AllocError> {
    let text = Text::from_vec(Vec::from_slice(alloc, case.input.as_slice())?);
    let cuts = if case.piece == 0 {
        Vec::new(alloc)
    } else {
        Vec::from_elem(alloc, case.piece, case.input.len())?
    };
    let mut source = MemSource::new(text, List::from_vec(cuts));
    source.fail_on(numbers(alloc, case.input_fails)?);
    Ok(source)
}

/// The line on a run: the status, the output, or a name of its bytes, and the text of the error
/// sink, with a bar between.
fn line_of(
    alloc: Global,
    known: &Known,
    status: u8,
    out: &[u8],
    err: &[u8],
) -> Result<String, AllocError> {
    let mut told = format!(in alloc; "{status}|")?;
    match known.name_of(out) {
        Some(name) => write!(told, "@{name}")?,
        None => put_bytes(&mut told, out)?,
    }
    told.push('|')?;
    put_bytes(&mut told, err)?;
    told.push('\n')?;
    Ok(told)
}

/// Runs the program on the words of a line, and gives the line on that run.
pub fn run_line<T: Threads + Sync>(
    rt: &T,
    alloc: Global,
    known: &Known,
    case: &mut Case,
    words: &str,
) -> Result<String, AllocError> {
    let mut input = source_of(alloc, case)?;
    let mut out = sink_of(alloc, case.out_fails)?;
    let mut err = sink_of(alloc, case.err_fails)?;
    let words = words_of(alloc, words)?;
    let words = words.as_slice();
    let shelf = &mut case.shelf;
    let status = run(
        rt, alloc, words, shelf, &mut input, &mut out, &mut err, &NoGate,
    );
    let (front, _) = out.bytes().split_at(case.front.min(out.bytes().len()));
    line_of(alloc, known, status.value(), front, err.bytes())
}
