//! Outputs that are put piece by piece, so that none is held whole.
ghost use Rattle.std.specs.Prelude.{◌≡◌, [], OnOk};
ghost use Rattle.jm_inspect.specs.Pieces.{PassesOn, PutsText};
ghost use Rattle.jm_inspect.specs.World.{sink_at};

use jm_bytes::extend;
use jm_outside::{Sink, SinkError};
use std::alloc::Global;

/// How many bytes a text has, or more, when it is put as a piece.
pub const PIECE: usize = 65_536;

/// Puts a text, and empties it.
pub fn put_piece<O: Sink>(alloc: Global, text: &mut Vec<u8>, out: &mut O) -> Result<(), SinkError>
    ensures puts { PutsText text.old.items result
        (sink_at O.Sink out.old) (sink_at O.Sink out.new) }
    ensures emptied { OnOk result (text.new.items ≡ []) }
{
    out.put(alloc, text.as_slice())?;
    text.clear();
    Ok(())
}

/// A text that is put piece by piece: what is held back of it, and where it goes. It borrows both,
/// since a value that owned memory would leave untold what the sink got.
#[derive(Drop)]
pub struct Pieces<'h, 'o, O: Sink> {
    pub alloc: Global,
    pub held: &'h mut Vec<u8>,
    pub out: &'o mut O,
}

impl<'h, 'o, O: Sink> Pieces<'h, 'o, O> {
    /// Adds bytes to what is held back.
    pub fn hold(&mut self, bytes: &[u8]) -> Result<(), SinkError>
        ensures { PassesOn O.Sink bytes.now result self.old self.new }
    {
        Ok(extend(self.held, bytes)?)
    }

    /// Puts what is held back.
    pub fn put_held(&mut self) -> Result<(), SinkError>
        ensures puts { PutsText self.old.held.now.items result
            (sink_at O.Sink self.old.out.now) (sink_at O.Sink self.new.out.now) }
        ensures emptied { OnOk result (self.new.held.now.items ≡ []) }
        ensures same { self.new.out.ghost_name ≡ self.old.out.ghost_name }
    {
        put_piece(self.alloc, self.held, self.out)
    }

    /// Puts what is held back, if it has the bytes of a piece.
    pub fn put_full(&mut self) -> Result<(), SinkError>
        ensures { PassesOn O.Sink [] result self.old self.new }
    {
        if self.held.len() < PIECE {
            return Ok(());
        }
        self.put_held()
    }
}
