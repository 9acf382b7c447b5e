ghost use Rattle.std.specs.Prelude.{◌≡◌, ◌≤◌, ◌+◌, ◌/◌, ◌↔◌, ◌⊎◌, [], Some, true, false, All};
ghost use Rattle.std.specs.Prelude.{IsUtf8, IsOk, IfOk, OnOk, OnErr, IsErrOf, length, option_map};
ghost use Rattle.std.specs.List.Sorted.{IsStrictlySortedBy-prop};
ghost use Rattle.std.proofs.lemmas.Str.{IsUtf8-had};
ghost use Rattle.jm_outside.specs.Files.{Rising, AreBytes, HaveBytes, HasPart, paths, file};
ghost use Rattle.jm_outside.specs.Files.{file_length, file_part, put, add, names_below};
ghost use Rattle.jm_outside.specs.Outcome.{CountsFaults};
ghost use Rattle.jm_outside.specs.ComputedCalls.{no_calls, IsListed, after_call, with_fault};
ghost use Rattle.jm_outside.specs.ComputedCuts.{first_half};

use crate::calls::Calls;
use crate::file_map::{FileMap, part_of};
use crate::handed::Handed;
use crate::shelf::{Shelf, ShelfError};
use jm_bytes::{List, NoMemory, Text, copy_of, extend};
use std::alloc::Global;
use std::mem::replace;

/// A shelf in memory, which tells its files. A file is just a path.
///
/// It numbers the calls of the trait from 0, and those of `read_part` and `read_exact` by
/// themselves, in one line. It fails those that `fail_on` and `fail_parts_on` list, with one fault
/// each. The numbers stand still at the last of 64 bits.
#[derive(Debug, Drop)]
pub struct MemShelf {
    files: FileMap,
    calls: Calls,
    /// The calls of `read_part` and `read_exact`. Their faults are counted with those of the
    /// others.
    parts: Calls,
    handed: Handed,
    ghost rising: { Rising (paths files) } by { IsStrictlySortedBy-prop _ (paths files) },
    ghost texts: { All (λ path. ∥ IsUtf8 path ∥₁) (paths files) },
    ghost bytes: { HaveBytes files },
}

/// A copy of bytes of a file, which counts as handed out.
fn handed_copy(alloc: Global, handed: &mut Handed, bytes: &[u8]) -> Result<Text, NoMemory>
    ensures copy { IfOk result (λ text. text ≡ bytes.now) }
    ensures ok { OnOk result (handed.new ≡ handed.old + length bytes.now) }
    ensures err { OnErr result (handed.new ≡ handed.old) }
{
    let text = Text::copy_of(alloc, bytes)?;
    handed.add(bytes.len())?;
    Ok(text)
}

/// The numbers of a slice are bytes, which its type says: a clause knows them as numbers alone.
fn known_bytes(bytes: &[u8])
    ensures { AreBytes bytes.now }
{}

/// Puts bytes into a text, in the place of what it holds.
fn refill(into: &mut Text, bytes: &[u8]) -> Result<(), NoMemory>
    ensures { OnOk result (into.new ≡ bytes.now) }
{
    let empty = Text::new(into.allocator());
    let mut room = replace(into, empty).into_vec();
    room.clear();
    extend(&mut room, bytes)?;
    *into = Text::from_vec(room);
    Ok(())
}

impl MemShelf {
    ghost use Rattle.jm_outside.specs.Views.{files_on, calls_of, parts_of, handed_by};

    /// A shelf of no file, none of whose calls fails.
    pub fn new(alloc: Global) -> MemShelf
        ensures files { files_on result ≡ [] }
        ensures calls { calls_of result ≡ no_calls }
        ensures parts { parts_of result ≡ no_calls }
        ensures handed { handed_by result ≡ 0 }
    {
        MemShelf {
            files: FileMap::new(alloc),
            calls: Calls::new(alloc),
            parts: Calls::new(alloc),
            handed: Handed::new(),
        }
    }

    /// Makes the calls with these numbers fail, and no others. Those of `read_part` and
    /// `read_exact` have none of them.
    pub fn fail_on(&mut self, calls: List<u64>)
        ensures files { files_on self.new ≡ files_on self.old }
        ensures calls { calls_of self.new ≡ record (calls_of self.old) { failing = calls } }
        ensures parts { parts_of self.new ≡ parts_of self.old }
        ensures handed { handed_by self.new ≡ handed_by self.old }
    {
        self.calls.fail_on(calls);
    }

    /// Makes the calls of `read_part` and `read_exact` with these numbers, from 0, fail, and no
    /// others of them.
    pub fn fail_parts_on(&mut self, calls: List<u64>)
        ensures files { files_on self.new ≡ files_on self.old }
        ensures calls { calls_of self.new ≡ calls_of self.old }
        ensures parts { parts_of self.new ≡ record (parts_of self.old) { failing = calls } }
        ensures handed { handed_by self.new ≡ handed_by self.old }
    {
        self.parts.fail_on(calls);
    }

    /// Gives a path these bytes. It is no numbered call.
    pub fn put_file(&mut self, path: Text, bytes: Text) -> Result<(), NoMemory>
        requires text { IsUtf8 path }
        ensures ok { OnOk result (files_on self.new ≡ put (files_on self.old) path bytes) }
        ensures err { OnErr result (files_on self.new ≡ files_on self.old) }
        ensures calls { calls_of self.new ≡ calls_of self.old }
        ensures parts { parts_of self.new ≡ parts_of self.old }
        ensures handed { handed_by self.new ≡ handed_by self.old }
    {
        known_bytes(bytes.as_slice());
        self.files.put(path.into_vec(), bytes.into_vec())
    }

    /// The bytes of the file at a path. It is no numbered call.
    pub fn file(&self, path: &[u8]) -> Option<&[u8]>
        ensures { option_map (λ bytes. bytes.now) result ≡ file (files_on self.now) path.now }
    {
        self.files.file(path)
    }
}

impl Shelf for MemShelf {
    ghost use Rattle.jm_outside.specs.Views.{files_on, calls_of, parts_of, handed_by};
    ghost use Rattle.jm_outside.specs.Answers.{shelf_failed, handed_out, handed_exactly};

    ghost files = { λ shelf. Some (files_on shelf) };

    ghost faults = { λ shelf. (calls_of shelf).faults };

    // A file in memory has its own name from the start, and no disk.
    ghost whole = { λ _. true };

    ghost durable = { λ _. true };

    ghost handed = { λ shelf. handed_by shelf };

    /// A listed call answers `Failed`.
    fn names(&mut self, alloc: Global, dir: &[u8]) -> Result<List<Text>, ShelfError>
        requires text { IsUtf8 dir.now }
        ensures files { files_on self.new ≡ files_on self.old }
        ensures rising { IfOk result Rising }
        ensures texts { IfOk result (All IsUtf8) }
        ensures found { IfOk result (λ names. names ≡ names_below dir.now (files_on self.old)) }
        ensures listed { IsErrOf result ShelfError.Failed ↔ IsListed (calls_of self.old) }
        ensures handed { handed_by self.new ≡ handed_by self.old }
        ensures calls { calls_of self.new ≡ after_call (calls_of self.old) (shelf_failed result) }
        ensures parts { parts_of self.new ≡ parts_of self.old }

        // Follows from `calls`.
        ensures faults { CountsFaults (calls_of self.old).faults (calls_of self.new).faults
            (IsOk result) (IsErrOf result ShelfError.Failed) }
    {
        self.calls.pass()?;
        Ok(self.files.names(alloc, dir)?)
    }

    /// A listed call answers `Failed`.
    fn read(&mut self, alloc: Global, path: &[u8]) -> Result<Option<Text>, ShelfError>
        requires text { IsUtf8 path.now }
        ensures files { files_on self.new ≡ files_on self.old }
        ensures found { IfOk result (λ found. found ≡ file (files_on self.old) path.now) }
        ensures listed { IsErrOf result ShelfError.Failed ↔ IsListed (calls_of self.old) }
        ensures handed { handed_by self.new ≡ handed_by self.old + handed_out result }
        ensures calls { calls_of self.new ≡ after_call (calls_of self.old) (shelf_failed result) }
        ensures parts { parts_of self.new ≡ parts_of self.old }

        // Follows from `calls`.
        ensures faults { CountsFaults (calls_of self.old).faults (calls_of self.new).faults
            (IsOk result) (IsErrOf result ShelfError.Failed) }
    {
        self.calls.pass()?;
        match self.files.file(path) {
            Some(bytes) => Ok(Some(handed_copy(alloc, &mut self.handed, bytes)?)),
            None => Ok(None),
        }
    }

    /// A listed call answers `Failed`.
    fn length(&mut self, _alloc: Global, path: &[u8]) -> Result<Option<u64>, ShelfError>
        requires text { IsUtf8 path.now }
        ensures files { files_on self.new ≡ files_on self.old }
        ensures found { IfOk result (λ found. found ≡ file_length (files_on self.old) path.now) }
        ensures listed { IsErrOf result ShelfError.Failed ↔ IsListed (calls_of self.old) }
        ensures memory { ¬ IsErrOf result ShelfError.Memory }
        ensures handed { handed_by self.new ≡ handed_by self.old }
        ensures calls { calls_of self.new ≡ after_call (calls_of self.old) (shelf_failed result) }
        ensures parts { parts_of self.new ≡ parts_of self.old }

        // Follows from `calls`.
        ensures faults { CountsFaults (calls_of self.old).faults (calls_of self.new).faults
            (IsOk result) (IsErrOf result ShelfError.Failed) }
    {
        self.calls.pass()?;
        match self.files.file(path) {
            Some(bytes) => Ok(Some(bytes.len() as u64)),
            None => Ok(None),
        }
    }

    /// A listed call answers `Failed`.
    fn read_part(
        &mut self,
        alloc: Global,
        path: &[u8],
        at: u64,
        length: usize,
    ) -> Result<Option<Text>, ShelfError>
        requires text { IsUtf8 path.now }
        ensures files { files_on self.new ≡ files_on self.old }
        ensures found { IfOk result
            (λ found. found ≡ file_part (files_on self.old) path.now at length) }
        ensures listed { IsErrOf result ShelfError.Failed ↔ IsListed (parts_of self.old) }
        ensures within { handed_out result ≤ length }
        ensures handed { handed_by self.new ≡ handed_by self.old + handed_out result }
        ensures calls { calls_of self.new ≡ with_fault (calls_of self.old) (shelf_failed result) }
        ensures parts { parts_of self.new ≡ after_call (parts_of self.old) false }

        // Follows from `calls`.
        ensures faults { CountsFaults (calls_of self.old).faults (calls_of self.new).faults
            (IsOk result) (IsErrOf result ShelfError.Failed) }
    {
        if self.parts.number() {
            self.calls.fault();
            return Err(ShelfError::Failed);
        }
        match self.files.file(path) {
            Some(bytes) => {
                let part = part_of(bytes, at, length);
                Ok(Some(handed_copy(alloc, &mut self.handed, part)?))
            }
            None => Ok(None),
        }
    }

    /// A listed call answers `Failed`, and so does one for more bytes than the file has there.
    fn read_exact(
        &mut self,
        _alloc: Global,
        path: &[u8],
        at: u64,
        count: usize,
        into: &mut Text,
    ) -> Result<(), ShelfError>
        requires text { IsUtf8 path.now }
        ensures files { files_on self.new ≡ files_on self.old }
        ensures found { OnOk result
            (file_part (files_on self.old) path.now at count ≡ Some into.new) }
        ensures exact { OnOk result (length into.new ≡ count) }
        ensures failed { IsErrOf result ShelfError.Failed ↔ (IsListed (parts_of self.old)
            ⊎ (¬ HasPart (files_on self.old) path.now at count)) }
        ensures handed { handed_by self.new ≡ handed_by self.old + handed_exactly result count }
        ensures calls { calls_of self.new ≡ with_fault (calls_of self.old) (shelf_failed result) }
        ensures parts { parts_of self.new ≡ after_call (parts_of self.old) false }

        // Follows from `calls`.
        ensures faults { CountsFaults (calls_of self.old).faults (calls_of self.new).faults
            (IsOk result) (IsErrOf result ShelfError.Failed) }
    {
        let found = if self.parts.number() {
            None
        } else {
            self.files.exact_part(path, at, count)
        };
        let Some(part) = found else {
            self.calls.fault();
            return Err(ShelfError::Failed);
        };
        refill(into, part)?;
        self.handed.add(count)?;
        Ok(())
    }

    /// A listed call answers `Failed` and leaves all as before.
    fn create(&mut self, alloc: Global, path: &[u8]) -> Result<(), ShelfError>
        requires text { IsUtf8 path.now }
        ensures ok { OnOk result (files_on self.new ≡ put (files_on self.old) path.now []) }
        ensures err { OnErr result (files_on self.new ≡ files_on self.old) }
        ensures listed { IsErrOf result ShelfError.Failed ↔ IsListed (calls_of self.old) }
        ensures handed { handed_by self.new ≡ handed_by self.old }
        ensures calls { calls_of self.new ≡ after_call (calls_of self.old) (shelf_failed result) }
        ensures parts { parts_of self.new ≡ parts_of self.old }

        // Follows from `calls`.
        ensures faults { CountsFaults (calls_of self.old).faults (calls_of self.new).faults
            (IsOk result) (IsErrOf result ShelfError.Failed) }
    {
        self.calls.pass()?;
        self.files.put(copy_of(alloc, path)?, Vec::new(alloc))?;
        Ok(())
    }

    /// A listed call adds the first half of the bytes, rounded down, and answers `Failed`. Where no
    /// memory is found for that half it adds nothing, answers `Memory` and counts no fault.
    fn append(&mut self, alloc: Global, path: &[u8], bytes: &[u8]) -> Result<(), ShelfError>
        requires text { IsUtf8 path.now }
        ensures ok { OnOk result (files_on self.new ≡ add (files_on self.old) path.now bytes.now) }
        ensures failed { IsErrOf result ShelfError.Failed →
            files_on self.new ≡ add (files_on self.old) path.now (first_half bytes.now) }
        ensures memory { IsErrOf result ShelfError.Memory → files_on self.new ≡ files_on self.old }
        ensures listed { IsErrOf result ShelfError.Failed → IsListed (calls_of self.old) }
        ensures unlisted { OnOk result (¬ IsListed (calls_of self.old)) }
        ensures handed { handed_by self.new ≡ handed_by self.old }
        ensures calls { calls_of self.new ≡ after_call (calls_of self.old) (shelf_failed result) }
        ensures parts { parts_of self.new ≡ parts_of self.old }

        // Follows from `calls`.
        ensures faults { CountsFaults (calls_of self.old).faults (calls_of self.new).faults
            (IsOk result) (IsErrOf result ShelfError.Failed) }
    {
        if self.calls.number() {
            let (half, _) = bytes.split_at(bytes.len() / 2);
            self.files.add(alloc, path, half)?;
            self.calls.fault();
            return Err(ShelfError::Failed);
        }
        self.files.add(alloc, path, bytes)?;
        Ok(())
    }

    /// A listed call answers `Failed`.
    fn finish(&mut self, _alloc: Global) -> Result<(), ShelfError>
        ensures files { files_on self.new ≡ files_on self.old }
        ensures listed { IsErrOf result ShelfError.Failed ↔ IsListed (calls_of self.old) }
        ensures memory { ¬ IsErrOf result ShelfError.Memory }
        ensures handed { handed_by self.new ≡ handed_by self.old }
        ensures calls { calls_of self.new ≡ after_call (calls_of self.old) (shelf_failed result) }
        ensures parts { parts_of self.new ≡ parts_of self.old }

        // Follows from `calls`.
        ensures faults { CountsFaults (calls_of self.old).faults (calls_of self.new).faults
            (IsOk result) (IsErrOf result ShelfError.Failed) }
    {
        self.calls.pass()?;
        Ok(())
    }

    ghost sound = { λ shelf. record {
      rising = shelf.rising;
      texts = λ k d h. IsUtf8-had _ (shelf.texts k d h);
      bytes = shelf.bytes;
    } };
}
