ghost use Rattle.std.specs.Prelude.{◌≡◌, ◌++◌, ◌∷◌, [], Some, IfOk, OnOk, OnErr, IfSome, IfNone};
ghost use Rattle.std.specs.Prelude.{length, option_map};
ghost use Rattle.jm_outside.specs.Files.{HasPart, file, file_part, part, put, add, after_front};
ghost use Rattle.jm_outside.specs.Files.{names_below};

use jm_bytes::{List, NoMemory, Text, copy_of, extend};
use std::alloc::Global;
use std::collections::BTreeMap;
use std::marker::Model;

/// Files in memory, seen as their list.
#[derive(Debug, Drop)]
pub struct FileMap {
    files: BTreeMap<Vec<u8>, Vec<u8>>,
}

impl Model for FileMap {
    ghost use Rattle.jm_outside.specs.Files.{Files};
    ghost use Rattle.jm_outside.specs.MapView.{files_of};

    ghost Value = { Files };

    ghost view = { λ a. files_of a.files };
}

impl FileMap {
    pub fn new(alloc: Global) -> FileMap
        ensures { result ≡ [] }
    {
        FileMap {
            files: BTreeMap::new(alloc),
        }
    }

    pub fn file(&self, path: &[u8]) -> Option<&[u8]>
        ensures { option_map (λ bytes. bytes.now) result ≡ file self.now path.now }
    {
        match self.files.get(path) {
            Some(bytes) => Some(bytes.as_slice()),
            None => None,
        }
    }

    /// Exactly `count` bytes of a file, from the byte `at` on. None where it hasn't as many there.
    pub fn exact_part(&self, path: &[u8], at: u64, count: usize) -> Option<&[u8]>
        ensures part { IfSome result
            (λ part. file_part self.now path.now at count ≡ Some part.now) }
        ensures exact { IfSome result (λ part. length part.now ≡ count) }
        ensures none { IfNone result (¬ HasPart self.now path.now at count) }
    {
        let part = part_of(self.file(path)?, at, count);
        if part.len() < count { None } else { Some(part) }
    }

    /// The names of the files below a folder.
    pub fn names(&self, alloc: Global, folder: &[u8]) -> Result<List<Text>, NoMemory>
        ensures { IfOk result (λ names. names ≡ names_below folder.now self.now) }
    {
        let mut names = List::new(alloc);
        for (path, _) in self.files.iter() {
            if let Some(name) = name_below(folder, path.as_slice()) {
                names.push(Text::copy_of(alloc, name)?)?;
            }
        }
        Ok(names)
    }

    pub fn put(&mut self, path: Vec<u8>, bytes: Vec<u8>) -> Result<(), NoMemory>
        ensures ok { OnOk result (self.new ≡ put self.old path.items bytes.items) }
        ensures err { OnErr result (self.new ≡ self.old) }
    {
        self.files.insert(path, bytes)?;
        Ok(())
    }

    /// Adds bytes to the end of a file, to an empty one where none is there.
    pub fn add(&mut self, alloc: Global, path: &[u8], bytes: &[u8]) -> Result<(), NoMemory>
        ensures ok { OnOk result (self.new ≡ add self.old path.now bytes.now) }
        ensures err { OnErr result (self.new ≡ self.old) }
    {
        match self.files.get_mut(path) {
            Some(file) => extend(file, bytes),
            None => self.put(copy_of(alloc, path)?, copy_of(alloc, bytes)?),
        }
    }
}

/// At most `count` bytes, from the byte `at` on.
pub fn part_of(bytes: &[u8], at: u64, count: usize) -> &[u8]
    ensures { result.now ≡ part bytes.now at count }
{
    let start = at.min(bytes.len() as u64) as usize;
    let (_, rest) = bytes.split_at(start);
    let (part, _) = rest.split_at(count.min(rest.len()));
    part
}

fn name_below<'a>(folder: &[u8], path: &'a [u8]) -> Option<&'a [u8]>
    ensures { option_map (λ name. name.now) result ≡ after_front (folder.now ++ 47 ∷ []) path.now }
{
    path.strip_prefix(folder)?.strip_prefix(b"/")
}
