//! A file that is another one by the time that it is read again.

ghost use Rattle.std.specs.Prelude.{◌≡◌, IsUtf8};
ghost use Rattle.jm_outside.specs.Views.{calls_of, handed_by};

use crate::calls::shelf_of;
use crate::runs::told_by;
use jm_bytes::{List, NoMemory, Text};
use jm_halves::NoGate;
use jm_outside::{MemShelf, Shelf, ShelfError};
use std::alloc::Global;
use std::test::Fail;

/// The path of the file.
const PATH: &[u8] = b"m/a/module-info.class";

/// What it has at first: the module a, which requires nothing.
const FIRST: &[u8] = b"\xCA\xFE\xBA\xBE\0\0\05\0\x06\x01\0\x0Bmodule-info\x07\0\x01\x01\0\x06Module\
    \x01\0\x01a\x13\0\x04\
    \x80\0\0\x02\0\0\0\0\0\0\0\0\0\x01\0\x03\0\0\0\x10\0\x05\0\0\0\0\0\0\0\0\0\0\0\0\0\0";

/// What it has later.
const LATER: &[u8] = b"other";

/// A shelf on which the file is another one from its second reading on.
#[derive(Drop)]
struct Changing {
    shelf: MemShelf,
    is_read: bool,
}

impl Changing {
    /// Changes the file, if it is the one that is to be read and was read before.
    fn change(&mut self, alloc: Global, path: &[u8]) -> Result<(), NoMemory>
        requires text { IsUtf8 path.now }
        ensures handed { handed_by self.new.shelf ≡ handed_by self.old.shelf }
        ensures faults { (calls_of self.new.shelf).faults ≡ (calls_of self.old.shelf).faults }
    {
        if path != PATH {
            return Ok(());
        }
        if self.is_read {
            let path = Text::copy_of(alloc, path)?;
            return self.shelf.put_file(path, Text::copy_of(alloc, LATER)?);
        }
        self.is_read = true;
        Ok(())
    }
}

/// It tells no files, since they change by themselves.
impl Shelf for Changing {
    ghost use Rattle.std.specs.Prelude.{None, true};
    ghost use Rattle.jm_outside.specs.Views.{calls_of, handed_by};

    ghost files = { λ _. None };

    ghost faults = { λ a. (calls_of a.shelf).faults };

    ghost whole = { λ _. true };

    ghost durable = { λ _. true };

    ghost handed = { λ a. handed_by a.shelf };

    fn names(&mut self, alloc: Global, dir: &[u8]) -> Result<List<Text>, ShelfError> {
        self.shelf.names(alloc, dir)
    }

    fn read(&mut self, alloc: Global, path: &[u8]) -> Result<Option<Text>, ShelfError> {
        self.change(alloc, path)?;
        self.shelf.read(alloc, path)
    }

    fn length(&mut self, alloc: Global, path: &[u8]) -> Result<Option<u64>, ShelfError> {
        self.shelf.length(alloc, path)
    }

    fn read_part(
        &mut self,
        alloc: Global,
        path: &[u8],
        at: u64,
        length: usize,
    ) -> Result<Option<Text>, ShelfError> {
        self.shelf.read_part(alloc, path, at, length)
    }

    fn read_exact(
        &mut self,
        alloc: Global,
        path: &[u8],
        at: u64,
        count: usize,
        into: &mut Text,
    ) -> Result<(), ShelfError> {
        self.change(alloc, path)?;
        self.shelf.read_exact(alloc, path, at, count, into)
    }

    fn create(&mut self, alloc: Global, path: &[u8]) -> Result<(), ShelfError> {
        self.shelf.create(alloc, path)
    }

    fn append(&mut self, alloc: Global, path: &[u8], bytes: &[u8]) -> Result<(), ShelfError> {
        self.shelf.append(alloc, path, bytes)
    }

    fn finish(&mut self, alloc: Global) -> Result<(), ShelfError> {
        self.shelf.finish(alloc)
    }

    ghost sound = { λ _. tt };
}

/// An image of that module, and its resources as files.
const LINES: &[&str] = &[
    "link --module-path m --add-modules a --output image",
    "extract image --dir out",
];

#[test]
fn an_image_has_the_descriptor_that_decided(rt: HostRuntime) -> Result<(), Fail> {
    let shelf = shelf_of(rt.alloc(), &[("m/a/module-info.class", FIRST)], &[])?;
    let mut shelf = Changing {
        shelf,
        is_read: false,
    };
    for line in LINES {
        let told = told_by(&rt, rt.alloc(), line, &mut shelf, &NoGate)?;
        assert!(rt; told.starts_with("0|"), "{line}: {told}");
    }
    assert_eq!(rt; shelf.shelf.file(PATH), Some(LATER));
    assert_eq!(rt; shelf.shelf.file(b"out/a/module-info.class"), Some(FIRST));
    Ok(())
}
