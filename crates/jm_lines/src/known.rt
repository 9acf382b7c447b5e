use crate::escapes::{Spelling, bytes_of};
use std::alloc::{AllocError, Global};

/// Bytes under a name.
#[derive(Drop)]
struct Named {
    name: String,
    bytes: Vec<u8>,
}

/// A file of a group.
#[derive(Drop)]
pub struct Member {
    pub group: String,
    pub path: String,
    pub bytes: Vec<u8>,
}

/// What the lines so far gave names to: bytes, and groups of files.
#[derive(Drop)]
pub struct Known {
    named: Vec<Named>,
    members: Vec<Member>,
}

impl Known {
    /// Nothing yet.
    pub fn new(alloc: Global) -> Known {
        Known {
            named: Vec::new(alloc),
            members: Vec::new(alloc),
        }
    }

    /// Puts bytes at the end of those under a name.
    pub fn add(&mut self, alloc: Global, name: &str, bytes: &[u8]) -> Result<(), AllocError> {
        for named in self.named.as_mut_slice() {
            if named.name.as_str() == name {
                return named.bytes.extend_from_slice(bytes);
            }
        }
        self.named.push(Named {
            name: String::from_str(alloc, name)?,
            bytes: Vec::from_slice(alloc, bytes)?,
        })?;
        Ok(())
    }

    /// Puts a file into a group.
    pub fn add_member(
        &mut self,
        alloc: Global,
        group: &str,
        path: &str,
        bytes: Vec<u8>,
    ) -> Result<(), AllocError> {
        self.members.push(Member {
            group: String::from_str(alloc, group)?,
            path: String::from_str(alloc, path)?,
            bytes,
        })?;
        Ok(())
    }

    /// The files of all groups.
    pub fn members(&self) -> &[Member] {
        self.members.as_slice()
    }

    /// The bytes under a name.
    fn bytes_under(&self, name: &str) -> Option<&[u8]> {
        for named in self.named.as_slice() {
            if named.name.as_str() == name {
                return Some(named.bytes.as_slice());
            }
        }
        None
    }

    /// The first name of some bytes.
    pub fn name_of(&self, bytes: &[u8]) -> Option<&str> {
        for named in self.named.as_slice() {
            if named.bytes.as_slice() == bytes {
                return Some(named.name.as_str());
            }
        }
        None
    }

    /// The first name of bytes of which some bytes, at least one, are a front.
    pub fn name_of_whole(&self, front: &[u8]) -> Option<&str> {
        for named in self.named.as_slice() {
            if !front.is_empty() && named.bytes.as_slice().starts_with(front) {
                return Some(named.name.as_str());
            }
        }
        None
    }

    /// The bytes that a value stands for, `@` and a name or a text with escapes.
    pub fn value(&self, alloc: Global, value: &str) -> Result<Option<Vec<u8>>, AllocError> {
        let Some(name) = value.strip_prefix('@') else {
            return bytes_of(alloc, Spelling::Escapes, value);
        };
        match self.bytes_under(name) {
            Some(bytes) => Ok(Some(Vec::from_slice(alloc, bytes)?)),
            None => Ok(None),
        }
    }
}
