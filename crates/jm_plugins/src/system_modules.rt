//! The classes of java.base with which a JVM knows the modules of its image beforehand.
ghost use Rattle.std.specs.Prelude.{◌≡◌, map, IfOk, OnOk};
ghost use Rattle.std.specs.Str.{bytes_eq};
ghost use Rattle.jm_plugins.specs.SystemModules.{is_class_here, is_system_modules, map_name};
ghost use Rattle.jm_plugins.specs.SystemModules.{plain_map_text, with_plain_map};
ghost use Rattle.jm_plugins.specs.SystemModules.{without_system_modules};

use crate::exclusion::{Dropping, drop_named};
use jm_bytes::{NoMemory, Text};
use jm_halves::{Gate, Workers};
use jm_pool::Pool;
use std::alloc::Global;
use std::thread::Threads;

/// The class that tells of no class that names all modules: its head, its constants, its members.
const PLAIN_MAP: &[u8] = b"\xCA\xFE\xBA\xBE\0\0\0\x34\0\x12\
    \x01\0\x24jdk/internal/module/SystemModulesMap\
    \x07\0\x01\
    \x01\0\x10java/lang/Object\
    \x07\0\x03\
    \x01\0\x06<init>\
    \x01\0\x03()V\
    \x0C\0\x05\0\x06\
    \x0A\0\x04\0\x07\
    \x01\0\x04Code\
    \x01\0\x10allSystemModules\
    \x01\0\x25()Ljdk/internal/module/SystemModules;\
    \x01\0\x14defaultSystemModules\
    \x01\0\x0BmoduleNames\
    \x01\0\x15()[Ljava/lang/String;\
    \x01\0\x10java/lang/String\
    \x07\0\x0F\
    \x01\0\x0AclassNames\
    \0\x30\0\x02\0\x04\0\0\0\0\0\x05\
    \0\0\0\x05\0\x06\0\x01\0\x09\0\0\0\x11\0\x01\0\x01\0\0\0\x05\x2A\xB7\0\x08\xB1\0\0\0\0\
    \0\x08\0\x0A\0\x0B\0\x01\0\x09\0\0\0\x0E\0\x01\0\0\0\0\0\x02\x01\xB0\0\0\0\0\
    \0\x08\0\x0C\0\x0B\0\x01\0\x09\0\0\0\x0E\0\x01\0\0\0\0\0\x02\x01\xB0\0\0\0\0\
    \0\x08\0\x0D\0\x0E\0\x01\0\x09\0\0\0\x11\0\x01\0\0\0\0\0\x05\x03\xBD\0\x10\xB0\0\0\0\0\
    \0\x08\0\x11\0\x0E\0\x01\0\x09\0\0\0\x11\0\x01\0\0\0\0\0\x05\x03\xBD\0\x10\xB0\0\0\0\0\
    \0\0";

/// The bytes of the plain map.
fn plain_map() -> &'static [u8]
    ensures { result.now ≡ plain_map_text }
{
    PLAIN_MAP
}

/// Whether the end of a name is that of a class in the folder itself.
fn is_class_here(rest: &[u8]) -> bool
    ensures { result ≡ is_class_here rest.now }
{
    rest.ends_with(b".class") && !rest.contains(&b'/')
}

/// Whether a name is that of a class that names all modules of an image.
pub fn is_system_modules(name: &[u8]) -> bool
    ensures { result ≡ is_system_modules name.now }
{
    match name.strip_prefix(b"/java.base/jdk/internal/module/SystemModules$".as_slice()) {
        Some(rest) => is_class_here(rest),
        None => false,
    }
}

/// Whether a name is that of the map, which tells a JVM which of these classes to take.
fn is_map(name: &[u8]) -> bool
    ensures { result ≡ bytes_eq name.now map_name }
{
    name == b"/java.base/jdk/internal/module/SystemModulesMap.class".as_slice()
}

/// Gives the map the bytes of the plain one, where it is there.
fn put_plain_map(alloc: Global, pool: &mut Pool) -> Result<(), NoMemory>
    ensures { OnOk result (pool.new ≡ map with_plain_map pool.old) }
{
    for place in 0..pool.len() {
        let (name, _) = pool.at(place);
        if is_map(name) {
            pool.replace(place, Text::copy_of(alloc, plain_map())?);
        }
    }
    Ok(())
}

/// Drops the classes that name all modules of an image, and puts the plain map for the one that
/// tells of them. A JVM then goes by the descriptors of its modules.
pub fn drop_system_modules<R: Threads + Sync, G: Gate + Sync>(
    workers: &Workers<R, G>,
    pool: Pool,
) -> Result<Pool, NoMemory>
    ensures { IfOk result (λ left. left ≡ without_system_modules pool) }
{
    let mut pool = drop_named(workers, pool, Dropping::SystemModules)?;
    put_plain_map(workers.alloc, &mut pool)?;
    Ok(pool)
}
