ghost use Rattle.std.specs.Prelude.{◌≡◌, length};

use jm_bytes::{NoMemory, Or, Text};
use jm_pool::{Pool, Twice};
use std::alloc::Global;
use std::test::Fail;

/// Puts a pair into a pool.
fn push(alloc: Global, pool: &mut Pool, name: &str, bytes: &[u8]) -> Result<(), Or<Twice>> {
    let name = Text::copy_of(alloc, name.as_bytes())?;
    pool.try_push(name, Text::copy_of(alloc, bytes)?)
}

/// The pool of some pairs.
pub fn pool_of(alloc: Global, pairs: &[(&str, &[u8])]) -> Result<Pool, Or<Twice>> {
    let mut pool = Pool::new(alloc);
    for (name, bytes) in pairs {
        push(alloc, &mut pool, name, bytes)?;
    }
    Ok(pool)
}

/// Whether a pool has these pairs, in this order.
fn is_pool_of(pool: &Pool, pairs: &[(&str, &[u8])]) -> bool {
    for place in 0..pool.len() {
        let (name, bytes) = pool.at(place);
        match pairs.get(place) {
            Some((due, held)) if due.as_bytes() == name && *held == bytes => {}
            _ => return false,
        }
    }
    pool.len() == pairs.len()
}

/// The last of three pairs in front of the others.
fn last_first(pool: Pool) -> Result<Pool, NoMemory>
    requires three { length pool ≡ 3 }
{
    pool.reorder(&[2, 0, 1])
}

const GIVEN: &[(&str, &[u8])] = &[("/a/x", b"1"), ("/a/y", b""), ("/b/x", b"333")];

/// What is shown; names that are looked up in the given pool, and the bytes that are found.
const LOOKED_UP: &[(&str, &str, Option<&[u8]>)] = &[
    ("the first name", "/a/x", Some(b"1")),
    ("a name of no byte", "/a/y", Some(b"")),
    ("a front of a name", "/a", None),
    ("a longer name", "/a/x1", None),
    ("the empty name", "", None),
];

#[test]
fn names_are_looked_up(rt: HostRuntime) -> Result<(), Fail> {
    let pool = pool_of(rt.alloc(), GIVEN)?;
    for (shows, name, bytes) in LOOKED_UP {
        assert_eq!(rt; pool.get(name.as_bytes()), *bytes, "{shows}");
    }
    Ok(())
}

#[test]
fn a_pool_is_a_list_of_pairs(rt: HostRuntime) -> Result<(), Fail> {
    let given = pool_of(rt.alloc(), GIVEN)?;
    assert_eq!(rt; given.len(), 3);
    let mut pool = last_first(given)?;
    let due: &[(&str, &[u8])] = &[("/b/x", b"333"), ("/a/x", b"1"), ("/a/y", b"")];
    assert!(rt; is_pool_of(&pool, due), "in another order");
    assert_eq!(rt; pool.len(), 3);
    pool.replace(1, Text::copy_of(rt.alloc(), b"22")?);
    let due: &[(&str, &[u8])] = &[("/b/x", b"333"), ("/a/x", b"22"), ("/a/y", b"")];
    assert!(rt; is_pool_of(&pool, due), "with other bytes");
    assert_eq!(rt; pool.len(), 3);
    pool.retain_flags(&[false, true, true]);
    let due: &[(&str, &[u8])] = &[("/a/x", b"22"), ("/a/y", b"")];
    assert!(rt; is_pool_of(&pool, due), "without the first");
    assert_eq!(rt; pool.get(b"/b/x"), None, "a name that went");
    Ok(())
}

#[test]
fn a_name_is_taken_once(rt: HostRuntime) -> Result<(), Fail> {
    let mut pool = pool_of(rt.alloc(), &[("/a/x", b"1")])?;
    match push(rt.alloc(), &mut pool, "/a/x", b"2") {
        Err(Or::Fault(Twice(name))) => assert_eq!(rt; name.as_slice(), b"/a/x".as_slice()),
        other => assert!(rt; false, "the second push of a name: {other:?}"),
    }
    assert!(rt; is_pool_of(&pool, &[("/a/x", b"1")]), "as before");
    Ok(())
}
