//! Files, folders, links and streams of the system.

use crate::shelves::{PARTS, TREE, unlike};
use crate::streams::{given_by, put_marks};
use jm_bytes::Text;
use jm_disk::FileShelf;
use jm_outside::{Shelf, StdSink, StdSource};
use std::alloc::Global;
use std::fs::File;
use std::os::unix::fs::symlink;
use std::rt::{Env, Files};
use std::test::Fail;
use std::{env, fs, io, process};

/// The path of a folder of this process alone.
fn own_folder<R: Env + AllocGlobal>(rt: &R, id: u32) -> Result<String, Fail> {
    let folder = env::temp_dir(rt)?;
    Ok(format!(in rt.alloc(); "{}/jm_upper_tests-{id}", folder.display())?)
}

/// Makes that folder and goes into it.
fn enter<R: Env + Files + AllocGlobal>(rt: &R, id: u32) -> Result<(), Fail> {
    let own = own_folder(rt, id)?;
    fs::create_dir(rt, own.as_str())?;
    Ok(env::set_current_dir(rt, own.as_str())?)
}

fn remove<R: Env + Files + AllocGlobal>(rt: &R, id: u32) -> Result<(), Fail> {
    let own = own_folder(rt, id)?;
    Ok(fs::remove_dir_all(rt, own.as_str())?)
}

/// Links to a file, to folders, to nothing, to a device and to the folder in which the link stands,
/// and a file and a folder as a run that was stopped leaves them.
fn make_links<R: Files>(rt: &R) -> io::Result<()> {
    for folder in ["d/empty", "gone", "ring", "device", "left", "begun"] {
        fs::create_dir(rt, folder)?;
    }
    fs::create_dir(rt, "begun/x.jm_tool-0")?;
    fs::write(rt, "left/x.jm_tool-12", "")?;
    symlink(rt, "a b", "d/link")?;
    symlink(rt, "a/b", "d/way")?;
    symlink(rt, "d", "f")?;
    symlink(rt, "nowhere", "gone/x")?;
    symlink(rt, ".", "ring/r")?;
    symlink(rt, "/dev/null", "device/x")
}

/// Links are followed. For a read a file in the place of a folder is no fault, but a folder in the
/// place of a file is one. For a write both are, and so is a folder that isn't there.
const LINKED: &[&str] = &[
    "links are gone through|names|f||a b,a/b.txt,a/b/two words.txt,link,way/two words.txt,",
    "what was put anew|read|d/a b||22",
    "an empty file|read|d/a/b.txt||",
    "a file in two folders|read|d/a/b/two words.txt||4444",
    "a link to a file is read|read|d/link||22",
    "it has the file's length|length|d/link||2",
    "and a part of it|part|d/link|1 1|2",
    "a link to a file is made anew|create|d/link||",
    "bytes are added|append|d/link|333|",
    "what the link leads to was replaced|read|d/a b||333",
    "no other file was left|names|d||a b,a/b.txt,a/b/two words.txt,link,way/two words.txt,",
    "a link to nothing is no file|read|gone/x||-",
    "and has no length|length|gone/x||-",
    "an empty folder has no names|names|d/empty||",
    "a file in place of a folder is no fault of a read|read|d/a/b.txt/c||-",
    "nor of a part|part|d/a/b.txt/c|0 1|-",
    "a folder in place of a file is a fault of a read|read|d/empty||!",
    "and of a part|part|d/empty|0 1|!",
    "a file in place of a folder is a fault of a create|create|d/a/b.txt/c||!",
    "a folder in place of a file is a fault of a create|create|d/empty||!",
    "a folder that isn't there is a fault of an append|append|e/a|1|!",
];

/// No folder is made for a path that can't be a file's.
const NAMELESS: &[&str] = &[
    "the last part is a parent|create|none/x/..||!",
    "it is the folder itself|create|none/.||!",
    "there is none|create|none/||!",
    "nothing is there|length|none||-",
];

const FOLDERS: &[&str] = &[
    "a file has no names|names|d/a b||",
    "a folder isn't read|read|d/empty||!",
];

/// Scripts, and the last failure of a shelf that runs each.
const SCRIPTS: &[(&str, &[&str], Option<&str>)] = &[
    ("links and folders", LINKED, Some("e/a: entity not found")),
    (
        "no file where one is wanted",
        FOLDERS,
        Some("d/empty: is a directory"),
    ),
    (
        "a link to nothing is a fault with its own path",
        &["the folder is no list|names|gone||!"],
        Some("gone/x: a link that leads nowhere"),
    ),
    (
        "the 41st link on one way is a fault",
        &["the folder is no list|names|ring||!"],
        Some(concat!(
            "ring/r/r/r/r/r/r/r/r/r/r/r/r/r/r/r/r/r/r/r/r",
            "/r/r/r/r/r/r/r/r/r/r/r/r/r/r/r/r/r/r/r/r/r",
            ": more than 40 links on one way, or links in a ring"
        )),
    ),
    (
        "a device is a fault of a list",
        &["the folder is no list|names|device||!"],
        Some("device/x: neither a file nor a folder"),
    ),
    (
        "a link to nothing isn't replaced",
        &["the link is no file|create|gone/x||!"],
        Some("gone/x: a link that leads nowhere"),
    ),
    (
        "an unfinished file is a fault with its own path",
        &["the folder is no list|names|left||!"],
        Some("left/x.jm_tool-12: an unfinished file of a run that was stopped"),
    ),
    (
        "so is an unfinished folder",
        &["the folder is no list|names|begun||!"],
        Some("begun/x.jm_tool-0: an unfinished file of a run that was stopped"),
    ),
    (
        "a path that ends in no name makes no folder",
        NAMELESS,
        Some("none/: neither a file nor a link to one"),
    ),
    (
        "a device isn't replaced",
        &["the device is no file|create|device/x||!"],
        Some("device/x: neither a file nor a link to one"),
    ),
    (
        "a folder has no length",
        &["the folder is no file|length|d/empty||!"],
        Some("d/empty: neither a file nor a link to one"),
    ),
    (
        "a device has no part",
        &["the device is no file|part|device/x|0 1|!"],
        Some("device/x: neither a file nor a link to one"),
    ),
    (
        "a file that ends before so many bytes",
        &[
            "as many as there are|exact|p/six|0 1|z",
            "one more|exact|p/six|0 2|!",
        ],
        Some("p/six: changed while it was read"),
    ),
    (
        "a file that ends far before a byte",
        &["the last place of all|exact|p/six|end 1|!"],
        Some("p/six: changed while it was read"),
    ),
    (
        "a file that isn't there has no bytes",
        &["there is none|exact|p/no|0 0|!"],
        Some("p/no: entity not found"),
    ),
    (
        "a file that gives more than its length",
        &["the system tells 0|read|/proc/version||!"],
        Some("/proc/version: changed while it was read"),
    ),
];

/// The bytes of a file while it is made over another one; then, when it was given up, whether it is
/// there and the bytes of the other one. Of a file where none was, whether one is there while it is
/// made, and when it was given up; and the bytes of one that took its name.
fn given_up<R: Files<File = File> + AllocGlobal>(rt: &R) -> Result<String, Fail> {
    let alloc = rt.alloc();
    let mut shelf = FileShelf::new(rt);
    shelf.create(alloc, b"d/a b")?;
    shelf.append(alloc, b"d/a b", b"55555")?;
    let made = fs::read_to_string(rt, "d/a b.jm_tool-0")?;
    shelf.give_up();
    let is_left = fs::exists(rt, "d/a b.jm_tool-0")?;
    let old = fs::read_to_string(rt, "d/a b")?;
    shelf.create(alloc, b"new")?;
    let is_early = fs::exists(rt, "new")?;
    shelf.give_up();
    let is_new = fs::exists(rt, "new")?;
    shelf.create(alloc, b"new")?;
    shelf.append(alloc, b"new", b"1")?;
    shelf.finish(alloc)?;
    let new = fs::read_to_string(rt, "new")?;
    Ok(format!(in alloc; "{made} {is_left} {old} {is_early} {is_new} {new}")?)
}

/// The length of the file `open`, a space, and what it has of the three bytes from its second on.
fn open_now<R: Files<File = File> + AllocGlobal>(
    alloc: Global,
    shelf: &mut FileShelf<'_, R>,
) -> Result<String, Fail> {
    let length = shelf.length(alloc, b"open")?.unwrap_or(u64::MAX);
    let part = shelf.read_part(alloc, b"open", 1, 3)?;
    let part = part.unwrap_or(Text::new(alloc)).into_vec();
    let part = String::from_utf8(part)?;
    Ok(format!(in alloc; "{length} {part}")?)
}

/// What that file has; then, when it got shorter, whether a part fails that its length promised,
/// and what it has by its new length; what it has when another file has its name and a third one
/// was made; and, when a part of the third one and the length of a fourth one were asked, whether
/// the other file is refused.
fn kept_open<R: Files<File = File> + AllocGlobal>(rt: &R) -> Result<String, Fail> {
    let alloc = rt.alloc();
    let mut shelf = FileShelf::new(rt);
    fs::write(rt, "open", "abcdef")?;
    let whole = open_now(alloc, &mut shelf)?;
    fs::write(rt, "open", "ab")?;
    let is_lost = shelf.read_part(alloc, b"open", 1, 3).is_err();
    let shorter = open_now(alloc, &mut shelf)?;
    fs::write(rt, "other", "123456")?;
    fs::rename(rt, "other", "open")?;
    shelf.create(alloc, b"third")?;
    shelf.append(alloc, b"third", b"3")?;
    shelf.finish(alloc)?;
    let same = open_now(alloc, &mut shelf)?;
    shelf.read_part(alloc, b"third", 0, 0)?;
    shelf.length(alloc, b"new")?;
    let is_refused = shelf.length(alloc, b"open").is_err();
    Ok(format!(in alloc; "{whole}, {is_lost}, {shorter}, {same}, {is_refused}")?)
}

/// Whether a new folder is there when a file of it was made and a part of one that was open before
/// is read; when another file of it was made, and was asked for, and when the making of files ended
/// then. Of another new folder with two files, whether it is there when the making of files ended,
/// whether it is left beside its place, and the bytes of the first file. Of a third one, whether it
/// stands beside its place, and whether it is left when it was given up.
fn made_together<R: Files<File = File> + AllocGlobal>(rt: &R) -> Result<String, Fail> {
    let alloc = rt.alloc();
    let mut shelf = FileShelf::new(rt);
    shelf.length(alloc, b"new")?;
    shelf.create(alloc, b"one/a/x")?;
    shelf.append(alloc, b"one/a/x", b"1")?;
    shelf.read_part(alloc, b"new", 0, 1)?;
    let is_early = fs::exists(rt, "one")?;
    shelf.create(alloc, b"one/y")?;
    shelf.length(alloc, b"one/y")?;
    let is_asked = fs::exists(rt, "one")?;
    let is_ended = shelf.finish(alloc).is_ok();
    shelf.create(alloc, b"two/x")?;
    shelf.append(alloc, b"two/x", b"2")?;
    shelf.create(alloc, b"two/y")?;
    shelf.finish(alloc)?;
    let is_there = fs::exists(rt, "two/y")?;
    let is_unfinished = fs::exists(rt, "two.jm_tool-0")?;
    let first = fs::read_to_string(rt, "two/x")?;
    shelf.create(alloc, b"three/x")?;
    let is_beside = fs::exists(rt, "three.jm_tool-0/x")?;
    shelf.give_up();
    let is_left = fs::exists(rt, "three")? || fs::exists(rt, "three.jm_tool-0")?;
    Ok(format!(in alloc;
        "{is_early} {is_asked} {is_ended} {is_there} {is_unfinished} {first} {is_beside} {is_left}"
    )?)
}

#[test]
fn the_system_keeps_files(rt: HostRuntime) -> Result<(), Fail> {
    let id = process::id(rt.process());
    enter(&rt, id)?;
    let mut shelf = FileShelf::new(&rt);
    assert_eq!(rt; unlike(rt.alloc(), &mut shelf, TREE)?, None);
    assert_eq!(rt; unlike(rt.alloc(), &mut shelf, PARTS)?, None);
    assert_eq!(rt; shelf.last_failure(), None);
    make_links(&rt)?;
    for (shows, script, failure) in SCRIPTS {
        let mut shelf = FileShelf::new(&rt);
        assert_eq!(rt; unlike(rt.alloc(), &mut shelf, script)?, None, "{shows}");
        assert_eq!(rt; shelf.last_failure(), *failure, "{shows}");
    }
    assert_eq!(rt; given_up(&rt)?.as_str(), "55555 false 333 false false 1");
    assert_eq!(rt; kept_open(&rt)?.as_str(), "6 bcd, true, 2 b, 2 b, true");
    assert_eq!(rt;
        made_together(&rt)?.as_str(),
        "false true true true false 2 true false"
    );
    let mut sink = StdSink::new(fs::create(&rt, "stream")?);
    assert_eq!(rt; put_marks(rt.alloc(), &mut sink)?.as_str(), "...");
    let mut source = StdSource::new(fs::open(&rt, "stream")?);
    let given = given_by(rt.alloc(), &mut source, 6)?;
    assert_eq!(rt; given.as_str(), "ab|c1|23|45|z||");
    remove(&rt, id)
}
