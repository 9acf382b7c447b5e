ghost use Rattle.std.specs.Prelude.{◌≡◌, ◌↔◌, ◌<◌, ◌+◌, true, length, IfOk};
ghost use Rattle.jm_class.specs.Classes.{ReadsAs, IsClass};
ghost use Rattle.jm_class.specs.Views.{plain};
ghost use Rattle.jm_modinfo.specs.Written.{numbers_text};
ghost use Rattle.jm_packages.specs.Packages.{packages_body, with_packages, takes_packages};
ghost use Rattle.jm_packages.specs.Packages.{listed, packages_text, ListsFor, PackagesFor, Stays};

use crate::constants::{packages_body, push_packages, put_numbers};
use crate::listed::listed;
use crate::room::{takes_none, takes_packages};
use jm_bytes::{NoMemory, Or, Text};
use jm_class::{Attribute, Body, Class, ClassFault, DEFAULT_RELEASE, Slot, read_for};
use jm_classout::write;
use std::alloc::Global;

/// A class with the constants of packages and the attribute that lists them.
fn with_packages<'a>(
    class: Class<'a>,
    packages: &'a [Text],
    numbers: &'a [u8],
    body: &'a [u8],
) -> Result<Class<'a>, NoMemory>
    requires room { length class.pool < 65534 }
    requires numbers { numbers.now ≡ numbers_text (length class.pool + 2) (length packages.now) }
    requires body { body.now ≡ packages_body (length class.pool + 1) (length packages.now) }
    ensures { IfOk result (λ made. plain made ≡ with_packages packages.now (plain class.entry)) }
{
    let mut class = class;
    let name = class.pool.len() as u16 + 1;
    class.pool.push(Slot::Constant {
        tag: 1,
        body: b"ModulePackages",
    })?;
    push_packages(&mut class.pool, packages, numbers)?;
    class.attributes.push(Attribute {
        name,
        body: Body::Plain(body),
    })?;
    Ok(class)
}

/// The text of a class that takes a list of these packages.
fn text_with(alloc: Global, class: Class, packages: &[Text]) -> Result<Text, NoMemory>
    requires fits { IsClass (plain class) }
    requires room { takes_packages packages.now (plain class) ≡ true }
    ensures { IfOk result (λ text. text ≡ packages_text packages.now (plain class.entry)) }
{
    let slots = class.pool.len() as u16;
    let count = packages.len() as u16;
    let mut numbers = Vec::new(alloc);
    put_numbers(&mut numbers, slots, count)?;
    let body = packages_body(alloc, slots + 1, count)?;
    let made = with_packages(class, packages, numbers.as_slice(), body.as_slice())?;
    write(alloc, &made)
}

/// The text of a class with a list of these packages, or as it is.
fn text_of(alloc: Global, bytes: &[u8], class: Class, packages: &[Text]) -> Result<Text, NoMemory>
    requires { ReadsAs bytes.now (plain class) }
    ensures { IfOk result (λ text. text ≡ packages_text packages.now (plain class.entry)) }
{
    if takes_packages(&class, packages) {
        text_with(alloc, class, packages)
    } else {
        Text::copy_of(alloc, bytes)
    }
}

/// The class of a module, of a release, with the attribute ModulePackages, which lists these
/// packages, as the last of its own (JVMS 4.7.26). A class that is no module's, that is of a major
/// version below 53, that has such an attribute, or that has no room for it, stays as it is. A
/// fault is the one that `read_for` finds.
pub fn add_packages_for(
    alloc: Global,
    release: u32,
    bytes: &[u8],
    packages: &[Text],
) -> Result<Text, Or<ClassFault>>
    ensures { PackagesFor release packages.now bytes.now result }
{
    let class = read_for(alloc, release, bytes)?;
    let text = text_of(alloc, bytes, class, packages)?;
    Ok(text)
}

/// The class of a module, of release 21, with these packages, as `add_packages_for` makes it.
pub fn add_packages(alloc: Global, bytes: &[u8], packages: &[Text]) -> Result<Text, Or<ClassFault>>
    ensures { PackagesFor 21 packages.now bytes.now result }
{
    add_packages_for(alloc, DEFAULT_RELEASE, bytes, packages)
}

/// The text of a class with the list of these packages and those that it names, or as it is.
fn listing_of(alloc: Global, bytes: &[u8], class: Class, folders: &[Text]) -> Result<Text, NoMemory>
    requires { ReadsAs bytes.now (plain class) }
    ensures { IfOk result (λ text. text
        ≡ packages_text (listed folders.now (plain class.entry)) (plain class.entry)) }
{
    if takes_none(&class) {
        return Text::copy_of(alloc, bytes);
    }
    let packages = listed(alloc, folders, &class)?;
    text_of(alloc, bytes, class, packages.as_slice())
}

/// The class of a module, of a release, with the packages in which its module has files and those
/// that it names itself: those that it exports or opens, those of the classes that it provides
/// with, and that of its main class. Each stands once, rising, as `add_packages_for` puts them.
pub fn list_packages_for(
    alloc: Global,
    release: u32,
    bytes: &[u8],
    folders: &[Text],
) -> Result<Text, Or<ClassFault>>
    ensures { ListsFor release (listed folders.now) bytes.now result }
{
    let class = read_for(alloc, release, bytes)?;
    let text = listing_of(alloc, bytes, class, folders)?;
    Ok(text)
}

/// Whether some bytes are a class of a release that stays as it is, whatever the packages are: one
/// that is no module's, that is of a major version below 53 or that has a list.
pub fn stays(alloc: Global, release: u32, bytes: &[u8]) -> Result<bool, NoMemory>
    ensures { IfOk result (λ stays. (stays ≡ true) ↔ Stays release bytes.now) }
{
    match read_for(alloc, release, bytes) {
        Ok(class) => Ok(takes_none(&class)),
        Err(Or::Fault(_)) => Ok(false),
        Err(Or::Memory) => Err(NoMemory),
    }
}
