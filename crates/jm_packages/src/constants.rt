//! The constants of a list of packages, and their numbers.
ghost use Rattle.std.specs.Prelude.{◌≡◌, [], ◌∷◌, ◌++◌, ◌+◌, ◌*◌, ◌^◌, ◌<◌, length, IfOk, OnOk};
ghost use Rattle.jm_class.specs.Classes.{Constant};
ghost use Rattle.jm_class.specs.Views.{pool_of};
ghost use Rattle.jm_modinfo.specs.Written.{numbers_text, utf8};
ghost use Rattle.jm_packages.specs.Packages.{package_slots, packages_body};

use jm_bytes::{List, NoMemory, Text};
use jm_class::Slot;
use jm_classout::put16;
use std::alloc::Global;

/// Puts that many numbers at the end, the first two above one, and each two above the one before.
pub fn put_numbers(text: &mut Vec<u8>, below: u16, count: u16) -> Result<(), NoMemory>
    requires { below + 2 * count < 2 ^ 16 }
    ensures { OnOk result (text.new.items ≡ text.old.items ++ numbers_text (below + 2) count) }
{
    for k in 0..count {
        put16(text, below + 2 + 2 * k)?;
    }
    Ok(())
}

/// The body of the attribute whose name has this number.
pub fn packages_body(alloc: Global, number: u16, count: u16) -> Result<Vec<u8>, NoMemory>
    requires { number + 2 * count < 2 ^ 16 }
    ensures { IfOk result (λ body. body.items ≡ packages_body number count) }
{
    let mut body = Vec::new(alloc);
    put16(&mut body, count)?;
    put_numbers(&mut body, number, count)?;
    Ok(body)
}

/// Puts the Utf8 of a package at the end, and after it the constant that holds its number.
fn push_package<'a>(
    pool: &mut List<Slot<'a>>,
    package: &'a [u8],
    number: &'a [u8],
) -> Result<(), NoMemory>
    ensures { OnOk result (pool_of pool.new
        ≡ pool_of pool.old ++ utf8 «package».now ∷ Constant 20 number.now ∷ []) }
{
    pool.push(Slot::Constant {
        tag: 1,
        body: package,
    })?;
    pool.push(Slot::Constant {
        tag: 20,
        body: number,
    })
}

/// Puts the constants of the packages at the end.
pub fn push_packages<'a>(
    pool: &mut List<Slot<'a>>,
    packages: &'a [Text],
    numbers: &'a [u8],
) -> Result<(), NoMemory>
    requires { numbers.now ≡ numbers_text (length pool.old + 1) (length packages.now) }
    ensures { OnOk result (pool_of pool.new
        ≡ pool_of pool.old ++ package_slots (length pool.old + 1) packages.now) }
{
    let mut rest = numbers;
    for package in packages {
        let (number, behind) = rest.split_at(2);
        push_package(pool, package.as_slice(), number)?;
        rest = behind;
    }
    Ok(())
}
