ghost use Rattle.std.specs.Prelude.{◌≡◌, ◌<◌, IfOk};
ghost use Rattle.jm_gen.specs.Generated.{class_name, class_path, digit, module_name, module_names};
ghost use Rattle.jm_gen.specs.Generated.{path_in};

use jm_bytes::{List, NoMemory, Text, extend};
use std::alloc::Global;

/// The last digit of a number.
fn digit(number: u32) -> u8
    ensures { result ≡ digit number }
{
    b'0' + (number % 10) as u8
}

/// The name of a module: `m` and its number in three digits.
pub fn module_name(number: u32) -> [u8; 4]
    ensures { result ≡ module_name number }
{
    [b'm', digit(number / 100), digit(number / 10), digit(number)]
}

/// The names of that many modules, from the first on.
pub fn module_names(alloc: Global, modules: u32) -> Result<List<Text>, NoMemory>
    ensures { IfOk result (λ names. names ≡ module_names modules) }
{
    let mut names = List::new(alloc);
    for number in 0..modules {
        names.push(Text::copy_of(alloc, &module_name(number))?)?;
    }
    Ok(names)
}

/// The name of a class in its package: `C` and its number in four digits.
pub fn class_name(class: u32) -> [u8; 5]
    ensures { result ≡ class_name class }
{
    [
        b'C',
        digit(class / 1000),
        digit(class / 100),
        digit(class / 10),
        digit(class),
    ]
}

/// The name of a class with its package, `m000/p0/C0000`.
pub fn class_path(alloc: Global, number: u32, class: u32) -> Result<Vec<u8>, NoMemory>
    ensures { IfOk result (λ path. path.items ≡ class_path number class) }
{
    let mut path = Vec::new(alloc);
    extend(&mut path, &module_name(number))?;
    extend(&mut path, b"/p")?;
    extend(&mut path, &[b'0' + (class % 8) as u8])?;
    extend(&mut path, b"/")?;
    extend(&mut path, &class_name(class))?;
    Ok(path)
}

/// The path of a file of a module, in a folder.
pub fn path_in(alloc: Global, dir: &[u8], number: u32, rest: &[u8]) -> Result<Vec<u8>, NoMemory>
    ensures { IfOk result (λ path. path.items ≡ path_in dir.now number rest.now) }
{
    let mut path = Vec::new(alloc);
    extend(&mut path, dir)?;
    extend(&mut path, b"/")?;
    extend(&mut path, &module_name(number))?;
    extend(&mut path, b"/")?;
    extend(&mut path, rest)?;
    Ok(path)
}
