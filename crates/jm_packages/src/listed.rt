//! Which packages a class is to list.
ghost use Rattle.std.specs.Prelude.{◌≡◌, ◌∷◌, ◌++◌, [], map, IfOk, OnOk};
ghost use Rattle.std.specs.List.{before_last, flat_map};
ghost use Rattle.jm_class.specs.Classes.{IsClass};
ghost use Rattle.jm_class.specs.Views.{plain};
ghost use Rattle.jm_form.specs.Rising.{items_of};
ghost use Rattle.jm_names.specs.Names.{is_slash};
ghost use Rattle.jm_packages.specs.Packages.{dotted_packages, listed, named_by, named_in, slashed};

use jm_bytes::{List, NoMemory, Or, Text, copy_of};
use jm_class::Class;
use jm_form::rising;
use jm_modinfo::{Descriptor, Opened, Provides, SharedText, describe};
use jm_names::{cut_at_last, dotted};
use std::alloc::Global;

/// Puts the package that a text names at the end, if it isn't empty.
fn push_package(alloc: Global, packages: &mut Vec<Vec<u8>>, text: &[u8]) -> Result<(), NoMemory>
    ensures { OnOk result (items_of packages.new.items
        ≡ items_of packages.old.items ++ dotted_packages (text.now ∷ [])) }
{
    if !text.is_empty() {
        packages.push(dotted(alloc, text)?.into_vec())?;
    }
    Ok(())
}

/// The package of a class, by its name; none is empty.
fn package_of(class_name: &[u8]) -> &[u8]
    ensures { result.now ≡ before_last is_slash class_name.now }
{
    match cut_at_last(b'/', class_name) {
        Some((package_name, _)) => package_name,
        None => &[],
    }
}

/// Puts the packages that are exported or opened at the end.
fn push_opened(
    alloc: Global,
    packages: &mut Vec<Vec<u8>>,
    opened: &[Opened],
) -> Result<(), NoMemory>
    ensures { OnOk result (items_of packages.new.items
        ≡ items_of packages.old.items ++ dotted_packages (map (λ p. p.package) opened.now)) }
{
    for one in opened {
        push_package(alloc, packages, one.package.as_slice())?;
    }
    Ok(())
}

/// Puts the packages of classes at the end.
fn push_classes(
    alloc: Global,
    packages: &mut Vec<Vec<u8>>,
    classes: &[SharedText],
) -> Result<(), NoMemory>
    ensures { OnOk result (items_of packages.new.items ≡ items_of packages.old.items
        ++ dotted_packages (map (before_last is_slash) classes.now)) }
{
    for class in classes {
        push_package(alloc, packages, package_of(class.as_slice()))?;
    }
    Ok(())
}

/// Puts the packages of the classes that provide services at the end.
fn push_providers(
    alloc: Global,
    packages: &mut Vec<Vec<u8>>,
    provides: &[Provides],
) -> Result<(), NoMemory>
    ensures { OnOk result (items_of packages.new.items ≡ items_of packages.old.items
        ++ dotted_packages
        (map (before_last is_slash) (flat_map (λ p. p.classes) provides.now))) }
{
    for service in provides {
        push_classes(alloc, packages, service.classes.as_slice())?;
    }
    Ok(())
}

/// Puts the packages that a descriptor names as the module's own at the end.
fn push_named(alloc: Global, packages: &mut Vec<Vec<u8>>, told: &Descriptor) -> Result<(), NoMemory>
    ensures { OnOk result (items_of packages.new.items
        ≡ items_of packages.old.items ++ named_in told.now) }
{
    push_opened(alloc, packages, told.exports.as_slice())?;
    push_opened(alloc, packages, told.opens.as_slice())?;
    push_providers(alloc, packages, told.provides.as_slice())?;
    match &told.main {
        Some(class) => push_package(alloc, packages, package_of(class.as_slice())),
        None => Ok(()),
    }
}

/// Puts the packages that a class names as the descriptor of a module at the end.
fn push_named_by(alloc: Global, packages: &mut Vec<Vec<u8>>, class: &Class) -> Result<(), NoMemory>
    requires { IsClass (plain class.now) }
    ensures { OnOk result (items_of packages.new.items
        ≡ items_of packages.old.items ++ named_by (plain class.now)) }
{
    match describe(alloc, class) {
        Ok(told) => push_named(alloc, packages, &told),
        Err(Or::Fault(_)) => Ok(()),
        Err(Or::Memory) => Err(NoMemory),
    }
}

/// The bytes of some texts.
fn items_of(alloc: Global, texts: &[Text]) -> Result<Vec<Vec<u8>>, NoMemory>
    ensures { IfOk result (λ items. items_of items.items ≡ texts.now) }
{
    let mut items = Vec::new(alloc);
    for text in texts {
        items.push(copy_of(alloc, text.as_slice())?)?;
    }
    Ok(items)
}

/// A package with a slash for each dot.
fn slashed(alloc: Global, package_name: &[u8]) -> Result<Text, NoMemory>
    ensures { IfOk result (λ text. text ≡ slashed package_name.now) }
{
    let mut text = Text::new(alloc);
    for byte in package_name {
        text.push(if *byte == b'.' { b'/' } else { *byte })?;
    }
    Ok(text)
}

/// The packages with a slash for each dot.
fn all_slashed(alloc: Global, packages: &[Text]) -> Result<List<Text>, NoMemory>
    ensures { IfOk result (λ texts. texts ≡ map slashed packages.now) }
{
    let mut texts = List::new(alloc);
    for package_name in packages {
        texts.push(slashed(alloc, package_name.as_slice())?)?;
    }
    Ok(texts)
}

/// The list of a class whose module has files in some packages. Time n log n.
pub fn listed(alloc: Global, folders: &[Text], class: &Class) -> Result<List<Text>, NoMemory>
    requires { IsClass (plain class.now) }
    ensures { IfOk result (λ packages. packages ≡ listed folders.now (plain class.now)) }
{
    let mut packages = items_of(alloc, folders)?;
    push_named_by(alloc, &mut packages, class)?;
    let each_once = rising(alloc, packages)?;
    all_slashed(alloc, each_once.as_slice())
}
