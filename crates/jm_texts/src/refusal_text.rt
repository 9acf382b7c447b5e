//! Refusals in print.
ghost use Rattle.std.specs.Prelude.{◌≡◌, ◌∷◌, ◌++◌, codes, IfOk, OnOk};
ghost use Rattle.std.specs.Fmt.{decimal};
ghost use Rattle.jm_class.specs.FaultText.{class_fault_text};
ghost use Rattle.jm_modinfo.specs.FaultText.{descriptor_fault_text};
ghost use Rattle.jm_names.specs.Shown.{shown_text};
ghost use Rattle.jm_packed.specs.PackedText.{packed_fault_text};
ghost use Rattle.jm_texts.specs.RefusalText.{name_fault_text, refusal_text, spaced};

use crate::refusal::Refusal;
use itoa::Buffer;
use jm_bytes::{NoMemory, Text, copy_of, extend};
use jm_class::ClassFault;
use jm_modinfo::DescriptorFault;
use jm_names::{NameFault, extend_shown, extend_shown_text};
use jm_packed::PackedFault;
use std::alloc::Global;

/// Puts a name after a space at the end, as it is shown.
fn extend_name(alloc: Global, text: &mut Vec<u8>, name: &Text) -> Result<(), NoMemory>
    ensures { OnOk result (text.new.items ≡ text.old.items ++ spaced name.now) }
{
    extend(text, b" ")?;
    extend_shown(alloc, text, name.as_slice())
}

/// A kind and a name.
fn named(alloc: Global, kind: &[u8], name: &Text) -> Result<Vec<u8>, NoMemory>
    ensures { IfOk result (λ text. text.items ≡ kind.now ++ spaced name.now) }
{
    let mut text = copy_of(alloc, kind)?;
    extend_name(alloc, &mut text, name)?;
    Ok(text)
}

/// A kind, which ends with a space, and a number.
fn numbered(alloc: Global, kind: &[u8], number: u64) -> Result<Vec<u8>, NoMemory>
    ensures { IfOk result (λ text. text.items ≡ kind.now ++ decimal number) }
{
    let mut text = copy_of(alloc, kind)?;
    let mut buffer = Buffer::new();
    extend(&mut text, buffer.format(number).as_bytes())?;
    Ok(text)
}

/// The kind `BadInfo`, a path and the fault of the file there.
fn bad_info(alloc: Global, path: &Text, fault: DescriptorFault) -> Result<Vec<u8>, NoMemory>
    ensures { IfOk result (λ text. text.items
        ≡ codes "BadInfo " ++ shown_text path.now ++ 32 ∷ descriptor_fault_text fault) }
{
    let fault = format!(in alloc; " {fault}")?;
    let mut text = copy_of(alloc, b"BadInfo ")?;
    extend_shown_text(&mut text, path.as_slice())?;
    extend(&mut text, fault.as_bytes())?;
    Ok(text)
}

/// The kind `BadInfo`, the name of an entry and its fault.
fn bad_entry(alloc: Global, name: &Text, fault: DescriptorFault) -> Result<Vec<u8>, NoMemory>
    ensures { IfOk result (λ text. text.items
        ≡ codes "BadInfo" ++ spaced name.now ++ 32 ∷ descriptor_fault_text fault) }
{
    let fault = format!(in alloc; " {fault}")?;
    let mut text = named(alloc, b"BadInfo", name)?;
    extend(&mut text, fault.as_bytes())?;
    Ok(text)
}

/// A fault of a name.
fn name_fault_text(alloc: Global, fault: NameFault) -> Result<Vec<u8>, NoMemory>
    ensures { IfOk result (λ text. text.items ≡ name_fault_text fault) }
{
    match fault {
        NameFault::Empty => copy_of(alloc, b"Empty"),
        NameFault::EmptyPart => copy_of(alloc, b"EmptyPart"),
        NameFault::Dots => copy_of(alloc, b"Dots"),
        NameFault::Zero => copy_of(alloc, b"Zero"),
        NameFault::TooLong => copy_of(alloc, b"TooLong"),
        NameFault::NotText(at) => numbered(alloc, b"NotText ", at as u64),
    }
}

/// The kind `BadName`, a name and its fault.
fn bad_name(alloc: Global, name: &Text, fault: NameFault) -> Result<Vec<u8>, NoMemory>
    ensures { IfOk result (λ text. text.items
        ≡ codes "BadName" ++ spaced name.now ++ 32 ∷ name_fault_text fault) }
{
    let fault = name_fault_text(alloc, fault)?;
    let mut text = named(alloc, b"BadName", name)?;
    extend(&mut text, b" ")?;
    extend(&mut text, fault.as_slice())?;
    Ok(text)
}

/// The kind `BadClass`, a name and the fault of the class there.
fn bad_class(alloc: Global, name: &Text, fault: ClassFault) -> Result<Vec<u8>, NoMemory>
    ensures { IfOk result (λ text. text.items
        ≡ codes "BadClass" ++ spaced name.now ++ 32 ∷ class_fault_text fault) }
{
    let fault = format!(in alloc; " {fault}")?;
    let mut text = named(alloc, b"BadClass", name)?;
    extend(&mut text, fault.as_bytes())?;
    Ok(text)
}

/// The kind `Packed`, a name and the fault of the content stored there.
fn packed(alloc: Global, name: &Text, fault: PackedFault) -> Result<Vec<u8>, NoMemory>
    ensures { IfOk result (λ text. text.items
        ≡ codes "Packed" ++ spaced name.now ++ 32 ∷ packed_fault_text fault) }
{
    let fault = format!(in alloc; " {fault}")?;
    let mut text = named(alloc, b"Packed", name)?;
    extend(&mut text, fault.as_bytes())?;
    Ok(text)
}

/// A kind and two names.
fn two_named(alloc: Global, kind: &[u8], name: &Text, other: &Text) -> Result<Vec<u8>, NoMemory>
    ensures { IfOk result (λ text. text.items ≡ kind.now ++ spaced name.now ++ spaced other.now) }
{
    let mut text = named(alloc, kind, name)?;
    extend_name(alloc, &mut text, other)?;
    Ok(text)
}

impl Refusal {
    /// Its kind and the carried values, each after a space. Names and paths are put as they are
    /// shown.
    pub fn text(&self, alloc: Global) -> Result<Vec<u8>, NoMemory>
        ensures { IfOk result (λ text. text.items ≡ refusal_text self.now) }
    {
        match self {
            Refusal::BadInfo { path, fault } => bad_info(alloc, path, *fault),
            Refusal::BadEntry { name, fault } => bad_entry(alloc, name, *fault),
            Refusal::Foreign(name) => named(alloc, b"Foreign", name),
            Refusal::TwoModules { dir, name } => {
                let mut text = copy_of(alloc, b"TwoModules ")?;
                extend_shown_text(&mut text, dir.as_slice())?;
                extend_name(alloc, &mut text, name)?;
                Ok(text)
            }
            Refusal::ReservedModule(name) => named(alloc, b"ReservedModule", name),
            Refusal::NoRoot(name) => named(alloc, b"NoRoot", name),
            Refusal::Missing { name, by } => two_named(alloc, b"Missing", name, by),
            Refusal::Cycle(name) => named(alloc, b"Cycle", name),
            Refusal::SplitPackage {
                package,
                first,
                second,
            } => {
                let mut text = two_named(alloc, b"SplitPackage", package, first)?;
                extend_name(alloc, &mut text, second)?;
                Ok(text)
            }
            Refusal::BadName { name, fault } => bad_name(alloc, name, *fault),
            Refusal::BadClass { name, fault } => bad_class(alloc, name, *fault),
            Refusal::Clash(name) => named(alloc, b"Clash", name),
            Refusal::TooMany(count) => numbered(alloc, b"TooMany ", *count),
            Refusal::NoTable(lengths) => numbered(alloc, b"NoTable ", u64::from(*lengths)),
            Refusal::TooLarge(length) => numbered(alloc, b"TooLarge ", *length),
            Refusal::Packed { name, fault } => packed(alloc, name, *fault),
        }
    }
}
