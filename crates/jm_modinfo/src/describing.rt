ghost use Rattle.std.specs.Prelude.{◌≡◌, true, None, Some, Err, IfOk, OnOk};
ghost use Rattle.jm_bytes.specs.declared.faults.Or.TheVariants.{Fault};
ghost use Rattle.jm_bytes.specs.Results.{IfAnswered};
ghost use Rattle.jm_class.specs.Classes.{IsClass};
ghost use Rattle.jm_class.specs.Views.{plain};
ghost use Rattle.jm_modinfo.specs.declared.descriptor.Descriptor.{Descriptor};
ghost use Rattle.jm_modinfo.specs.InfoFaults.{HasInfoFault};
ghost use Rattle.jm_modinfo.specs.ComputedInfo.{body_info, info_of};
ghost use Rattle.jm_modinfo.specs.Constants.{is_legal};
ghost use Rattle.jm_modinfo.specs.Descriptions.{info_for};
ghost use Rattle.jm_modinfo.specs.Descriptors.{InfoOf, IsModuleBody};
ghost use Rattle.jm_modinfo.specs.Faults.{info_fault};
ghost use Rattle.jm_modinfo.specs.Views.{Answers};

use crate::attributes::{main_class, module_body};
use crate::class_texts::ClassTexts;
use crate::descriptor::Descriptor;
use crate::faults::{DescriptorFault, InfoFault};
use crate::fields::module;
use jm_bytes::Or;
use jm_class::{Class, Cursor, read_for};
use std::alloc::Global;

/// The fields of the Module attribute, and nothing after them.
fn whole_module(texts: &mut ClassTexts, body: &[u8]) -> Result<Descriptor, Or<InfoFault>>
    ensures class { texts.new ≡ texts.old }
    ensures info { Answers (λ d. d) (body_info texts.old.pool body.now) result }
    ensures says { IfOk result (λ d. IsModuleBody texts.old.pool d body.now) }
{
    let mut cursor = Cursor::new(body);
    let descriptor = module(&mut cursor, texts)?;
    if cursor.len() != 0 {
        return Err(Or::Fault(InfoFault::Rest(cursor.place())));
    }
    Ok(descriptor)
}

/// The descriptor of a class, or its first fault.
fn info(alloc: Global, class: &Class) -> Result<Descriptor, Or<InfoFault>>
    ensures info { Answers (λ d. d) (info_of (plain class.now)) result }
    ensures says { IfOk result (λ d. InfoOf (plain class.now) d) }
{
    if class.access & 0x8000 == 0 {
        return Err(Or::Fault(InfoFault::NotModule));
    }
    if class.major < 53 {
        return Err(Or::Fault(InfoFault::OldVersion(class.major)));
    }
    let body = module_body(class)?;
    let mut texts = ClassTexts::of(alloc, class)?;
    let mut descriptor = whole_module(&mut texts, body)?;
    descriptor.main = main_class(&mut texts)?;
    Ok(descriptor)
}

/// What the class of a module says. A fault is the first by JVMS 4.7.25 and the rules of this
/// project. The descriptor takes the bytes of each constant that it names once, however many fields
/// name it, and a few words for each field; time and memory are linear in the class.
pub fn describe(alloc: Global, class: &Class) -> Result<Descriptor, Or<InfoFault>>
    requires { IsClass (plain class.now) }
    ensures info { IfOk result (λ d. InfoOf (plain class.now) d) }
    ensures only { IfOk result (λ d.
        (other : Descriptor) → InfoOf (plain class.now) other → other ≡ d) }
    ensures allowed { OnOk result ((fault : _) → ¬ HasInfoFault (plain class.now) fault) }
    ensures no_fault { OnOk result (info_fault (plain class.now) ≡ None) }
    ensures first { (fault : _) → result ≡ Err (Fault fault)
        → HasInfoFault (plain class.now) fault }
    ensures fault { (fault : _) → result ≡ Err (Fault fault)
        → info_fault (plain class.now) ≡ Some fault }
    ensures no_info { (fault : _) → result ≡ Err (Fault fault)
        → (d : Descriptor) → ¬ InfoOf (plain class.now) d }
{
    info(alloc, class)
}

/// What bytes say as the class of a module: they are read as a class of a release, which is
/// described. The fault is that of the class, or else that of its descriptor.
pub fn describe_bytes(
    alloc: Global,
    release: u32,
    bytes: &[u8],
) -> Result<Descriptor, Or<DescriptorFault>>
    ensures info { IfAnswered (λ r. r ≡ info_for release bytes.now) result }
    ensures legal { IfOk result (λ d. is_legal d.name ≡ true) }
{
    let class = match read_for(alloc, release, bytes) {
        Ok(class) => class,
        Err(Or::Fault(fault)) => return Err(Or::Fault(DescriptorFault::Class(fault))),
        Err(Or::Memory) => return Err(Or::Memory),
    };
    match describe(alloc, &class) {
        Ok(descriptor) => Ok(descriptor),
        Err(Or::Fault(fault)) => Err(Or::Fault(DescriptorFault::Info(fault))),
        Err(Or::Memory) => Err(Or::Memory),
    }
}
