ghost use Rattle.std.specs.Prelude.{◌≡◌, [], ◌∷◌, Some, option_map, option_and_then, map, IfSome};
ghost use Rattle.std.specs.Prelude.{IfNone, IfOk};
ghost use Rattle.jm_modinfo.specs.Constants.{number_in, named_at};
ghost use Rattle.jm_modinfo.specs.declared.constants.Kind.TheVariants as kind;
ghost use Rattle.jm_class.specs.Views.{plain, attribute_of};
ghost use Rattle.jm_modinfo.specs.ComputedInfo.{only_body, main_of};
ghost use Rattle.jm_modinfo.specs.Descriptors.{bytes_named, bodies, module_bodies, main_bodies};
ghost use Rattle.jm_modinfo.specs.Descriptors.{IsIndex, IsMain};
ghost use Rattle.jm_modinfo.specs.Views.{Answers};

use crate::class_texts::ClassTexts;
use crate::constants::{Kind, number_in};
use crate::faults::InfoFault;
use crate::shared_text::SharedText;
use jm_bytes::{NoMemory, Or};
use jm_class::{Attribute, Body, Class, utf8};

/// The bytes of an attribute, if it has this name.
fn bytes_named<'a>(class: &Class<'a>, name: &[u8], attribute: &Attribute<'a>) -> Option<&'a [u8]>
    ensures { option_map (λ bytes. bytes.now) result
        ≡ bytes_named (plain class.now).pool name.now (attribute_of attribute.now) }
{
    if utf8(class, attribute.name)? != name {
        return None;
    }
    match &attribute.body {
        Body::Plain(bytes) => Some(*bytes),
        Body::Code(_) => None,
    }
}

/// The bytes of the first attribute of this name, and the attributes after it.
fn first_named<'a, 'c>(
    class: &Class<'a>,
    name: &[u8],
    attributes: &'c [Attribute<'a>],
) -> Option<(&'a [u8], &'c [Attribute<'a>])>
    ensures some { IfSome result (λ r.
        bodies (plain class.now).pool name.now (map attribute_of attributes.now)
        ≡ r.0.now ∷ bodies (plain class.now).pool name.now (map attribute_of r.1.now)) }
    ensures none { IfNone result
        (bodies (plain class.now).pool name.now (map attribute_of attributes.now) ≡ []) }
{
    for i in 0..attributes.len() {
        if let Some(bytes) = bytes_named(class, name, &attributes[i]) {
            let (_, behind) = attributes.split_at(i + 1);
            return Some((bytes, behind));
        }
    }
    None
}

/// The bytes of the one attribute `Module` of a class.
pub fn module_body<'a>(class: &Class<'a>) -> Result<&'a [u8], Or<InfoFault>>
    ensures { Answers (λ body. body.now) (only_body (module_bodies (plain class.now))) result }
{
    match first_named(class, b"Module", class.attributes.as_slice()) {
        None => Err(Or::Fault(InfoFault::NoModule)),
        Some((body, behind)) => match first_named(class, b"Module", behind) {
            None => Ok(body),
            Some(_) => Err(Or::Fault(InfoFault::TwoModule)),
        },
    }
}

/// The class that the bytes of an attribute `ModuleMainClass` name.
fn main_named(texts: &mut ClassTexts, body: &[u8]) -> Result<Option<SharedText>, NoMemory>
    ensures class { texts.new ≡ texts.old }
    ensures found { IfOk result (λ text.
        text ≡ option_and_then (named_at texts.old.pool kind.Class) (number_in body.now)) }
    ensures says { IfOk result (λ text. IfSome text (λ text.
        IsIndex (named_at texts.old.pool kind.Class) text body.now)) }
{
    let Some(index) = number_in(body) else {
        return Ok(None);
    };
    match texts.named(Kind::Class, index)? {
        Some(text) => Ok(Some(text.into_text())),
        None => Ok(None),
    }
}

/// The main class of a module, if it has one.
pub fn main_class(texts: &mut ClassTexts) -> Result<Option<SharedText>, Or<InfoFault>>
    ensures class { texts.new ≡ texts.old }
    ensures main { Answers (λ main. main)
        (main_of texts.old.pool (main_bodies texts.old)) result }
    ensures says { IfOk result (λ main.
        IsMain texts.old.pool (main_bodies texts.old) main) }
{
    let name = b"ModuleMainClass".as_slice();
    let class = texts.class();
    match first_named(class, name, class.attributes.as_slice()) {
        None => Ok(None),
        Some((body, behind)) => {
            if first_named(class, name, behind).is_some() {
                return Err(Or::Fault(InfoFault::Main));
            }
            match main_named(texts, body)? {
                Some(text) => Ok(Some(text)),
                None => Err(Or::Fault(InfoFault::Main)),
            }
        }
    }
}
