ghost use Rattle.std.specs.Prelude.{◌≡◌, ◌++◌, ◌<◌, ◌^◌, length, map, All, IfOk, OnOk};
ghost use Rattle.jm_class.specs.Classes.{u2, slot_text, opaque_text, code_text, attribute_text};
ghost use Rattle.jm_class.specs.Classes.{member_text, pool_text, counted_text, class_text, ReadsAs};
ghost use Rattle.jm_class.specs.Classes.{IsClass};
ghost use Rattle.jm_class.specs.Views.{slot_of, pool_of, opaque_of, code_of, attribute_of};
ghost use Rattle.jm_class.specs.Views.{member_of, plain};
ghost use Rattle.jm_classout.specs.Fits.{FitsSlot, OfSomeCode, SomeCode, SomeAttribute, SomeMember};

use crate::parts::{put_sized, put16, put32};
use crate::sizes::code_size;
use jm_bytes::{NoMemory, Text, extend};
use jm_class::{Attribute, Body, Class, Code, Member, Plain, Slot};
use std::alloc::Global;

const UTF8: u8 = 1;

/// Puts a number of a pool at the end.
fn put_slot(text: &mut Vec<u8>, slot: &Slot) -> Result<(), NoMemory>
    requires { FitsSlot (slot_of slot.now) }
    ensures { OnOk result (text.new.items ≡ text.old.items ++ slot_text (slot_of slot.now)) }
{
    match slot {
        Slot::Constant { tag, body } => {
            extend(text, &tag.to_be_bytes())?;
            if *tag == UTF8 {
                put16(text, body.len() as u16)?;
            }
            extend(text, body)
        }
        Slot::Hole => Ok(()),
    }
}

/// Puts a pool with its count at the end.
fn put_pool(text: &mut Vec<u8>, pool: &[Slot]) -> Result<(), NoMemory>
    requires count { length pool.now < 65535 }
    requires slots { All FitsSlot (pool_of pool.now) }
    ensures { OnOk result (text.new.items ≡ text.old.items ++ pool_text (pool_of pool.now)) }
{
    put16(text, pool.len() as u16 + 1)?;
    for slot in pool {
        put_slot(text, slot)?;
    }
    Ok(())
}

fn put_interfaces(text: &mut Vec<u8>, interfaces: &[u16]) -> Result<(), NoMemory>
    requires { length interfaces.now < 2 ^ 16 }
    ensures { OnOk result (text.new.items ≡ text.old.items ++ counted_text u2 interfaces.now) }
{
    put16(text, interfaces.len() as u16)?;
    for interface in interfaces {
        put16(text, *interface)?;
    }
    Ok(())
}

/// Puts the attributes of a Code with their number at the end.
fn put_plains(text: &mut Vec<u8>, attributes: &[Plain]) -> Result<(), NoMemory>
    requires count { length attributes.now < 2 ^ 16 }
    requires each { All OfSomeCode (map opaque_of attributes.now) }
    ensures { OnOk result (text.new.items ≡
        text.old.items ++ counted_text opaque_text (map opaque_of attributes.now)) }
{
    put16(text, attributes.len() as u16)?;
    for attribute in attributes {
        put16(text, attribute.name)?;
        put_sized(text, attribute.bytes)?;
    }
    Ok(())
}

/// Puts a Code without its length at the end.
fn put_code(text: &mut Vec<u8>, code: &Code) -> Result<(), NoMemory>
    requires { SomeCode (code_of code.now) }
    ensures { OnOk result (text.new.items ≡ text.old.items ++ code_text (code_of code.now)) }
{
    put16(text, code.max_stack)?;
    put16(text, code.max_locals)?;
    put_sized(text, code.code)?;
    put16(text, (code.handlers.len() / 8) as u16)?;
    extend(text, code.handlers)?;
    put_plains(text, code.attributes.as_slice())
}

fn put_attribute(text: &mut Vec<u8>, attribute: &Attribute) -> Result<(), NoMemory>
    requires { SomeAttribute (attribute_of attribute.now) }
    ensures { OnOk result
        (text.new.items ≡ text.old.items ++ attribute_text (attribute_of attribute.now)) }
{
    put16(text, attribute.name)?;
    match &attribute.body {
        Body::Plain(bytes) => put_sized(text, bytes),
        Body::Code(code) => {
            put32(text, code_size(code) as u32)?;
            put_code(text, code)
        }
    }
}

fn put_attributes(text: &mut Vec<u8>, attributes: &[Attribute]) -> Result<(), NoMemory>
    requires count { length attributes.now < 2 ^ 16 }
    requires each { All SomeAttribute (map attribute_of attributes.now) }
    ensures { OnOk result (text.new.items ≡
        text.old.items ++ counted_text attribute_text (map attribute_of attributes.now)) }
{
    put16(text, attributes.len() as u16)?;
    for attribute in attributes {
        put_attribute(text, attribute)?;
    }
    Ok(())
}

/// Puts fields or methods with their number at the end.
fn put_members(text: &mut Vec<u8>, members: &[Member]) -> Result<(), NoMemory>
    requires count { length members.now < 2 ^ 16 }
    requires each { All SomeMember (map member_of members.now) }
    ensures { OnOk result (text.new.items ≡
        text.old.items ++ counted_text member_text (map member_of members.now)) }
{
    put16(text, members.len() as u16)?;
    for member in members {
        put16(text, member.access)?;
        put16(text, member.name)?;
        put16(text, member.descriptor)?;
        put_attributes(text, member.attributes.as_slice())?;
    }
    Ok(())
}

/// The text of a class.
pub fn write(alloc: Global, class: &Class) -> Result<Text, NoMemory>
    requires { IsClass (plain class.now) }
    ensures text { IfOk result (λ text. text ≡ class_text (plain class.now)) }
    // These follow: it reads back as that class, and what was read is written as it was.
    ensures reads_back { IfOk result (λ text. ReadsAs text (plain class.now)) }
    ensures same { (bytes : _) → ReadsAs bytes (plain class.now)
        → IfOk result (λ text. text ≡ bytes) }
{
    let mut text = Vec::new(alloc);
    put32(&mut text, 0xCAFE_BABE)?;
    put16(&mut text, class.minor)?;
    put16(&mut text, class.major)?;
    put_pool(&mut text, class.pool.as_slice())?;
    put16(&mut text, class.access)?;
    put16(&mut text, class.this_class)?;
    put16(&mut text, class.super_class)?;
    put_interfaces(&mut text, class.interfaces.as_slice())?;
    put_members(&mut text, class.fields.as_slice())?;
    put_members(&mut text, class.methods.as_slice())?;
    put_attributes(&mut text, class.attributes.as_slice())?;
    Ok(Text::from_vec(text))
}
