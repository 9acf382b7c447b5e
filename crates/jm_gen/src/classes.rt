ghost use Rattle.std.specs.Prelude.{◌≡◌, ◌∷◌, [], map, IfOk};
ghost use Rattle.jm_class.specs.Classes.{class_text};
ghost use Rattle.jm_class.specs.Views.{member_of, plain, pool_of, slot_of};
ghost use Rattle.jm_modinfo.specs.Written.{utf8};
ghost use Rattle.jm_gen.specs.Generated.{class_data, class_with, code, method, pool_with};
ghost use Rattle.jm_gen.specs.Generated.{source_name};

use crate::names::{class_name, class_path};
use jm_bytes::{List, NoMemory, Text, extend};
use jm_class::{Attribute, Body, Class, Code, Member, Plain, Slot};
use jm_classout::write;
use std::alloc::Global;

/// A Utf8.
fn utf8<'a>(body: &'a [u8]) -> Slot<'a>
    ensures { slot_of result ≡ utf8 body.now }
{
    Slot::Constant { tag: 1, body }
}

/// The constants, by the path of the class, the name of its source and its number.
fn pool<'a>(
    alloc: Global,
    path: &'a [u8],
    source: &'a [u8],
    value: &'a [u8],
) -> Result<List<Slot<'a>>, NoMemory>
    ensures { IfOk result (λ slots. pool_of slots ≡ pool_with path.now source.now value.now) }
{
    let slots = [
        utf8(path),
        Slot::Constant {
            tag: 7,
            body: &[0, 1],
        },
        utf8(b"java/lang/Object"),
        Slot::Constant {
            tag: 7,
            body: &[0, 3],
        },
        utf8(b"v"),
        utf8(b"()J"),
        utf8(b"Code"),
        utf8(b"LineNumberTable"),
        utf8(b"SourceFile"),
        utf8(source),
        Slot::Constant {
            tag: 5,
            body: value,
        },
        Slot::Hole,
    ];
    Ok(List::from_vec(Vec::from_slice(alloc, &slots)?))
}

/// `public static long v()`, which gives the class's number.
fn methods<'a>(alloc: Global) -> Result<List<Member<'a>>, NoMemory>
    ensures { IfOk result (λ methods. map member_of methods ≡ method ∷ []) }
{
    let mut lines = List::new(alloc);
    lines.push(Plain {
        name: 8,
        bytes: &[0, 1, 0, 0, 0, 1],
    })?;
    let code = Code {
        max_stack: 2,
        max_locals: 0,
        code: &[0x14, 0x00, 0x0B, 0xAD],
        handlers: &[],
        attributes: lines,
    };
    let mut attributes = List::new(alloc);
    attributes.push(Attribute {
        name: 7,
        body: Body::Code(code),
    })?;
    let mut methods = List::new(alloc);
    methods.push(Member {
        access: 0x0009,
        name: 5,
        descriptor: 6,
        attributes,
    })?;
    Ok(methods)
}

/// The class of a path, a source and a number.
fn class_of<'a>(
    alloc: Global,
    path: &'a [u8],
    source: &'a [u8],
    value: &'a [u8],
) -> Result<Class<'a>, NoMemory>
    ensures { IfOk result (λ class. plain class ≡ class_with path.now source.now value.now) }
{
    let mut attributes = List::new(alloc);
    attributes.push(Attribute {
        name: 9,
        body: Body::Plain(&[0, 10]),
    })?;
    Ok(Class {
        minor: 0,
        major: 61,
        pool: pool(alloc, path, source, value)?,
        access: 0x0021,
        this_class: 2,
        super_class: 4,
        interfaces: List::new(alloc),
        fields: List::new(alloc),
        methods: methods(alloc)?,
        attributes,
    })
}

/// The name of the source of a class, `C0000.java`.
fn source_name(alloc: Global, class: u32) -> Result<Vec<u8>, NoMemory>
    ensures { IfOk result (λ name. name.items ≡ source_name class) }
{
    let mut name = Vec::new(alloc);
    extend(&mut name, &class_name(class))?;
    extend(&mut name, b".java")?;
    Ok(name)
}

/// The text of a class of a module, with a number of its own.
pub fn class_bytes(alloc: Global, number: u32, class: u32, value: u64) -> Result<Text, NoMemory>
    ensures { IfOk result (λ text. text ≡ class_text (class_data number class value)) }
{
    let path = class_path(alloc, number, class)?;
    let source = source_name(alloc, class)?;
    let value = value.to_be_bytes();
    let made = class_of(alloc, path.as_slice(), source.as_slice(), &value)?;
    write(alloc, &made)
}
