ghost use Rattle.std.specs.Prelude.{◌≡◌, [], ◌∷◌, ◌++◌, ◌<◌, ◌≤◌, ◌^◌, length, All, IfOk, OnOk};
ghost use Rattle.jm_class.specs.Classes.{Constant, ReadsAs, u2};
ghost use Rattle.jm_class.specs.Views.{slot_of, pool_of, plain};
ghost use Rattle.jm_modinfo.specs.Descriptors.{InfoOf};
ghost use Rattle.jm_modinfo.specs.Written.{IsName, IsWritable, utf8, numbers_text, need_slots};
ghost use Rattle.jm_modinfo.specs.Written.{needs_text, info_pool, info_body, info_class, info_text};
ghost use Rattle.jm_modinfo.specs.Written.{plain_descriptor};

use crate::descriptor::Need;
use jm_bytes::{List, NoMemory, Text, extend};
use jm_class::{Attribute, Body, Class, Slot};
use jm_classout::write;
use std::alloc::Global;

/// Puts a number of two bytes at the end, the highest first.
fn put16(text: &mut Vec<u8>, n: u16) -> Result<(), NoMemory>
    ensures text { OnOk result (text.new.items ≡ text.old.items ++ u2 n) }
    ensures fits { n < 2 ^ 16 }
{
    extend(text, &n.to_be_bytes())
}

/// The numbers of the constants that hold the names of that many needs, two bytes each.
fn name_numbers(alloc: Global, count: u16) -> Result<Vec<u8>, NoMemory>
    requires { count ≤ 1000 }
    ensures { IfOk result (λ numbers. numbers.items ≡ numbers_text 6 count) }
{
    let mut numbers = Vec::new(alloc);
    for k in 0..count {
        put16(&mut numbers, 6 + 2 * k)?;
    }
    Ok(numbers)
}

/// Puts the needs by the numbers of their constants.
fn put_needs(text: &mut Vec<u8>, needs: &[Need]) -> Result<(), NoMemory>
    requires { length needs.now ≤ 1000 }
    ensures text { OnOk result (text.new.items ≡ text.old.items ++ needs_text 7 needs.now) }
    ensures flags { OnOk result (All (λ n. n.flags < 2 ^ 16) needs.now) }
{
    let mut number = 7;
    for need in needs {
        put16(text, number)?;
        put16(text, need.flags)?;
        put16(text, 0)?;
        number += 2;
    }
    Ok(())
}

/// The body of the Module attribute.
fn body(alloc: Global, needs: &[Need]) -> Result<Vec<u8>, NoMemory>
    requires { length needs.now ≤ 1000 }
    ensures text { IfOk result (λ text. text.items ≡ info_body needs.now) }
    ensures flags { OnOk result (All (λ n. n.flags < 2 ^ 16) needs.now) }
{
    let mut text = Vec::new(alloc);
    put16(&mut text, 5)?;
    put16(&mut text, 0)?;
    put16(&mut text, 0)?;
    put16(&mut text, needs.len() as u16)?;
    put_needs(&mut text, needs)?;
    put16(&mut text, 0)?;
    put16(&mut text, 0)?;
    put16(&mut text, 0)?;
    put16(&mut text, 0)?;
    Ok(text)
}

/// A Utf8.
fn utf8<'a>(body: &'a [u8]) -> Slot<'a>
    ensures { slot_of result ≡ utf8 body.now }
{
    Slot::Constant { tag: 1, body }
}

/// Puts a Utf8 at the end, and after it the constant of a kind that holds its number.
fn push_named<'a>(
    pool: &mut List<Slot<'a>>,
    name: &'a [u8],
    tag: u8,
    number: &'a [u8],
) -> Result<(), NoMemory>
    ensures { OnOk result (pool_of pool.new
        ≡ pool_of pool.old ++ utf8 name.now ∷ Constant tag number.now ∷ []) }
{
    pool.push(utf8(name))?;
    pool.push(Slot::Constant { tag, body: number })
}

/// Puts the constants of the needs after others: each name, and a Module of that name.
fn push_needs<'a>(
    pool: &mut List<Slot<'a>>,
    needs: &'a [Need],
    numbers: &'a [u8],
) -> Result<(), NoMemory>
    requires { numbers.now ≡ numbers_text 6 (length needs.now) }
    ensures { OnOk result (pool_of pool.new ≡ pool_of pool.old ++ need_slots 6 needs.now) }
{
    let mut rest = numbers;
    for need in needs {
        let (number, behind) = rest.split_at(2);
        push_named(pool, need.name.as_slice(), 19, number)?;
        rest = behind;
    }
    Ok(())
}

/// The constants.
fn pool<'a>(
    alloc: Global,
    name: &'a [u8],
    needs: &'a [Need],
    numbers: &'a [u8],
) -> Result<List<Slot<'a>>, NoMemory>
    requires { numbers.now ≡ numbers_text 6 (length needs.now) }
    ensures { IfOk result (λ pool. pool_of pool ≡ info_pool name.now needs.now) }
{
    let mut pool = List::new(alloc);
    push_named(&mut pool, b"module-info", 7, &[0, 1])?;
    pool.push(utf8(b"Module"))?;
    push_named(&mut pool, name, 19, &[0, 4])?;
    push_needs(&mut pool, needs, numbers)?;
    Ok(pool)
}

/// The class of a module, over its name, its needs, the numbers of their names and the body.
fn class<'a>(
    alloc: Global,
    name: &'a [u8],
    needs: &'a [Need],
    numbers: &'a [u8],
    body: &'a [u8],
) -> Result<Class<'a>, NoMemory>
    requires numbers { numbers.now ≡ numbers_text 6 (length needs.now) }
    requires body { body.now ≡ info_body needs.now }
    ensures { IfOk result (λ class. plain class ≡ info_class name.now needs.now) }
{
    let pool = pool(alloc, name, needs, numbers)?;
    let mut attributes = List::new(alloc);
    attributes.push(Attribute {
        name: 3,
        body: Body::Plain(body),
    })?;
    Ok(Class {
        minor: 0,
        major: 53,
        pool,
        access: 0x8000,
        this_class: 2,
        super_class: 0,
        interfaces: List::new(alloc),
        fields: List::new(alloc),
        methods: List::new(alloc),
        attributes,
    })
}

/// The class of a module of this name that only requires others, as JVMS 4.7.25 and the rules of
/// this project lay it out.
pub fn write_info(alloc: Global, name: &[u8], needs: &[Need]) -> Result<Text, NoMemory>
    requires name { IsName name.now }
    requires needs { All IsWritable needs.now }
    requires count { length needs.now ≤ 1000 }
    ensures text { IfOk result (λ text. text ≡ info_text name.now needs.now) }
    // This follows: it reads as a class of which `describe` gives that name and those needs.
    ensures reads { IfOk result (λ text. ReadsAs text (info_class name.now needs.now)) }
    ensures info { OnOk result
        (InfoOf (info_class name.now needs.now) (plain_descriptor name.now needs.now)) }
{
    let body = body(alloc, needs)?;
    let numbers = name_numbers(alloc, needs.len() as u16)?;
    let class = class(alloc, name, needs, numbers.as_slice(), body.as_slice())?;
    write(alloc, &class)
}
