//! The parts of a class.

use crate::texts::{put_error, put_stored};
use jm_class::{Attribute, Body, Class, Member, read_for, utf8};
use jm_classout::{size, write};
use jm_lines::put_digits;
use std::alloc::{AllocError, Global};

/// Puts an attribute, if it is a Code.
fn put_code(told: &mut String, attribute: &Attribute) -> Result<(), AllocError> {
    let Body::Code(code) = &attribute.body else {
        return Ok(());
    };
    told.push_str("; code ")?;
    put_digits(told, code.code)?;
    let count = code.attributes.len();
    write!(told, " with {count} attributes")
}

/// Puts the fields or the methods, each with its Codes.
fn put_members(told: &mut String, kind: &str, members: &[Member]) -> Result<(), AllocError> {
    for member in members {
        let count = member.attributes.len();
        write!(told, "; {kind} with {count} attributes")?;
        for attribute in member.attributes.as_slice() {
            put_code(told, attribute)?;
        }
    }
    Ok(())
}

/// Puts the texts of the constants, each behind its number.
fn put_texts(told: &mut String, class: &Class) -> Result<(), AllocError> {
    for index in 0..u16::MAX {
        if let Some(text) = utf8(class, index) {
            write!(told, "; text {index} \"")?;
            put_stored(told, text)?;
            told.push('"')?;
        }
    }
    Ok(())
}

/// Puts how many parts a class has, and what these are.
fn put_parts(told: &mut String, class: &Class) -> Result<(), AllocError> {
    let (constants, interfaces) = (class.pool.len(), class.interfaces.len());
    write!(told, "constants {constants}, interfaces {interfaces}, ")?;
    let (fields, methods) = (class.fields.len(), class.methods.len());
    write!(told, "fields {fields}, methods {methods}, ")?;
    let attributes = class.attributes.len();
    write!(told, "attributes {attributes}")?;
    put_members(told, "field", class.fields.as_slice())?;
    put_members(told, "method", class.methods.as_slice())?;
    put_texts(told, class)
}

/// Whether the text of the class of some bytes is these bytes, and has their length.
fn comes_back(alloc: Global, release: u32, bytes: &[u8]) -> bool {
    let Ok(class) = read_for(alloc, release, bytes) else {
        return false;
    };
    let len = size(&class);
    match write(alloc, &class) {
        Ok(text) => text.as_slice() == bytes && len == bytes.len() as u64,
        Err(_) => false,
    }
}

/// Puts what a class of a release is read as.
pub fn put_read(
    told: &mut String,
    alloc: Global,
    release: u32,
    bytes: &[u8],
) -> Result<(), AllocError> {
    match read_for(alloc, release, bytes) {
        Ok(class) => {
            if comes_back(alloc, release, bytes) {
                let len = bytes.len();
                write!(told, "written as it was, {len} bytes: ")?;
            } else {
                told.push_str("written otherwise: ")?;
            }
            put_parts(told, &class)
        }
        Err(error) => put_error(told, error),
    }
}
