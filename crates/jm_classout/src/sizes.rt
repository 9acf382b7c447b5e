ghost use Rattle.std.specs.Prelude.{◌≡◌, ◌<◌, ◌^◌, length, map};
ghost use Rattle.std.specs.List.{flat_map};
ghost use Rattle.jm_class.specs.Classes.{slot_text, opaque_text, code_text};
ghost use Rattle.jm_class.specs.Classes.{attribute_text, member_text, class_text, IsClass};
ghost use Rattle.jm_class.specs.Views.{slot_of, opaque_of, code_of, attribute_of};
ghost use Rattle.jm_class.specs.Views.{member_of, plain};

use jm_class::{Attribute, Body, Class, Code, Member, Plain, Slot};

/// The bytes of the numbers of a pool, without their count.
pub fn slots_size(slots: &[Slot]) -> u64
    requires { length (flat_map slot_text (map slot_of slots.now)) < 2 ^ 64 }
    ensures { result ≡ length (flat_map slot_text (map slot_of slots.now)) }
{
    let mut size = 0;
    for slot in slots {
        size += match slot {
            Slot::Constant { tag: 1, body } => 3 + body.len() as u64,
            Slot::Constant { body, .. } => 1 + body.len() as u64,
            Slot::Hole => 0,
        };
    }
    size
}

fn plains_size(attributes: &[Plain]) -> u64
    requires { length (flat_map opaque_text (map opaque_of attributes.now)) < 2 ^ 64 }
    ensures { result ≡ length (flat_map opaque_text (map opaque_of attributes.now)) }
{
    let mut size = 0;
    for attribute in attributes {
        size += 6 + attribute.bytes.len() as u64;
    }
    size
}

/// The bytes of a Code without its length.
pub fn code_size(code: &Code) -> u64
    requires { length (code_text (code_of code.now)) < 2 ^ 64 }
    ensures { result ≡ length (code_text (code_of code.now)) }
{
    let attributes = plains_size(code.attributes.as_slice());
    12 + code.code.len() as u64 + code.handlers.len() as u64 + attributes
}

fn attributes_size(attributes: &[Attribute]) -> u64
    requires { length (flat_map attribute_text (map attribute_of attributes.now)) < 2 ^ 64 }
    ensures { result ≡ length (flat_map attribute_text (map attribute_of attributes.now)) }
{
    let mut size = 0;
    for attribute in attributes {
        size += match &attribute.body {
            Body::Plain(bytes) => 6 + bytes.len() as u64,
            Body::Code(code) => 6 + code_size(code),
        };
    }
    size
}

fn members_size(members: &[Member]) -> u64
    requires { length (flat_map member_text (map member_of members.now)) < 2 ^ 64 }
    ensures { result ≡ length (flat_map member_text (map member_of members.now)) }
{
    let mut size = 0;
    for member in members {
        size += 8 + attributes_size(member.attributes.as_slice());
    }
    size
}

/// How many bytes the text of a class has.
pub fn size(class: &Class) -> u64
    requires well_formed { IsClass (plain class.now) }
    requires fits { length (class_text (plain class.now)) < 2 ^ 64 }
    ensures { result ≡ length (class_text (plain class.now)) }
{
    let pool = slots_size(class.pool.as_slice());
    let interfaces = 2 * class.interfaces.len() as u64;
    let fields = members_size(class.fields.as_slice());
    let methods = members_size(class.methods.as_slice());
    let attributes = attributes_size(class.attributes.as_slice());
    24 + pool + interfaces + fields + methods + attributes
}
