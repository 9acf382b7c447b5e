ghost use Rattle.std.specs.Prelude.{◌≡◌, option_map};
ghost use Rattle.jm_poolmap.specs.Attributes.{common_rows, class_rows, field_rows, method_rows};
ghost use Rattle.jm_poolmap.specs.Attributes.{code_rows, named, content_at};
ghost use Rattle.jm_class.specs.Views.{plain};
ghost use Rattle.jm_poolmap.specs.Views.{content_of};

use crate::forms::{Content, Item, Place};
use jm_class::{Class, utf8};

const SITE: Content = Content::Items(&[Item::Site]);

const SITES: Content = Content::Rows(&[Item::Site]);

const VARIABLES: Content = Content::Rows(&[Item::Bytes(4), Item::Site, Item::Site, Item::Bytes(2)]);

const INNER_CLASSES: Content = Content::Rows(&[
    Item::Site,
    Item::OptionalSite,
    Item::OptionalSite,
    Item::Bytes(2),
]);

/// What the body of an attribute consists of that a class, a field and a method may have alike.
fn common_row(name: &[u8]) -> Option<Content>
    ensures { option_map content_of result ≡ named common_rows name.now }
{
    if name == b"Signature".as_slice() {
        Some(SITE)
    } else if name == b"Deprecated".as_slice() || name == b"Synthetic".as_slice() {
        Some(Content::Any)
    } else {
        None
    }
}

/// What the body of an attribute of a class consists of.
fn class_row(name: &[u8]) -> Option<Content>
    ensures { option_map content_of result ≡ named class_rows name.now }
{
    if name == b"SourceFile".as_slice() || name == b"NestHost".as_slice() {
        Some(SITE)
    } else if name == b"NestMembers".as_slice() {
        Some(SITES)
    } else if name == b"InnerClasses".as_slice() {
        Some(INNER_CLASSES)
    } else if name == b"EnclosingMethod".as_slice() {
        Some(Content::Items(&[Item::Site, Item::OptionalSite]))
    } else if name == b"BootstrapMethods".as_slice() {
        Some(Content::Methods)
    } else if name == b"SourceDebugExtension".as_slice() {
        Some(Content::Any)
    } else {
        common_row(name)
    }
}

/// What the body of an attribute of a field consists of.
fn field_row(name: &[u8]) -> Option<Content>
    ensures { option_map content_of result ≡ named field_rows name.now }
{
    if name == b"ConstantValue".as_slice() {
        Some(SITE)
    } else {
        common_row(name)
    }
}

/// What the body of an attribute of a method consists of.
fn method_row(name: &[u8]) -> Option<Content>
    ensures { option_map content_of result ≡ named method_rows name.now }
{
    if name == b"Code".as_slice() {
        Some(Content::Code)
    } else if name == b"Exceptions".as_slice() {
        Some(SITES)
    } else if name == b"MethodParameters".as_slice() {
        Some(Content::ShortRows(&[Item::OptionalSite, Item::Bytes(2)]))
    } else {
        common_row(name)
    }
}

/// What the body of an attribute of a Code consists of.
fn code_row(name: &[u8]) -> Option<Content>
    ensures { option_map content_of result ≡ named code_rows name.now }
{
    if name == b"LineNumberTable".as_slice() {
        Some(Content::Any)
    } else if name == b"LocalVariableTable".as_slice()
        || name == b"LocalVariableTypeTable".as_slice()
    {
        Some(VARIABLES)
    } else if name == b"StackMapTable".as_slice() {
        Some(Content::Frames)
    } else {
        None
    }
}

/// What the body of an attribute consists of, by its place and the constant of its name.
pub fn content_at(class: &Class, place: Place, name: u16) -> Option<Content>
    ensures { option_map content_of result ≡ content_at place (plain class.now).pool name }
{
    let name = utf8(class, name)?;
    match place {
        Place::Class => class_row(name),
        Place::Field => field_row(name),
        Place::Method => method_row(name),
        Place::Code => code_row(name),
    }
}
