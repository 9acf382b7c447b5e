ghost use Rattle.std.specs.Prelude.{◌≡◌, option_map, All, IfSome, IsUtf8, OnOk};
ghost use Rattle.jm_words.specs.Drafts.{LeavesOthers, gives_image, gives_modules, has, name_in};
ghost use Rattle.jm_words.specs.Drafts.{names_in, nothing, number_in, order_in, path_in, paths_in};
ghost use Rattle.jm_words.specs.Drafts.{patterns_in, the, with_given};
ghost use Rattle.jm_words.specs.Fits.{Fits, IsWithin};

use crate::given::{Given, Value, plugin_or_given};
use crate::tables::Field;
use crate::tasks::Plugin;
use jm_bytes::{List, NoMemory, Order, Text};
use jm_pattern::Pattern;
use std::alloc::Global;
use std::mem::replace;

/// What words have given so far: fields with their values, the plug-ins, and the number of the
/// first word that asks for the order of an image, from 1.
#[derive(Drop)]
pub struct Draft {
    pub values: List<Given>,
    pub plugins: List<Plugin>,
    pub kept_at: Option<usize>,
}

impl Draft {
    /// Before the first word.
    pub fn new(alloc: Global) -> Draft
        ensures { result ≡ nothing }
    {
        Draft {
            values: List::new(alloc),
            plugins: List::new(alloc),
            kept_at: None,
        }
    }

    /// One more thing is given, by the word of this number.
    pub fn put(&mut self, alloc: Global, at: usize, given: Given) -> Result<(), NoMemory>
        ensures { OnOk result (self.new ≡ with_given at self.old given) }
    {
        if self.kept_at.is_none() && given.field == Field::KeepOrder {
            self.kept_at = Some(at);
        }
        match plugin_or_given(alloc, given) {
            Ok(plugin) => self.plugins.push(plugin),
            Err(given) => self.values.push(given),
        }
    }
}

/// Whether the path of an image to link is given.
pub fn gives_image(values: &[Given]) -> bool
    ensures { result ≡ gives_image values.now }
{
    matches!(find(values, Field::FromImage), Some(Value::Path(_)))
}

/// Whether a module path or an image to link is given.
pub fn gives_modules(values: &[Given]) -> bool
    ensures { result ≡ gives_modules values.now }
{
    has(values, Field::Directories) || has(values, Field::FromImage)
}

/// Whether a field is given.
pub fn has(values: &[Given], field: Field) -> bool
    ensures { result ≡ has values.now field }
{
    find(values, field).is_some()
}

/// The value of a field, if it is given.
fn find(values: &[Given], field: Field) -> Option<&Value>
    ensures value { option_map (λ value. value.now) result ≡ the field values.now }
    ensures fits { IfSome result (λ value. Fits field value.now) }
{
    for given in values {
        if given.field == field {
            return Some(&given.value);
        }
    }
    None
}

/// The value of a field, taken out, if it is given.
fn take(values: &mut [Given], field: Field) -> Option<Value>
    ensures value { result ≡ the field values.old }
    ensures fits { IfSome result (Fits field) }
    ensures others { LeavesOthers field values.old values.new }
{
    for place in 0..values.len() {
        let given = &values[place];
        if given.field == field {
            let given = &mut values[place];
            return Some(replace(&mut given.value, Value::Flag));
        }
    }
    None
}

/// The path that a field has, taken out, if it has one.
pub fn take_path(values: &mut [Given], field: Field) -> Option<Text>
    ensures path { result ≡ path_in (the field values.old) }
    ensures text { IfSome result IsUtf8 }
    ensures others { LeavesOthers field values.old values.new }
{
    match take(values, field)? {
        Value::Path(path) => Some(path),
        _ => None,
    }
}

/// The name or the path in an image that a field has, taken out, if it has one.
pub fn take_name(values: &mut [Given], field: Field) -> Option<Text>
    ensures name { result ≡ name_in (the field values.old) }
    ensures others { LeavesOthers field values.old values.new }
{
    match take(values, field)? {
        Value::Name(name) => Some(name),
        _ => None,
    }
}

/// The names that a field has, taken out, if it has some.
pub fn take_names(values: &mut [Given], field: Field) -> Option<List<Text>>
    ensures names { result ≡ names_in (the field values.old) }
    ensures others { LeavesOthers field values.old values.new }
{
    match take(values, field)? {
        Value::Names(names) => Some(names),
        _ => None,
    }
}

/// The patterns that a field has, taken out, if it has some.
pub fn take_patterns(values: &mut [Given], field: Field) -> Option<List<Pattern>>
    ensures patterns { result ≡ patterns_in (the field values.old) }
    ensures others { LeavesOthers field values.old values.new }
{
    match take(values, field)? {
        Value::Patterns(patterns) => Some(patterns),
        _ => None,
    }
}

/// The paths that a field has, taken out, or none.
pub fn take_paths(alloc: Global, values: &mut [Given], field: Field) -> List<Text>
    ensures paths { result ≡ paths_in (the field values.old) }
    ensures text { All IsUtf8 result }
    ensures others { LeavesOthers field values.old values.new }
{
    match take(values, field) {
        Some(Value::Paths(paths)) => paths,
        _ => List::new(alloc),
    }
}

/// The number that a field has, if it has one.
pub fn number(values: &[Given], field: Field) -> Option<u64>
    ensures number { result ≡ number_in (the field values.now) }
    ensures within { IfSome result (IsWithin field) }
{
    match find(values, field)? {
        Value::Number(number) => Some(*number),
        _ => None,
    }
}

/// The order that a field has, if it has one.
pub fn order(values: &[Given], field: Field) -> Option<Order>
    ensures order { result ≡ order_in (the field values.now) }
{
    match find(values, field)? {
        Value::Order(order) => Some(*order),
        _ => None,
    }
}
