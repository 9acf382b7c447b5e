ghost use Rattle.std.specs.Prelude.{◌≡◌, Some, None, IfErr, IfOk, IfSome};
ghost use Rattle.jm_words.specs.Fits.{Fits};
ghost use Rattle.jm_words.specs.Givens.{given_of, plugin_in, value_of};
ghost use Rattle.jm_words.specs.Rows.{row_of};

use crate::tables::{Field, Form, Row, limits};
use crate::tasks::Plugin;
use crate::values::{
    folders_of, names_of, number_of, order_of, path_of, patterns_of, without_slashes,
};
use jm_bytes::{List, NoMemory, Order, Text};
use jm_names::to_modified;
use jm_pattern::Pattern;
use std::alloc::Global;
use std::marker::Model;

/// What the text of an argument, or of an option's value, means.
#[derive(Drop)]
pub enum Value {
    /// Of an option without a value: that it stands.
    Flag,
    /// The path of a file or of a folder.
    Path(Text),
    /// The paths of folders.
    Paths(List<Text>),
    /// A name or a path in an image, in Modified UTF-8.
    Name(Text),
    /// The names of modules, in Modified UTF-8.
    Names(List<Text>),
    /// A number within the limits of its field.
    Number(u64),
    /// The order of the bytes of a word.
    Order(Order),
    /// Some patterns.
    Patterns(List<Pattern>),
}

/// What an argument or an option gives: a field, and its value.
#[derive(Drop)]
pub struct Given {
    pub field: Field,
    pub value: Value,
}

impl Model for Given {
    ghost use Rattle.jm_words.specs.Fits.{Fits};
    ghost use Rattle.jm_words.specs.Givens.{Given};

    ghost Value = { Given };

    ghost view = { λ a. record { field = a.field; value = a.value } };

    ghost invariant = { λ a. Fits a.field a.value };
}

/// What a text of the form of a row means, if it is of the form. No text is of that of a flag.
fn value_of(alloc: Global, row: Row, text: &str) -> Result<Option<Value>, NoMemory>
    ensures value { IfOk result (λ value. value ≡ value_of row.2 row.1 text.now) }
    ensures fits { IfOk result (λ value. IfSome value (Fits row.2)) }
{
    match row.1 {
        Form::Flag => Ok(None),
        Form::Path => Ok(path_of(alloc, text)?.map(|path| Value::Path(path))),
        Form::Folder => Ok(path_of(alloc, without_slashes(text))?.map(|path| Value::Path(path))),
        Form::Folders => match folders_of(alloc, text)? {
            Some(paths) => Ok(Some(Value::Paths(paths))),
            None => Ok(None),
        },
        Form::Name => Ok(Some(Value::Name(to_modified(alloc, text.as_bytes())?))),
        Form::InnerPath => {
            if text.is_empty() {
                Ok(None)
            } else {
                Ok(Some(Value::Name(to_modified(alloc, text.as_bytes())?)))
            }
        }
        Form::Names => Ok(names_of(alloc, text)?.map(|names| Value::Names(names))),
        Form::Number => {
            Ok(number_of(limits(row.2), text.as_bytes()).map(|number| Value::Number(number)))
        }
        Form::Order => Ok(order_of(text.as_bytes()).map(|order| Value::Order(order))),
        Form::Patterns => Ok(patterns_of(alloc, text)?.map(|patterns| Value::Patterns(patterns))),
    }
}

/// What a text gives as that of an argument or of an option's value, if it is of the row's form.
pub fn given_of(alloc: Global, row: Row, text: &str) -> Result<Option<Given>, NoMemory>
    ensures { IfOk result (λ given. given ≡ given_of (row_of row) text.now) }
{
    match value_of(alloc, row, text)? {
        Some(value) => Ok(Some(Given {
            field: row.2,
            value,
        })),
        None => Ok(None),
    }
}

/// The plug-in that is given, or what is given else.
pub fn plugin_or_given(alloc: Global, given: Given) -> Result<Plugin, Given>
    ensures plugin { IfOk result (λ plugin. plugin_in given ≡ Some plugin) }
    ensures other { IfErr result (λ other. (other ≡ given) × (plugin_in given ≡ None)) }
{
    let Given { field, value } = given;
    match (field, value) {
        (Field::Exclude, Value::Patterns(names)) => Ok(Plugin::Exclude(names)),
        (Field::Rank, Value::Patterns(names)) => Ok(Plugin::Order(names)),
        (Field::KeepOrder, Value::Flag) => Ok(Plugin::KeepOrder(List::new(alloc))),
        (Field::Strip, Value::Flag) => Ok(Plugin::Strip),
        (Field::Compact, Value::Flag) => Ok(Plugin::Compact),
        (Field::Packages, Value::Flag) => Ok(Plugin::Packages),
        (Field::DropSystemModules, Value::Flag) => Ok(Plugin::DropSystemModules),
        (field, value) => Err(Given { field, value }),
    }
}
