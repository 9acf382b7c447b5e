//! The words of the command line: which command they make, or what is wrong with them (this
//! project's rule).
#![tactic(auto)]

mod commands;
mod drafts;
mod errors;
mod given;
mod help;
mod reading;
mod tables;
mod tasks;
mod values;

pub use commands::{read_words, verb_named};
pub use errors::{WordsFault, WordsKind};
pub use help::help_text;
pub use tables::{Field, Form, Part, Row, Verb, arguments, limits, options, verb_name, verbs};
pub use tasks::{Command, DecompressTask, GenTask, ImageWork, LinkTask, Plugin, Task};
