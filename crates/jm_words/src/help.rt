//! The texts of the help, a line for each row of the tables.
ghost use Rattle.std.specs.Prelude.{◌≡◌, ◌++◌, flat_map, map, IfOk, OnOk};
ghost use Rattle.jm_words.specs.Help.{entry_text, help_text, lines, options_text, row_text};
ghost use Rattle.jm_words.specs.Help.{value_word, verb_text};
ghost use Rattle.jm_words.specs.Tables.{verbs};
ghost use Rattle.jm_words.specs.Rows.{row_of};

use crate::tables::{DIGESTS, Form, INCLUDE, NODES, Part, Row, Verb, options, verbs};
use jm_bytes::{NoMemory, Text};
use std::alloc::Global;

/// Words of a command, and what it does.
#[derive(Clone, Copy)]
struct Line(&'static [u8], &'static [u8]);

/// The lines of the help that tell of a command.
fn lines(verb: Verb) -> &'static [Line]
    ensures { map (λ line. (line.0.now, line.1.now)) result.now ≡ lines verb }
{
    match verb {
        Verb::Link => &[
            Line(
                b"link --module-path DIRS --add-modules NAMES --output FILE [options] [plug-ins]",
                b"links modules and all that they require, except by requires static",
            ),
            Line(
                b"link --from-image FILE --add-modules NAMES --output FILE [options] [plug-ins]",
                b"the same with the modules of another image; --module-path may stand too",
            ),
        ],
        Verb::Cat => &[Line(
            b"cat IMAGE NAME",
            b"prints the bytes of the entry of that name",
        )],
        Verb::List => &[Line(
            b"list IMAGE [--include PATTERNS] [--sha256]",
            b"prints the size and the name of each resource",
        )],
        Verb::Ls => &[Line(b"ls IMAGE PATH", b"prints what a folder of the image holds")],
        Verb::Info => &[Line(b"info IMAGE", b"prints what the header says")],
        Verb::Extract => &[Line(
            b"extract IMAGE --dir DIR [--include PATTERNS]",
            b"writes each resource to a file below DIR",
        )],
        Verb::Verify => &[Line(
            b"verify IMAGE [--nodes]",
            b"checks the structure of the image and prints the number of its entries",
        )],
        Verb::Decompress => &[Line(
            b"decompress IMAGE --output FILE",
            b"writes the image of the resources of a compressed image, uncompressed",
        )],
        Verb::Serve => &[Line(b"serve IMAGE", b"answers the lines of the input")],
        Verb::Gen => &[Line(
            b"gen DIR --modules N --classes N --seed N",
            b"makes modules below DIR and links them",
        )],
        Verb::Describe => &[Line(
            b"describe FILE [--release N]",
            b"prints what a module-info.class says",
        )],
        Verb::Help => &[Line(b"--help", b"prints this text")],
        Verb::Version => &[Line(b"--version", b"prints the version of the program")],
    }
}

/// The word for the value of a form, with a space in front.
fn value_word(form: Form) -> &'static [u8]
    ensures { result.now ≡ value_word form }
{
    match form {
        Form::Flag | Form::Name | Form::InnerPath => b"",
        Form::Path => b" FILE",
        Form::Folder => b" DIR",
        Form::Folders => b" DIRS",
        Form::Names => b" NAMES",
        Form::Number => b" N",
        Form::Order => b" ORDER",
        Form::Patterns => b" PATTERNS",
    }
}

/// Adds words, and below them what they do.
fn extend_entry(text: &mut Text, words: &[u8], value: &[u8], does: &[u8]) -> Result<(), NoMemory>
    ensures { OnOk result (text.new ≡ text.old ++ entry_text (words.now ++ value.now) does.now) }
{
    text.extend(b"  ")?;
    text.extend(words)?;
    text.extend(value)?;
    text.extend(b"\n      ")?;
    text.extend(does)?;
    text.extend(b"\n")
}

/// Adds the lines of a command.
fn extend_verb(text: &mut Text, verb: Verb) -> Result<(), NoMemory>
    ensures { OnOk result (text.new ≡ text.old ++ verb_text verb) }
{
    for line in lines(verb) {
        extend_entry(text, line.0, b"", line.1)?;
    }
    Ok(())
}

/// Adds the lines of all commands.
fn extend_verbs(text: &mut Text) -> Result<(), NoMemory>
    ensures { OnOk result (text.new ≡ text.old ++ flat_map verb_text verbs) }
{
    for verb in verbs() {
        extend_verb(text, *verb)?;
    }
    Ok(())
}

/// Adds what a row is, and below it what it does.
fn extend_row(text: &mut Text, row: Row) -> Result<(), NoMemory>
    ensures { OnOk result (text.new ≡ text.old ++ row_text (row_of row)) }
{
    extend_entry(text, row.0, value_word(row.1), row.4)
}

/// Adds the options of a command that have their lines in a part of the help.
fn extend_options(text: &mut Text, verb: Verb, part: Part) -> Result<(), NoMemory>
    ensures { OnOk result (text.new ≡ text.old ++ options_text verb part) }
{
    for row in options(verb) {
        if row.3 == part {
            extend_row(text, *row)?;
        }
    }
    Ok(())
}

/// The help: all commands, the options and the plug-ins.
pub fn help_text(alloc: Global) -> Result<Text, NoMemory>
    ensures { IfOk result (λ text. text ≡ help_text) }
{
    let mut text = Text::copy_of(alloc, b"usage: jm_tool COMMAND ..\n\ncommands:\n")?;
    extend_verbs(&mut text)?;
    text.extend(b"\noptions:\n")?;
    extend_options(&mut text, Verb::Link, Part::Options)?;
    extend_row(&mut text, INCLUDE)?;
    extend_row(&mut text, DIGESTS)?;
    extend_row(&mut text, NODES)?;
    text.extend(b"\nplug-ins:\n")?;
    extend_options(&mut text, Verb::Link, Part::Plugins)?;
    text.extend(b"\n")?;
    Ok(text)
}
