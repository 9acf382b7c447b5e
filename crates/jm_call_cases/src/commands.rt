//! The commands that words make, told as a line: the command, what it names, and its jobs.

use jm_bytes::{List, Or, Order, Text};
use jm_lines::{put_bytes, words_of};
use jm_pattern::Pattern;
use jm_words::{Command, GenTask, ImageWork, LinkTask, Plugin, Task, read_words};
use std::alloc::{AllocError, Global};

/// Puts a text between bars.
fn put_text(line: &mut String, text: &Text) -> Result<(), AllocError> {
    line.push_str(" |")?;
    put_bytes(line, text.as_slice())?;
    line.push('|')
}

fn put_texts(line: &mut String, texts: &List<Text>) -> Result<(), AllocError> {
    for text in texts.as_slice() {
        put_text(line, text)?;
    }
    Ok(())
}

/// Puts a list of patterns by their number.
fn put_patterns(line: &mut String, list: &Option<List<Pattern>>) -> Result<(), AllocError> {
    match list {
        Some(patterns) => {
            let count = patterns.len();
            write!(line, " include {count}")
        }
        None => Ok(()),
    }
}

fn put_plugin(line: &mut String, plugin: &Plugin) -> Result<(), AllocError> {
    match plugin {
        Plugin::Exclude(patterns) => {
            let count = patterns.len();
            write!(line, " exclude {count}")
        }
        Plugin::Order(patterns) => {
            let count = patterns.len();
            write!(line, " order {count}")
        }
        Plugin::KeepOrder(names) => {
            let count = names.len();
            write!(line, " keep-order {count}")
        }
        Plugin::Strip => line.push_str(" strip"),
        Plugin::Compact => line.push_str(" compact"),
        Plugin::Packages => line.push_str(" packages"),
        Plugin::DropSystemModules => line.push_str(" drop-system-modules"),
    }
}

fn put_plugins(line: &mut String, plugins: &List<Plugin>) -> Result<(), AllocError> {
    for plugin in plugins.as_slice() {
        put_plugin(line, plugin)?;
    }
    Ok(())
}

/// Puts what a command names on a file: the file, and a place there.
fn put_file(
    line: &mut String,
    word: &str,
    file: &Text,
    place: Option<&Text>,
) -> Result<(), AllocError> {
    line.push_str(word)?;
    put_text(line, file)?;
    match place {
        Some(place) => put_text(line, place),
        None => Ok(()),
    }
}

/// Puts where a `link` reads: the directories, and the image.
fn put_sources(line: &mut String, task: &LinkTask) -> Result<(), AllocError> {
    put_texts(line, &task.directories)?;
    match &task.image {
        Some(image) => {
            line.push_str(" from")?;
            put_text(line, image)
        }
        None => Ok(()),
    }
}

/// Puts what a `link` reads, takes and makes.
fn put_link(line: &mut String, task: &LinkTask) -> Result<(), AllocError> {
    line.push_str("link")?;
    put_sources(line, task)?;
    line.push_str(" add")?;
    put_texts(line, &task.roots)?;
    line.push_str(" to")?;
    put_text(line, &task.output)
}

/// Puts up to which release classes are taken.
fn put_release(line: &mut String, release: u32) -> Result<(), AllocError> {
    write!(line, " release {release}")
}

/// Puts what a `link` does.
fn put_linking(line: &mut String, task: &LinkTask) -> Result<(), AllocError> {
    put_plugins(line, &task.plugins)?;
    line.push_str(if task.order == Order::Big {
        " big"
    } else {
        " little"
    })?;
    line.push_str(if task.bind { " bound" } else { "" })?;
    put_release(line, task.release)
}

/// Puts what a `gen` makes.
fn put_gen(line: &mut String, task: &GenTask) -> Result<(), AllocError> {
    let GenTask {
        modules,
        classes,
        seed,
        ..
    } = task;
    write!(line, " modules {modules} classes {classes} seed {seed}")
}

/// Puts a work on an image, but for its patterns.
fn put_work(line: &mut String, image: &Text, work: &ImageWork) -> Result<(), AllocError> {
    match work {
        ImageWork::Cat { name } => put_file(line, "cat", image, Some(name)),
        ImageWork::List { .. } => put_file(line, "list", image, None),
        ImageWork::Ls { path } => put_file(line, "ls", image, Some(path)),
        ImageWork::Info => put_file(line, "info", image, None),
        ImageWork::Extract { dir, .. } => put_file(line, "extract", image, Some(dir)),
        ImageWork::Verify { .. } => put_file(line, "verify", image, None),
        ImageWork::Serve => put_file(line, "serve", image, None),
    }
}

/// Puts what stands in front of the number of jobs.
fn put_task(line: &mut String, task: &Task) -> Result<(), AllocError> {
    match task {
        Task::Link(task) => put_link(line, task),
        Task::Image { image, work } => put_work(line, image, work),
        Task::Decompress(task) => put_file(line, "decompress", &task.image, Some(&task.output)),
        Task::Gen(task) => put_file(line, "gen", &task.dir, None),
        Task::Describe { file, .. } => put_file(line, "describe", file, None),
        Task::Help => line.push_str("--help"),
        Task::Version => line.push_str("--version"),
    }
}

/// Puts what stands behind the number of jobs.
fn put_more(line: &mut String, task: &Task) -> Result<(), AllocError> {
    match task {
        Task::Link(task) => put_linking(line, task),
        Task::Image {
            work: ImageWork::List { include, digests },
            ..
        } => {
            put_patterns(line, include)?;
            line.push_str(if *digests { " sha256" } else { "" })
        }
        Task::Image {
            work: ImageWork::Extract { include, .. },
            ..
        } => put_patterns(line, include),
        Task::Image {
            work: ImageWork::Verify { nodes },
            ..
        } => line.push_str(if *nodes { " nodes" } else { "" }),
        Task::Gen(task) => put_gen(line, task),
        Task::Describe { release, .. } => put_release(line, *release),
        _ => Ok(()),
    }
}

/// Puts a command: what stands in front of its number of jobs, this, and what stands behind.
fn put_command(line: &mut String, command: &Command) -> Result<(), AllocError> {
    let jobs = command.jobs;
    put_task(line, &command.task)?;
    write!(line, " jobs {jobs}")?;
    put_more(line, &command.task)
}

/// What words come to: the line of their command, or their fault.
pub fn told_words(alloc: Global, words: &str) -> Result<String, AllocError> {
    let words = words_of(alloc, words)?;
    let mut line = String::new(alloc);
    match read_words(alloc, words.as_slice()) {
        Ok(command) => put_command(&mut line, &command)?,
        Err(Or::Fault(fault)) => write!(line, "{fault}")?,
        Err(Or::Memory) => return Err(AllocError),
    }
    Ok(line)
}
