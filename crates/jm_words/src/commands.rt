ghost use Rattle.std.specs.Prelude.{◌≡◌, ◌<◌, map, string_bytes, IfOk, IfSome, IsUtf8};
ghost use Rattle.std.specs.List.{find};
ghost use Rattle.std.specs.Str.{bytes_eq};
ghost use Rattle.jm_bytes.specs.Results.{IfAnswered};
ghost use Rattle.jm_words.specs.Commands.{decompress_of, gen_of, jobs_of, link_of, on_image};
ghost use Rattle.jm_words.specs.Commands.{release_of, task_of, verb_named};
ghost use Rattle.jm_words.specs.Paths.{DecompressIsText, FilePathsAreText, FolderIsText};
ghost use Rattle.jm_words.specs.Paths.{GenFits, IsRelease, LinkIsText, NumbersFit};
ghost use Rattle.jm_words.specs.Rule.{command_in, with_image};
ghost use Rattle.jm_words.specs.Tables.{verb_name};

use crate::drafts::{
    Draft, gives_image, gives_modules, has, number, order, take_name, take_names, take_path,
    take_paths, take_patterns,
};
use crate::errors::{WordsFault, WordsKind};
use crate::given::Given;
use crate::reading::draft_of;
use crate::tables::{Field, Verb, verb_name, verbs};
use crate::tasks::{Command, DecompressTask, GenTask, ImageWork, LinkTask, Plugin, Task};
use jm_bytes::{List, Or, Order};
use std::alloc::Global;

/// Reads the words behind the program's name: the command that they make, or their first fault. A
/// fault has the number of its word, from 1; a missing argument or option has that of all words.
pub fn read_words(alloc: Global, words: &[String]) -> Result<Command, Or<WordsFault>>
    ensures command { IfAnswered
        (λ r. r ≡ command_in (map string_bytes words.now)) result }
    ensures paths { IfOk result (λ command. FilePathsAreText command.task) }
    ensures jobs { IfOk result (λ command. 0 < command.jobs) }
    ensures numbers { IfOk result (λ command. NumbersFit command.task) }
{
    let (name, behind) = match words.split_first() {
        Some((name, behind)) => (name, behind),
        None => return Err(Or::Fault(WordsFault {
            at: 0,
            kind: WordsKind::NoCommand,
        })),
    };
    let verb = match verb_named(name.as_bytes()) {
        Some(verb) => verb,
        None => return Err(Or::Fault(WordsFault {
            at: 1,
            kind: WordsKind::UnknownCommand,
        })),
    };
    let draft = with_image(draft_of(alloc, verb, behind)?)?;
    let jobs = jobs_of(draft.values.as_slice());
    match task_of(alloc, verb, draft) {
        Some(task) => Ok(Command { jobs, task }),
        None => Err(Or::Fault(WordsFault {
            at: words.len(),
            kind: WordsKind::Missing,
        })),
    }
}

/// What words give, or the fault of the first word that asks for the order of an image, where no
/// image is given.
fn with_image(draft: Draft) -> Result<Draft, Or<WordsFault>>
    ensures { IfAnswered (λ r. r ≡ with_image draft) result }
{
    match draft.kept_at {
        Some(at) if !gives_image(draft.values.as_slice()) => Err(Or::Fault(WordsFault {
            at,
            kind: WordsKind::BadValue,
        })),
        _ => Ok(draft),
    }
}

/// The command of a name.
pub fn verb_named(name: &[u8]) -> Option<Verb>
    ensures { result ≡ verb_named name.now }
{
    first_named(verbs(), name)
}

/// The first command of a list that has a name.
fn first_named(verbs: &[Verb], name: &[u8]) -> Option<Verb>
    ensures { result ≡ find (λ verb. bytes_eq (verb_name verb) name.now) verbs.now }
{
    for verb in verbs {
        if verb_name(*verb) == name {
            return Some(*verb);
        }
    }
    None
}

/// The number of jobs that was given, or else one.
fn jobs_of(values: &[Given]) -> u32
    ensures jobs { result ≡ jobs_of values.now }
    ensures some { 0 < result }
{
    number(values, Field::Jobs).unwrap_or(1) as u32
}

/// The release that was given, or else 21.
fn release_of(values: &[Given]) -> u32
    ensures release { result ≡ release_of values.now }
    ensures within { IsRelease result }
{
    number(values, Field::Release).unwrap_or(21) as u32
}

/// The task of what was given, if all is there that must be.
fn task_of(alloc: Global, verb: Verb, draft: Draft) -> Option<Task>
    ensures task { result ≡ task_of verb draft }
    ensures paths { IfSome result FilePathsAreText }
    ensures numbers { IfSome result NumbersFit }
{
    let mut values = draft.values.into_vec();
    let values = values.as_mut_slice();
    match verb {
        Verb::Link => Some(Task::Link(link_of(alloc, values, draft.plugins)?)),
        Verb::Decompress => Some(Task::Decompress(decompress_of(values)?)),
        Verb::Gen => Some(Task::Gen(gen_of(values)?)),
        Verb::Describe => Some(Task::Describe {
            release: release_of(values),
            file: take_path(values, Field::File)?,
        }),
        Verb::Help => Some(Task::Help),
        Verb::Version => Some(Task::Version),
        Verb::Cat => {
            let name = take_name(values, Field::Name)?;
            on_image(values, ImageWork::Cat { name })
        }
        Verb::List => {
            let digests = has(values, Field::Digests);
            let include = take_patterns(values, Field::Include);
            on_image(values, ImageWork::List { include, digests })
        }
        Verb::Ls => {
            let path = take_name(values, Field::Name)?;
            on_image(values, ImageWork::Ls { path })
        }
        Verb::Info => on_image(values, ImageWork::Info),
        Verb::Extract => {
            let dir = take_path(values, Field::Folder)?;
            let include = take_patterns(values, Field::Include);
            on_image(values, ImageWork::Extract { dir, include })
        }
        Verb::Verify => {
            let nodes = has(values, Field::Nodes);
            on_image(values, ImageWork::Verify { nodes })
        }
        Verb::Serve => on_image(values, ImageWork::Serve),
    }
}

/// The work on an image, if the image was given.
fn on_image(values: &mut [Given], work: ImageWork) -> Option<Task>
    ensures task { result ≡ on_image values.old work }
    ensures paths { FolderIsText work → IfSome result FilePathsAreText }
    ensures numbers { IfSome result NumbersFit }
{
    Some(Task::Image {
        image: take_path(values, Field::File)?,
        work,
    })
}

/// The `decompress` of what was given, if all is there that must be.
fn decompress_of(values: &mut [Given]) -> Option<DecompressTask>
    ensures task { result ≡ decompress_of values.old }
    ensures paths { IfSome result DecompressIsText }
{
    Some(DecompressTask {
        image: take_path(values, Field::File)?,
        output: take_path(values, Field::Output)?,
    })
}

/// The `gen` of what was given, if all is there that must be.
fn gen_of(values: &mut [Given]) -> Option<GenTask>
    ensures task { result ≡ gen_of values.old }
    ensures path { IfSome result (λ gen. IsUtf8 gen.dir) }
    ensures numbers { IfSome result GenFits }
{
    Some(GenTask {
        modules: number(values, Field::Modules)? as u32,
        classes: number(values, Field::Classes)? as u32,
        seed: number(values, Field::Seed)?,
        dir: take_path(values, Field::Folder)?,
    })
}

/// The `link` of what was given, if all is there that must be.
fn link_of(alloc: Global, values: &mut [Given], plugins: List<Plugin>) -> Option<LinkTask>
    ensures task { result ≡ link_of values.old plugins }
    ensures paths { IfSome result LinkIsText }
    ensures release { IfSome result (λ link. IsRelease link.release) }
{
    if !gives_modules(values) {
        return None;
    }
    let order = order(values, Field::Order).unwrap_or(Order::Little);
    let bind = has(values, Field::Bind);
    let release = release_of(values);
    let directories = take_paths(alloc, values, Field::Directories);
    let image = take_path(values, Field::FromImage);
    let roots = take_names(values, Field::Roots)?;
    let output = take_path(values, Field::Output)?;
    Some(LinkTask {
        directories,
        image,
        roots,
        output,
        plugins,
        order,
        bind,
        release,
    })
}
