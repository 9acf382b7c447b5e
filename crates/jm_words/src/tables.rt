ghost use Rattle.std.specs.Prelude.{◌≡◌, map};
ghost use Rattle.jm_words.specs.Rows.{row_of};
ghost use Rattle.jm_words.specs.Tables.{arguments, is_flag, limits, options};
ghost use Rattle.jm_words.specs.Tables.{verb_name, verbs};

/// The commands.
#[derive(Clone, Copy)]
pub enum Verb {
    Link,
    Cat,
    List,
    Ls,
    Info,
    Extract,
    Verify,
    Decompress,
    Serve,
    Gen,
    Describe,
    Help,
    Version,
}

/// What a command takes, each at most once, and the plug-ins, which may be given again and again.
#[derive(Clone, Copy, PartialEq, Eq)]
pub enum Field {
    File,
    Name,
    Folder,
    Directories,
    FromImage,
    Roots,
    Output,
    Order,
    Bind,
    Release,
    Include,
    Digests,
    Nodes,
    Modules,
    Classes,
    Seed,
    Jobs,
    Exclude,
    Rank,
    KeepOrder,
    Strip,
    Compact,
    Packages,
    DropSystemModules,
}

/// What the text of an argument, or of an option's value, must be.
#[derive(Clone, Copy)]
pub enum Form {
    /// An option without a value.
    Flag,
    /// The path of a file.
    Path,
    /// The path of a folder, without the slashes at its end.
    Folder,
    /// Folders between colons.
    Folders,
    /// A name in an image, in Modified UTF-8.
    Name,
    /// A path in an image, in Modified UTF-8.
    InnerPath,
    /// Names of modules between commas, in Modified UTF-8.
    Names,
    /// A number within the limits of its field.
    Number,
    /// `little` or `big`.
    Order,
    /// A comma list of patterns.
    Patterns,
}

/// Where the help has the line of an argument or an option.
#[derive(Clone, Copy, PartialEq, Eq)]
pub enum Part {
    /// It has none of its own.
    None,
    /// Among the options.
    Options,
    /// Among the plug-ins.
    Plugins,
}

/// An argument or an option: its name, the form of its text, the field that it gives, and where the
/// help has which line of it.
#[derive(Clone, Copy)]
pub struct Row(
    pub &'static [u8],
    pub Form,
    pub Field,
    pub Part,
    pub &'static [u8],
);

const IMAGE: Row = Row(b"IMAGE", Form::Path, Field::File, Part::None, b"");

const JOBS: Row = Row(
    b"--jobs",
    Form::Number,
    Field::Jobs,
    Part::Options,
    b"uses up to N threads, from 1 to 64; the output is the same",
);

const OUTPUT: Row = Row(b"--output", Form::Path, Field::Output, Part::None, b"");

const RELEASE: Row = Row(
    b"--release",
    Form::Number,
    Field::Release,
    Part::Options,
    b"accepts class files up to Java N, from 21 to 25; 21 without it",
);

pub const INCLUDE: Row = Row(
    b"--include",
    Form::Patterns,
    Field::Include,
    Part::Options,
    b"takes only the resources whose name matches a pattern of the list",
);

pub const DIGESTS: Row = Row(
    b"--sha256",
    Form::Flag,
    Field::Digests,
    Part::Options,
    b"prints the SHA-256 of the content of each resource before its size",
);

pub const NODES: Row = Row(
    b"--nodes",
    Form::Flag,
    Field::Nodes,
    Part::Options,
    b"also checks the contents of the nodes of the two trees",
);

/// All commands.
pub fn verbs() -> &'static [Verb]
    ensures { result.now ≡ verbs }
{
    &[
        Verb::Link,
        Verb::Cat,
        Verb::List,
        Verb::Ls,
        Verb::Info,
        Verb::Extract,
        Verb::Verify,
        Verb::Decompress,
        Verb::Serve,
        Verb::Gen,
        Verb::Describe,
        Verb::Help,
        Verb::Version,
    ]
}

/// The name of a command.
pub fn verb_name(verb: Verb) -> &'static [u8]
    ensures { result.now ≡ verb_name verb }
{
    match verb {
        Verb::Link => b"link",
        Verb::Cat => b"cat",
        Verb::List => b"list",
        Verb::Ls => b"ls",
        Verb::Info => b"info",
        Verb::Extract => b"extract",
        Verb::Verify => b"verify",
        Verb::Decompress => b"decompress",
        Verb::Serve => b"serve",
        Verb::Gen => b"gen",
        Verb::Describe => b"describe",
        Verb::Help => b"--help",
        Verb::Version => b"--version",
    }
}

/// The arguments of a command, in order.
pub fn arguments(verb: Verb) -> &'static [Row]
    ensures { map row_of result.now ≡ arguments verb }
{
    match verb {
        Verb::Link | Verb::Help | Verb::Version => &[],
        Verb::Cat => &[
            IMAGE,
            Row(b"NAME", Form::Name, Field::Name, Part::None, b""),
        ],
        Verb::Ls => &[
            IMAGE,
            Row(b"PATH", Form::InnerPath, Field::Name, Part::None, b""),
        ],
        Verb::List | Verb::Info | Verb::Extract | Verb::Verify | Verb::Serve | Verb::Decompress =>
            &[IMAGE],
        Verb::Gen => &[Row(b"DIR", Form::Folder, Field::Folder, Part::None, b"")],
        Verb::Describe => &[Row(b"FILE", Form::Path, Field::File, Part::None, b"")],
    }
}

/// The options of a command.
pub fn options(verb: Verb) -> &'static [Row]
    ensures { map row_of result.now ≡ options verb }
{
    match verb {
        Verb::Link => &[
            JOBS,
            Row(
                b"--module-path",
                Form::Folders,
                Field::Directories,
                Part::Options,
                b"the directories to find modules in, with colons between them",
            ),
            Row(
                b"--from-image",
                Form::Path,
                Field::FromImage,
                Part::Options,
                b"the image to find modules in, before the directories of --module-path",
            ),
            Row(
                b"--add-modules",
                Form::Names,
                Field::Roots,
                Part::Options,
                b"the modules to link; ALL-MODULE-PATH is all of DIRS, or else of the image",
            ),
            OUTPUT,
            Row(
                b"--endian",
                Form::Order,
                Field::Order,
                Part::Options,
                b"the byte order of the image: little, or big",
            ),
            Row(
                b"--bind-services",
                Form::Flag,
                Field::Bind,
                Part::Options,
                b"also links the modules that provide services which linked modules use",
            ),
            RELEASE,
            Row(
                b"--exclude-resources",
                Form::Patterns,
                Field::Exclude,
                Part::Plugins,
                b"leaves out the resources whose name matches a pattern",
            ),
            Row(
                b"--order-resources",
                Form::Patterns,
                Field::Rank,
                Part::Plugins,
                b"places the resources in the order of the patterns that match their names",
            ),
            Row(
                b"--keep-order",
                Form::Flag,
                Field::KeepOrder,
                Part::Plugins,
                b"places the resources in the order of the image of --from-image",
            ),
            Row(
                b"--strip-java-debug-attributes",
                Form::Flag,
                Field::Strip,
                Part::Plugins,
                b"removes debug attributes",
            ),
            Row(
                b"--compact-pool",
                Form::Flag,
                Field::Compact,
                Part::Plugins,
                b"removes unreferenced constants",
            ),
            Row(
                b"--module-packages",
                Form::Flag,
                Field::Packages,
                Part::Plugins,
                b"lists the packages of each module in its descriptor",
            ),
            Row(
                b"--drop-system-modules",
                Form::Flag,
                Field::DropSystemModules,
                Part::Plugins,
                b"removes the classes of java.base that name all modules of another image",
            ),
        ],
        Verb::List => &[JOBS, INCLUDE, DIGESTS],
        Verb::Extract => &[
            JOBS,
            Row(b"--dir", Form::Folder, Field::Folder, Part::None, b""),
            INCLUDE,
        ],
        Verb::Gen => &[
            JOBS,
            Row(b"--modules", Form::Number, Field::Modules, Part::None, b""),
            Row(b"--classes", Form::Number, Field::Classes, Part::None, b""),
            Row(b"--seed", Form::Number, Field::Seed, Part::None, b""),
        ],
        Verb::Describe => &[JOBS, RELEASE],
        Verb::Verify => &[JOBS, NODES],
        Verb::Decompress => &[JOBS, OUTPUT],
        Verb::Cat | Verb::Ls | Verb::Info | Verb::Serve | Verb::Help | Verb::Version => &[JOBS],
    }
}

/// The limits of the numbers of a field.
pub fn limits(field: Field) -> (u64, u64)
    ensures { result ≡ limits field }
{
    match field {
        Field::Jobs => (1, 64),
        Field::Release => (21, 25),
        Field::Modules => (1, 256),
        Field::Classes => (1, 1024),
        _ => (0, u64::MAX),
    }
}

impl Form {
    /// Whether it is that of an option without a value.
    pub fn is_flag(self) -> bool
        ensures { result ≡ is_flag self }
    {
        matches!(self, Form::Flag)
    }
}
