use jm_bytes::{List, Order, Text};
use jm_pattern::Pattern;

/// What a command line asks for: a task, and how many jobs do it. Names, paths in an image and
/// patterns are Modified UTF-8; paths of files stay as they were given, folders without the slashes
/// at their ends.
#[derive(Debug, Drop)]
pub struct Command {
    /// How many pieces may work at the same time, from 1 to 64.
    pub jobs: u32,
    /// What is to be done.
    pub task: Task,
}

/// What is to be done.
#[derive(Debug, Drop)]
pub enum Task {
    /// An image is made of modules.
    Link(LinkTask),
    /// Something is done with an image.
    Image {
        /// The path of the image's file.
        image: Text,
        /// What is done with it.
        work: ImageWork,
    },
    /// An image of uncompressed contents is made of one whose contents may be compressed.
    Decompress(DecompressTask),
    /// Modules are made, and an image of them.
    Gen(GenTask),
    /// It is told what the class of a module says.
    Describe {
        /// The path of the class's file.
        file: Text,
        /// The release of Java SE up to which it is read, from 21 to 25.
        release: u32,
    },
    /// The help is put.
    Help,
    /// The version is put.
    Version,
}

/// What a `link` is to do.
#[derive(Debug, Drop)]
pub struct LinkTask {
    /// The directories of the module path, an earlier one before later ones; none where the words
    /// have no module path.
    pub directories: List<Text>,
    /// The path of the image whose modules are linked too.
    pub image: Option<Text>,
    /// The names of the modules that are linked with all that they require.
    pub roots: List<Text>,
    /// The path of the file that gets the image.
    pub output: Text,
    /// What is done to the resources, from the first to the last.
    pub plugins: List<Plugin>,
    /// The byte order of the image.
    pub order: Order,
    /// Whether modules that provide services which linked ones use are linked too.
    pub bind: bool,
    /// The release of Java SE up to which classes are read, from 21 to 25.
    pub release: u32,
}

/// What is done to the list of resources.
#[derive(Debug, Drop)]
pub enum Plugin {
    /// Resources whose name one of the patterns matches are left out.
    Exclude(List<Pattern>),
    /// Pattern by pattern, the resources that match it and no earlier one come first.
    Order(List<Pattern>),
    /// The resources of these names come first, in the order of the names. Words give no names:
    /// they are those of the image that is linked anew.
    KeepOrder(List<Text>),
    /// The debug attributes of classes are left out.
    Strip,
    /// The constants that nothing names are left out of classes.
    Compact,
    /// Each module's descriptor names its packages.
    Packages,
    /// The classes of java.base that name all modules of an image are left out.
    DropSystemModules,
}

/// What is done with an image.
#[derive(Debug, Drop)]
pub enum ImageWork {
    /// The content of an entry is put.
    Cat {
        /// The entry's name.
        name: Text,
    },
    /// The names of entries are put.
    List {
        /// Only those that one of the patterns matches, where there are any patterns.
        include: Option<List<Pattern>>,
        /// Whether the digest of each content is printed.
        digests: bool,
    },
    /// The names in a folder of the image's trees are put.
    Ls {
        /// The folder's path.
        path: Text,
    },
    /// What the header says is put.
    Info,
    /// A file is made of each entry.
    Extract {
        /// The path of the folder that the files come into.
        dir: Text,
        /// Only of those that one of the patterns matches, where there are any patterns.
        include: Option<List<Pattern>>,
    },
    /// It is reported that the image has no damage.
    Verify {
        /// Whether the contents of nodes are judged too.
        nodes: bool,
    },
    /// The lines of the source are answered.
    Serve,
}

/// What a `decompress` is to do.
#[derive(Debug, Drop)]
pub struct DecompressTask {
    /// The path of the file of the image that is read.
    pub image: Text,
    /// The path of the file that gets the image.
    pub output: Text,
}

/// What a `gen` is to do.
#[derive(Debug, Drop)]
pub struct GenTask {
    /// The path of the folder that the modules and their image come into.
    pub dir: Text,
    /// How many modules are made, from 1 to 256.
    pub modules: u32,
    /// How many classes each of them gets, from 1 to 1,024.
    pub classes: u32,
    /// What the draws begin with.
    pub seed: u64,
}
