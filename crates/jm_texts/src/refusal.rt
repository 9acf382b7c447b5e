use jm_bytes::Text;
use jm_class::ClassFault;
use jm_modinfo::DescriptorFault;
use jm_names::NameFault;
use jm_packed::PackedFault;

/// Why a command refuses its input (status 3). Names are as they stand in the image, paths of files
/// as they are.
#[derive(Debug, Drop)]
pub enum Refusal {
    /// The file at this path is no class, or no class of a module.
    BadInfo {
        path: Text,
        fault: DescriptorFault,
    },
    /// The entry of this name of an image is no class, or no class of a module.
    BadEntry {
        name: Text,
        fault: DescriptorFault,
    },
    /// The entry of this name of an image describes a module of another name.
    Foreign(Text),
    /// Two folders of this directory have a module of this name.
    TwoModules {
        dir: Text,
        name: Text,
    },
    /// A module has this name, `modules` or `packages`, which the trees have for themselves.
    ReservedModule(Text),
    /// No module of this name is found, and it is a root.
    NoRoot(Text),
    /// No module of this name is found, and the module `by` requires it without `static`.
    Missing {
        name: Text,
        by: Text,
    },
    /// This module reaches itself by one or more requires without `static`.
    Cycle(Text),
    /// Two modules have classes in this package.
    SplitPackage {
        package: Text,
        first: Text,
        second: Text,
    },
    /// This resource may not stand in an image.
    BadName {
        name: Text,
        fault: NameFault,
    },
    /// The bytes of this resource, which has the name of a class and is to be made anew, are no
    /// class.
    BadClass {
        name: Text,
        fault: ClassFault,
    },
    /// This resource has the name of another one's folder.
    Clash(Text),
    /// The image would have that many entries.
    TooMany(u64),
    /// No table of that many lengths takes all names.
    NoTable(u32),
    /// The image would have that many bytes; 0 where its strings alone are too many.
    TooLarge(u64),
    /// The content of this resource of a compressed image can't be had.
    Packed {
        name: Text,
        fault: PackedFault,
    },
}
