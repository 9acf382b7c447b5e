use jm_bytes::Text;
use jm_modinfo::DescriptorFault;

/// Why a module path shows no modules.
#[derive(Debug, Drop)]
pub enum PathRefusal {
    /// The file at this path is no class, or no class of a module.
    BadInfo { path: Text, fault: DescriptorFault },
    /// Two folders of this directory have a module of this name.
    TwoModules { dir: Text, name: Text },
}

/// Why no modules were found.
#[derive(Debug, Drop)]
pub enum PathStop {
    /// The module path is refused.
    Refused(PathRefusal),
    /// The file at this path was listed and isn't there.
    NotThere(Text),
    /// A call of the shelf failed.
    Outside,
    /// No memory was found.
    Memory,
}
