use jm_bytes::Text;

/// Why some modules can't be linked, with the least names that show it.
#[derive(Debug, Drop)]
pub enum CloseFault {
    /// No module of this name is found, and it is a root.
    NoRoot(Text),
    /// No module of this name is found, and the module `by` requires it without `static`.
    Missing {
        name: Text,
        by: Text,
    },
    /// This module reaches itself by one or more requires without `static`.
    Cycle(Text),
    /// Two modules have classes in this package.
    SplitPackage {
        package: Text,
        first: Text,
        second: Text,
    },
}
