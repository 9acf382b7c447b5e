/// A place in the text of a class where the number of a constant stands.
#[derive(Clone, Copy, Debug, PartialEq, Eq)]
pub struct Site {
    /// Its first byte.
    pub place: u64,
    /// Whether it has two bytes; else it has one.
    pub wide: bool,
}

/// A site as it is met: with the number that stands there.
#[derive(Clone, Copy)]
pub struct FoundSite {
    pub place: u64,
    pub wide: bool,
    /// Whether 0 may stand there, which means none.
    pub optional: bool,
    pub number: u16,
}
