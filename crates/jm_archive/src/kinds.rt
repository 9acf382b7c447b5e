//! What an archive is.
ghost use Rattle.std.specs.Prelude.{◌≡◌};
ghost use Rattle.jm_archive.specs.Cuts.{IsSmall, release_of};

/// What an archive is, by which the names of its entries are paths of files.
#[derive(Clone, Copy, Debug, PartialEq, Eq)]
pub enum ArchiveKind {
    /// A jmod: its files stand below `classes/`.
    Jmod,
    /// A JAR that isn't multi-release.
    Jar,
    /// A multi-release JAR, as it is read for a release of Java, of 9 or later.
    MultiRelease(u32),
}

impl ArchiveKind {
    /// The release for which the archive is read, where it goes by one.
    pub fn release(self) -> Option<u32>
        ensures release { result ≡ release_of self }
        ensures small { IsSmall self }
    {
        match self {
            ArchiveKind::Jmod | ArchiveKind::Jar => None,
            ArchiveKind::MultiRelease(release) => Some(release),
        }
    }
}
