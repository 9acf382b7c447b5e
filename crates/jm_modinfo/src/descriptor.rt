ghost use Rattle.std.specs.Prelude.{◌≡◌};
ghost use Rattle.jm_modinfo.specs.Flags.{is_static};

use crate::shared_text::SharedText;
use jm_bytes::List;

/// What a module's descriptor says. Names are the texts that its constants hold, in Modified UTF-8;
/// fields that name one constant share its text.
#[derive(Debug, Drop)]
pub struct Descriptor {
    /// The module's name.
    pub name: SharedText,
    /// Its version, if it has one.
    pub version: Option<SharedText>,
    /// Its flags: 0x0020 for an open module.
    pub flags: u16,
    /// The modules that it requires, in the order in which they stand.
    pub needs: List<Need>,
    /// The packages that it exports.
    pub exports: List<Opened>,
    /// The packages that it opens.
    pub opens: List<Opened>,
    /// The services that it uses.
    pub uses: List<SharedText>,
    /// The services that it provides.
    pub provides: List<Provides>,
    /// Its main class, if it has one.
    pub main: Option<SharedText>,
}

/// A module that another one requires.
#[derive(Debug, Drop)]
pub struct Need {
    /// The name of the module that is required.
    pub name: SharedText,
    /// 0x0020 transitive, 0x0040 static, 0x1000 synthetic, 0x8000 mandated.
    pub flags: u16,
    /// The version that it was compiled with, if that is known.
    pub version: Option<SharedText>,
}

impl Need {
    /// The module is required where it is there, and may be missing (`requires static`).
    pub fn is_static(&self) -> bool
        ensures { result ≡ is_static self.now.flags }
    {
        self.flags & 0x0040 != 0
    }
}

/// A package that a module exports or opens.
#[derive(Debug, Drop)]
pub struct Opened {
    /// The package, with slashes between its parts.
    pub package: SharedText,
    /// 0x1000 synthetic, 0x8000 mandated.
    pub flags: u16,
    /// The modules to which alone it is exported or opened; none for all.
    pub to: List<SharedText>,
}

/// A service that a module provides.
#[derive(Debug, Drop)]
pub struct Provides {
    /// The service, the name of a class with slashes between its parts.
    pub service: SharedText,
    /// The classes that provide it.
    pub classes: List<SharedText>,
}
