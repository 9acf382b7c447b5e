ghost use Rattle.std.specs.Prelude.{Some};
ghost use Rattle.jm_modinfo.specs.FaultText.{info_fault_text, descriptor_fault_text};

use jm_class::ClassFault;
use std::fmt;

/// The first thing that keeps a class from being a module's descriptor, by JVMS 4.7.25 and the
/// rules of this project. Places are in bytes from the front of the body of the Module attribute.
#[derive(Clone, Copy, Debug, PartialEq, Eq)]
pub enum InfoFault {
    /// The class isn't flagged as a module.
    NotModule,
    /// The major version is below 53.
    OldVersion(u16),
    /// The class has no attribute `Module`.
    NoModule,
    /// The class has more than one attribute `Module`.
    TwoModule,
    /// The index here is of another kind of constant, or of one that names no Utf8.
    Index(usize),
    /// The field that begins here doesn't fit in the body.
    Short(usize),
    /// Bytes follow the fields, from here on.
    Rest(usize),
    /// The index here is of a module whose name isn't legal.
    Name(usize),
    /// There is more than one attribute `ModuleMainClass`, or it doesn't name a class.
    Main,
}

/// The fault's name, and its number after a space, as `Short 14`.
impl fmt::Display for InfoFault {
    ghost output = { λ f. Some (info_fault_text f) };

    fn fmt<W: fmt::Write>(&self, f: &mut fmt::Formatter<W>) -> fmt::Result {
        match *self {
            InfoFault::NotModule => write!(f, "NotModule"),
            InfoFault::OldVersion(major) => write!(f, "OldVersion {major}"),
            InfoFault::NoModule => write!(f, "NoModule"),
            InfoFault::TwoModule => write!(f, "TwoModule"),
            InfoFault::Index(at) => write!(f, "Index {at}"),
            InfoFault::Short(at) => write!(f, "Short {at}"),
            InfoFault::Rest(at) => write!(f, "Rest {at}"),
            InfoFault::Name(at) => write!(f, "Name {at}"),
            InfoFault::Main => write!(f, "Main"),
        }
    }
}

/// Why a file gives no descriptor: it is no class, or the class is no descriptor.
#[derive(Clone, Copy, Debug, PartialEq, Eq)]
pub enum DescriptorFault {
    /// The fault of the file as a class.
    Class(ClassFault),
    /// The fault of the class as a descriptor.
    Info(InfoFault),
}

/// The fault after a word for its kind, as `Class Short 22`.
impl fmt::Display for DescriptorFault {
    ghost output = { λ f. Some (descriptor_fault_text f) };

    fn fmt<W: fmt::Write>(&self, f: &mut fmt::Formatter<W>) -> fmt::Result {
        match *self {
            DescriptorFault::Class(fault) => write!(f, "Class {fault}"),
            DescriptorFault::Info(fault) => write!(f, "Info {fault}"),
        }
    }
}
