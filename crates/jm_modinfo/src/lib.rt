//! Module descriptors (JVMS 4.7.25), as data: read from a class, and written as one.
#![tactic(auto)]

mod attributes;
mod class_texts;
mod constants;
mod describing;
mod descriptor;
mod faults;
mod fields;
mod shared_text;
mod writing;

pub use describing::{describe, describe_bytes};
pub use descriptor::{Descriptor, Need, Opened, Provides};
pub use faults::{DescriptorFault, InfoFault};
pub use shared_text::SharedText;
pub use writing::write_info;
