use jm_bytes::Text;
use jm_modinfo::DescriptorFault;
use jm_names::NameFault;

/// Why an image shows no modules. Each name is that of the entry `/module/module-info.class`.
#[derive(Debug, Drop)]
pub enum RelinkFault {
    /// The entry is no class, or no class of a module.
    BadInfo { name: Text, fault: DescriptorFault },
    /// The entry describes a module of another name.
    Foreign(Text),
}

/// Why the files of modules are no resources: the resource of this name may not stand in an image.
#[derive(Debug, Drop)]
pub struct GatherFault {
    /// The name.
    pub name: Text,
    /// What is wrong with it.
    pub fault: NameFault,
}
