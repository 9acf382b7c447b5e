//! An image in a file on a shelf: its index, which is open, its entries by rising name, and where
//! in the file their contents stand.
#![tactic(auto)]

mod extent;
mod file_order;
mod filed_image;
mod reading;
mod taken_name;
mod taking;

pub use extent::Extent;
pub use file_order::{PlacedName, names_by_place, names_in_file_order};
pub use filed_image::FiledImage;
pub use reading::read_extent;
pub use taken_name::TakenName;
pub use taking::{TakenEntry, nodes, taken};
