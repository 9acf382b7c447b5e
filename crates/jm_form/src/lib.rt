//! The container of an image: its header, where its parts stand, its location rows, its table, and
//! what damage it can have.
#![tactic(auto)]

mod container;
mod damage;
mod module_files;
mod ranges;
mod rows;
mod slots;
mod sorting;
mod spelling;
mod table;
mod texts;
mod trees;

pub use container::{Header, HeaderFault, read_header, read_header_of};
pub use damage::Damage;
pub use module_files::{class_folder, path_of};
pub use ranges::Range;
pub use rows::{Compression, Row, read_row};
pub use slots::{SlotRow, row_at_place, row_of_slot};
pub use sorting::rising;
pub use spelling::write_row;
pub use table::{HashedName, Redirect, is_led_to, redirect_at, redirect_of};
pub use texts::{front, pieces_of, text};
pub use trees::{Holds, Owner, TreeNode};
