//! The check of an image: its first damage, or the image as a value that is known to be valid. By
//! its index it is checked as stored, too, where contents may be compressed.
#![tactic(auto)]

mod entries;
mod image;
mod index;
mod open;
mod open_error;
mod overlap;
mod passages;
mod row_names;
mod sections;
mod slots;
mod stored;

pub use image::Image;
pub use index::Index;
pub use jm_form::Damage;
pub use open::{open_alone, open_image, open_index};
pub use open_error::OpenError;
pub use sections::ended_texts;
pub use stored::StoredIndex;
