//! The look-up in an image, and the walk over its entries.
#![tactic(auto)]

mod compare;
mod contents;
mod entries;
mod listing;
mod look_up;
mod marks;
mod name_bytes;
mod name_view;
mod order;
mod stored;
mod table;
mod texts;

pub use contents::{content, place_of_content};
pub use entries::{Entries, Entry, held, walk};
pub use listing::{Listed, Listing, list};
pub use look_up::{Found, find, find_row, find_row_in};
pub use name_bytes::NameBytes;
pub use name_view::NameView;
pub use stored::{StoredListing, list_stored, place_of_stored};
pub use texts::place_of;
