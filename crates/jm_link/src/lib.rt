//! What `link` reads and writes: the closure of the modules of an image and of a module path, the
//! resources of those that are linked, and the image of them.
#![tactic(auto)]

mod closing;
mod finding;
mod image;
mod linking;
mod modules;
mod relinking;
mod stops;

pub use image::write_image;
pub use linking::{LinkStop, Summary, link};
pub use relinking::link_image;
