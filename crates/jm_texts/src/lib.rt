//! What commands print of their input: what the header of an image says, and why the input is
//! refused. What `describe` prints of a module's descriptor is defined here, and put piece by piece
//! above.
#![tactic(auto)]

mod headers;
mod name_refusals;
mod refusal;
mod refusal_text;

pub use headers::header_text;
pub use name_refusals::first_bad_name;
pub use refusal::Refusal;
