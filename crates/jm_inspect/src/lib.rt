//! The commands that inspect an image, or the class of a module, and what all commands have in
//! common: how a step of a run ends, and what it puts.
#![tactic(auto)]

mod blanks;
mod cat;
mod cat_file;
mod complaint;
mod describe;
mod described;
mod digests;
mod extract;
mod front;
mod info;
mod listing;
mod ls;
mod nodes;
mod output;
mod pieces;
mod serve;
mod sought;
mod status;
mod stop;
mod stored;
mod work;

pub use cat::cat_command;
pub use complaint::Complaint;
pub use describe::describe_command;
pub use front::{FileFront, OpenFront};
pub use output::{put_output, put_text};
pub use status::Status;
pub use stop::Stop;
pub use stored::OpenStored;
pub use work::do_work;
