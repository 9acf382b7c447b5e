//! What stands at a path of the two trees of an image: folders, files and links; and sessions,
//! whose lines ask for it.
#![tactic(auto)]

mod child_list;
mod jrt_error;
mod node;
mod owners;
mod paths;
mod replies;
mod requests;
mod rows;
mod serve_error;
mod session;
mod trees;
mod words;

pub use child_list::{Child, ChildList};
pub use jrt_error::JrtError;
pub use node::Node;
pub use replies::{extend_children, extend_next_children};
pub use requests::answer;
pub use serve_error::ServeError;
pub use session::serve;
pub use trees::{children, children_in, node_fault, node_row, owner, stat};
