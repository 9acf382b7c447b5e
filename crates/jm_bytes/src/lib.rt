//! Words in both byte orders, owned texts and lists, and a buffer whose bytes are counted as they
//! leave it.
#![tactic(auto)]

mod buffer;
mod counters;
mod faults;
mod lists;
mod texts;
mod words;

pub use buffer::Buf;
pub use counters::{Meter, Steps};
pub use faults::Or;
pub use lists::List;
pub use texts::{NoMemory, Text, copy_of, extend, is_before};
pub use words::{Order, put_word, word_at};
