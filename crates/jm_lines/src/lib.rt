//! Lines of cases: bytes spelled as text, bytes that have a name, and the words of a line. The
//! programs that read cases and print what comes of them share these; nothing else does.
#![tactic(auto)]

mod escapes;
mod known;
mod words;

pub use escapes::{Spelling, bytes_of, put_bytes, put_digits};
pub use known::{Known, Member};
pub use words::{first_word, words_of};
