//! What all texts have in common: lines, words, numbers and bodies as they are read, and services, bodies and the lines of a
//! log as they are printed.
#![tactic(auto)]

mod body;
mod kind;
mod line;
mod log;
mod number;
mod word;

pub use body::{print_hex, read_body};
pub use kind::LineKind;
pub use line::{cut_word, next_line, read_line_words};
pub use log::{print_body, print_log_head, print_log_line, service_word};
pub use number::{number_before, numbers_are_as_printed, read_number};
use pipe_base::List;
pub use word::{is_skipped, read_words, words_of};

/// A text, as its bytes.
pub type Text = List<u8>;
