// The words that the vertices of a checked plan read, kept as numbers beside a block, and the marks of vertices with news. No service stands here.
#![tactic(auto)]

mod news;
mod pattern;
mod words;

pub use news::{KEPT, news_of};

// Lent to the crates above: these ask what their callers prove.
pub use news::{clear_marks, numbers_of};
pub use pattern::{put_pattern, put_told};
pub use words::{left_word, read_words};
