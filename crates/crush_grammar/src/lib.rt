//! The form of map texts: their words, their grammar, what they declare, and their first fault of
//! form, by code and line.
//!
//! Source: Ceph's CRUSH map manual, which shows the text that `crushtool -d` writes.
#![tactic(auto)]

mod bucket;
mod code;
mod cursor;
mod declaration;
mod early;
mod error;
mod law;
mod lex;
mod line;
mod mark;
mod name;
mod number;
mod read;
mod rule;
mod say;
mod word;
mod word_name;

pub use code::{TextCode, TextFault};
pub use cursor::Cursor;
pub use declaration::{
    BucketHead, Declaration, DeclaredBucket, DeclaredDevice, DeclaredItem, DeclaredRule,
    DeclaredStep, DeclaredTunable, DeclaredType, Place, Setting, TunableName,
};
pub use law::{
    words_are_read_as_they_say, words_are_whole_or_break, words_break_once, words_declare_once,
};
pub use line::last_line;
pub use name::code_text;
pub use number::{integer_from_text, number_from_text};
pub use read::{Declarations, read_declarations};
pub use word::Word;
pub use word_name::Name;
