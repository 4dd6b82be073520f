//! Lines of a small map's text.

use crate::texts::DEVICE_0;
use std::alloc::{AllocError, Global};

fn push_line(text: &mut String, line: &str) -> Result<(), AllocError> {
    text.push_str(line)?;
    text.push_str("\n")
}

/// Returns the text's lines from the number `first` to the number `last`.
pub(crate) fn lines_within(alloc: Global, first: usize, last: usize) -> Result<String, AllocError> {
    let mut text = String::new(alloc);
    for (index, line) in DEVICE_0.lines().enumerate() {
        if first <= index + 1 && index < last {
            push_line(&mut text, line)?;
        }
    }
    Ok(text)
}

/// Returns the text with `line` in the place of the line `number`; line 24 is one more.
pub(crate) fn with_line(alloc: Global, number: usize, line: &str) -> Result<String, AllocError> {
    let mut text = String::new(alloc);
    for (index, old) in DEVICE_0.lines().enumerate() {
        push_line(&mut text, if index + 1 == number { line } else { old })?;
    }
    if number == 24 {
        push_line(&mut text, line)?;
    }
    Ok(text)
}
