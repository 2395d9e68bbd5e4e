//! What is said of a call of the host that failed.
use std::alloc::{AllocError, Global};
use std::io;

/// The host's word for an error, without its number.
pub fn host_word(alloc: Global, error: &io::Error) -> Result<String, AllocError> {
    let text = error.to_string(alloc)?;
    match text.as_str().split_once(" (os error ") {
        Some((word, _)) => String::from_str(alloc, word),
        None => Ok(text),
    }
}

// A line, though without its end, for a call on a path: control characters stand as `?`.
pub(crate) fn describe(
    alloc: Global,
    call: &str,
    path: &str,
    error: &io::Error,
) -> Result<String, AllocError> {
    let mut line = String::from_str(alloc, call)?;
    line.push(' ')?;
    for letter in path.chars() {
        line.push(if letter.is_control() { '?' } else { letter })?;
    }
    line.push_str(": ")?;
    line.push_str(host_word(alloc, error)?.as_str())?;
    Ok(line)
}
