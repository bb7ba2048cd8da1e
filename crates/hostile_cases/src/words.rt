//! Parts of a line.
use std::alloc::{AllocError, Global};

/// The part before a bar, and what is behind it.
pub fn cut(line: &str) -> Option<(&str, &str)> {
    line.split_once(" | ")
}

pub fn number(word: &str) -> Option<u64> {
    word.parse::<u64>().ok()
}

/// The words of a call, parted by spaces.
pub fn words_of(alloc: Global, line: &str) -> Result<Vec<String>, AllocError> {
    let mut words = Vec::new(alloc);
    for word in line.split(" ") {
        words.push(String::from_str(alloc, word)?)?;
    }
    Ok(words)
}
