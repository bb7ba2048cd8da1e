//! Scripts that have a name.
use crate::bench::By;
use crate::departure::Departure;
use crate::words::{cut, number};
use std::alloc::Global;

/// A line that says nothing.
pub fn is_remark(line: &str) -> bool {
    line.is_empty() || line.starts_with("#")
}

/// A line that names no script, and makes no store and fills none.
pub fn is_case(line: &str) -> bool {
    !line.starts_with("script ") && !line.starts_with("store ") && !line.starts_with("fill ")
}

/// Scripts by their names.
#[derive(Drop)]
pub struct Scripts {
    alloc: Global,
    named: Vec<(String, String)>,
}

// A word that stands so many times, as `x*435` says it.
fn push_times(text: &mut String, times: &str) -> Result<(), Departure> {
    let Some((word, count)) = times.split_once("*") else {
        return Err(Departure::NotACase);
    };
    let Some(count) = number(count) else {
        return Err(Departure::NotACase);
    };
    for _ in 0..count {
        text.push_str(word)?;
    }
    Ok(())
}

// A text in which `{x*435}` stands for so many letters.
fn spelled_out(alloc: Global, short: &str) -> Result<String, Departure> {
    let mut text = String::new(alloc);
    for part in short.split("}") {
        match part.split_once("{") {
            Some((before, times)) => {
                text.push_str(before)?;
                push_times(&mut text, times)?;
            }
            None => text.push_str(part)?,
        }
    }
    Ok(text)
}

/// The lines that semicolons part, each with its end. In them `{x*435}` stands for so many letters.
pub fn lines_of(alloc: Global, short: &str) -> Result<String, Departure> {
    let mut text = String::new(alloc);
    for line in spelled_out(alloc, short)?.split("; ") {
        text.push_str(line)?;
        text.push('\n')?;
    }
    Ok(text)
}

// Pushes lines, in which `#` stands for a number.
fn push_numbered(text: &mut String, lines: &str, number: &str) -> Result<(), Departure> {
    let mut parts = lines.split("#");
    text.push_str(parts.next().unwrap_or(""))?;
    for part in parts {
        text.push_str(number)?;
        text.push_str(part)?;
    }
    Ok(())
}

// The lines that semicolons part. Behind `200 * ` they stand so many times, and `#` in them is the number of the time, from 100 on.
fn counted(alloc: Global, short: &str) -> Result<String, Departure> {
    let Some((count, short)) = short.split_once(" * ") else {
        return lines_of(alloc, short);
    };
    let Some(count) = number(count) else {
        return Err(Departure::NotACase);
    };
    let lines = lines_of(alloc, short)?;
    let mut text = String::new(alloc);
    for time in 100..count.saturating_add(100) {
        push_numbered(&mut text, &lines, format!(in alloc; "{time}")?.as_str())?;
    }
    Ok(text)
}

impl Scripts {
    pub fn new(alloc: Global) -> Scripts {
        Scripts {
            alloc,
            named: Vec::new(alloc),
        }
    }

    /// Names a script, or goes on with the one of this name.
    pub fn add(&mut self, rest: &str) -> Result<(), Departure> {
        let Some((name, lines)) = cut(rest) else {
            return Err(Departure::NotACase);
        };
        let more = counted(self.alloc, lines)?;
        for (other, text) in &mut self.named {
            if other.as_str() == name {
                text.push_str(&more)?;
                return Ok(());
            }
        }
        let name = String::from_str(self.alloc, name)?;
        self.named.push((name, more))?;
        Ok(())
    }

    /// The script of a name. A dash names the one without lines.
    pub fn get(&self, name: &str) -> Result<&str, Departure> {
        if name == "-" {
            return Ok("");
        }
        for (other, text) in &self.named {
            if other.as_str() == name {
                return Ok(text.as_str());
            }
        }
        Err(Departure::NotACase)
    }

    /// The script of a name, and who does it: a session where that word stands before the name.
    pub fn asked(&self, words: &str) -> Result<(By, &str), Departure> {
        match words.strip_prefix("session ") {
            Some(name) => Ok((By::Session, self.get(name)?)),
            None => Ok((By::Run, self.get(words)?)),
        }
    }
}
