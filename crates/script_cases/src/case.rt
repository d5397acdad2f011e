use crate::fault::Fault;
use crate::spelling::spelled;
use std::alloc::{AllocError, Global};

/// The keys of a case's texts, which may stand on many lines.
const TEXTS: [&str; 4] = ["<", "<.", ">", ">."];

/// The keys of its other lines.
const KEYS: [&str; 17] = [
    "words",
    "no-words",
    "host",
    "attach-fails",
    "disk-fails",
    "source-fails",
    "piece",
    "sink-fails",
    "sink-room",
    "status",
    "ran",
    "image",
    "faulty",
    "lanes",
    "journal",
    "without",
    "front",
];

/// A line of a case: its key and the text behind it.
#[derive(Drop)]
struct Line {
    key: String,
    text: String,
}

/// A case, line by line.
#[derive(Drop)]
pub struct Case {
    lines: Vec<Line>,
}

impl Case {
    /// The case of this text, whose values stand in it.
    pub fn read(alloc: Global, text: &str) -> Result<Case, Fault> {
        let mut case = Case {
            lines: Vec::new(alloc),
        };
        case.take_lines(alloc, text)?;
        Ok(case)
    }

    /// Takes up the lines of this text.
    fn take_lines(&mut self, alloc: Global, text: &str) -> Result<(), Fault> {
        for line in text.lines() {
            let (key, text) = line.split_once(' ').unwrap_or((line, ""));
            match key {
                "" | "#" | "each" | "count" => {}
                _ => self.take(alloc, key, text)?,
            }
        }
        if !self.has("status") {
            return Err(Fault::Wrong("no status"));
        }
        Ok(())
    }

    /// Takes up a line.
    fn take(&mut self, alloc: Global, key: &str, text: &str) -> Result<(), Fault> {
        let is_text = TEXTS.contains(&key);
        if !is_text && !KEYS.contains(&key) {
            return Err(Fault::Wrong("a key that is none"));
        }
        if !is_text && self.has(key) {
            return Err(Fault::Wrong("a key twice"));
        }
        let line = Line {
            key: String::from_str(alloc, key)?,
            text: spelled(alloc, text)?,
        };
        self.lines.push(line)?;
        Ok(())
    }

    /// The text behind a key.
    pub fn get(&self, key: &str) -> Option<&str> {
        for line in &self.lines {
            if line.key.as_str() == key {
                return Some(line.text.as_str());
            }
        }
        None
    }

    /// Whether a line has this key.
    pub fn has(&self, key: &str) -> bool {
        self.get(key).is_some()
    }

    /// The texts of all lines with a key, each with a line feed, and of those with the other key, as they stand.
    pub fn text(&self, alloc: Global, lines: &str, pieces: &str) -> Result<String, AllocError> {
        let mut text = String::new(alloc);
        for line in &self.lines {
            if line.key.as_str() == lines {
                text.push_str(line.text.as_str())?;
                text.push('\n')?;
            }
            if line.key.as_str() == pieces {
                text.push_str(line.text.as_str())?;
            }
        }
        Ok(text)
    }

    /// The number behind a key, or this one.
    pub fn number(&self, key: &str, default: usize) -> Result<usize, Fault> {
        match self.get(key) {
            Some(text) => Ok(text.parse()?),
            None => Ok(default),
        }
    }

    /// The numbers behind a key.
    pub fn numbers(&self, alloc: Global, key: &str) -> Result<Vec<u64>, Fault> {
        let mut numbers = Vec::new(alloc);
        if let Some(text) = self.get(key) {
            for number in text.split(',') {
                numbers.push(number.parse()?)?;
            }
        }
        Ok(numbers)
    }

    /// The words of the command.
    pub fn words(&self, alloc: Global) -> Result<Vec<String>, Fault> {
        if self.has("no-words") {
            return Ok(Vec::new(alloc));
        }
        match self.get("words") {
            Some(text) => words_of(alloc, text),
            None => Err(Fault::Wrong("no words")),
        }
    }
}

fn words_of(alloc: Global, text: &str) -> Result<Vec<String>, Fault> {
    let mut words = Vec::new(alloc);
    for word in text.split(',') {
        words.push(String::from_str(alloc, word)?)?;
    }
    Ok(words)
}
