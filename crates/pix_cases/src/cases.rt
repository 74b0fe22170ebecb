//! The lines of a file of cases.
//!
//! A line `class: words -> answer` is a case. The words are separated by spaces, and the class
//! makes the answer from them. A line `== TEXT` is the heading of those below it, and a line that
//! starts with `#` is a comment.
use crate::classes::answer;
use crate::flaw::Flaw;
use std::alloc::Global;
use std::io;

/// How many cases were read, and how many of them have another answer or can't be read.
#[derive(Drop)]
pub(crate) struct Tally {
    pub cases: u32,
    pub wrong: u32,
}

impl Tally {
    /// The tally before the first case.
    pub(crate) fn new() -> Tally {
        Tally { cases: 0, wrong: 0 }
    }

    /// Adds the numbers of another tally.
    pub(crate) fn add(&mut self, other: Tally) {
        self.cases = self.cases.saturating_add(other.cases);
        self.wrong = self.wrong.saturating_add(other.wrong);
    }
}

/// Runs the cases of a file, and prints those that fail.
pub(crate) fn run(rt: &HostRuntime, file: &str, text: &str) -> io::Result<Tally> {
    let mut tally = Tally::new();
    let mut heading = "";
    let mut number = 0_u32;
    for line in text.lines() {
        number = number.saturating_add(1);
        let line = line.trim();
        if line.is_empty() || line.starts_with('#') {
            continue;
        }
        if let Some(name) = line.strip_prefix("== ") {
            heading = name;
            continue;
        }
        let outcome = outcome(rt.alloc(), line);
        let wrong = u32::from(!matches!(outcome, Ok(None)));
        tally.add(Tally { cases: 1, wrong });
        match outcome {
            Ok(None) => {}
            Ok(Some(made)) => {
                println!(rt; "{file}:{number}: {heading}: {line}: made {made}")?;
            }
            Err(flaw) => println!(rt; "{file}:{number}: {heading}: {line}: {flaw}")?,
        }
    }
    Ok(tally)
}

/// Returns what the words of a case make, where it isn't the answer that the line has.
fn outcome(alloc: Global, line: &str) -> Result<Option<String>, Flaw> {
    let (class, rest) = line.split_once(": ").ok_or(Flaw::Line)?;
    let (words, wanted) = rest.split_once("->").ok_or(Flaw::Line)?;
    let words: Vec<&str> = words.split_whitespace().collect(alloc)?;
    let made = answer(class, &words, alloc)?;
    if made.as_str() == wanted.trim() {
        Ok(None)
    } else {
        Ok(Some(made))
    }
}
