//! What is told of a run to systems that read JUnit's XML.

use crate::ended::{PlanEnded, PlanVerdict};
use crate::stop::Stop;
use jdwp_plan::PlanLine;
use std::alloc::{AllocError, Global};

/// A run as a test suite of this name in JUnit's XML: each line `expect` is a test case, named by its line and its text. One that was met has
/// nothing in it; the one that was not has a failure, with what was found; those behind the line at which the run ended are skipped. Where the
/// run ended at another line, and might not, that line is a test case with an error.
///
/// # Errors
/// `AllocError` where an allocation was refused.
pub fn junit_text(
    alloc: Global,
    name: &str,
    plan: &[PlanLine],
    ended: &PlanEnded,
) -> Result<String, AllocError> {
    let mut cases = Cases::new(alloc);
    for (index, line) in plan.iter().enumerate() {
        let number = index + 1;
        match expectation(line) {
            Some((word, text)) => cases.push_expectation(alloc, number, word, text, ended)?,
            None => cases.push_line(alloc, number, ended)?,
        }
    }
    let mut text = String::new(alloc);
    text.push_str("<?xml version=\"1.0\" encoding=\"UTF-8\"?>\n<testsuite name=\"")?;
    push_escaped(&mut text, name)?;
    text.push_str(&cases.counts(alloc)?)?;
    text.push_str(&cases.text)?;
    text.push_str("</testsuite>\n")?;
    Ok(text)
}

/// The word and the text of a line `expect`.
fn expectation(line: &PlanLine) -> Option<(&'static str, &str)> {
    match line {
        PlanLine::Expect(text) => Some(("expect ", text)),
        PlanLine::ExpectHeld(text) => Some(("expect held ", text)),
        PlanLine::ExpectFree(text) => Some(("expect free ", text)),
        _ => None,
    }
}

/// Where a line stands by the line at which a run ended.
#[derive(Clone, Copy)]
enum Place<'a> {
    Before,
    At(&'a Stop),
    Behind,
}

/// Where the line of this number stands.
fn place_of(number: usize, ended: &PlanEnded) -> Place<'_> {
    match ended {
        PlanEnded::Done => Place::Before,
        PlanEnded::At { line, stop, .. } => {
            if number < *line {
                Place::Before
            } else if number == *line {
                Place::At(stop)
            } else {
                Place::Behind
            }
        }
    }
}

/// Test cases, and how many there are.
#[derive(Drop)]
struct Cases {
    text: String,
    tests: u64,
    failures: u64,
    errors: u64,
    skipped: u64,
}

impl Cases {
    fn new(alloc: Global) -> Cases {
        Cases {
            text: String::new(alloc),
            tests: 0,
            failures: 0,
            errors: 0,
            skipped: 0,
        }
    }

    /// Appends the test case of a line that expects.
    fn push_expectation(
        &mut self,
        alloc: Global,
        number: usize,
        word: &str,
        text: &str,
        ended: &PlanEnded,
    ) -> Result<(), AllocError> {
        let start = format!(in alloc; "<testcase name=\"line {number}: {word}")?;
        self.text.push_str(&start)?;
        push_escaped(&mut self.text, text)?;
        self.tests = self.tests.saturating_add(1);
        match place_of(number, ended) {
            Place::Before => self.text.push_str("\"/>\n"),
            Place::At(stop) => self.push_end(alloc, stop),
            Place::Behind => {
                self.skipped = self.skipped.saturating_add(1);
                self.text.push_str("\"><skipped/></testcase>\n")
            }
        }
    }

    /// Appends the end of the test case at which a run stopped.
    fn push_end(&mut self, alloc: Global, stop: &Stop) -> Result<(), AllocError> {
        match stop {
            Stop::Differs { found, .. } => {
                self.failures = self.failures.saturating_add(1);
                let found = String::from_utf8_lossy(alloc, found)?;
                self.text.push_str("\"><failure>found ")?;
                push_escaped(&mut self.text, &found)?;
                self.text.push_str("</failure></testcase>\n")
            }
            _ => {
                self.errors = self.errors.saturating_add(1);
                self.text
                    .push_str("\"><error>not carried out</error></testcase>\n")
            }
        }
    }

    /// Appends a test case for a line that expects nothing, where the run ended there and might not.
    fn push_line(
        &mut self,
        alloc: Global,
        number: usize,
        ended: &PlanEnded,
    ) -> Result<(), AllocError> {
        match place_of(number, ended) {
            Place::At(_) if ended.verdict() != PlanVerdict::Met => {}
            _ => return Ok(()),
        }
        self.tests = self.tests.saturating_add(1);
        self.errors = self.errors.saturating_add(1);
        let case = format!(in alloc;
            "<testcase name=\"line {number}\"><error>not carried out</error></testcase>\n"
        )?;
        self.text.push_str(&case)
    }

    /// The counts, as attributes behind the name.
    fn counts(&self, alloc: Global) -> Result<String, AllocError> {
        let tests = self.tests;
        let failures = self.failures;
        let errors = self.errors;
        let skipped = self.skipped;
        format!(in alloc;
            "\" tests=\"{tests}\" failures=\"{failures}\" errors=\"{errors}\" skipped=\"{skipped}\">\n"
        )
    }
}

/// Appends a text, with what XML has for its own signs. Controls that XML has not stand as U+FFFD.
fn push_escaped(xml: &mut String, text: &str) -> Result<(), AllocError> {
    for character in text.chars() {
        match character {
            '&' => xml.push_str("&amp;")?,
            '<' => xml.push_str("&lt;")?,
            '>' => xml.push_str("&gt;")?,
            '"' => xml.push_str("&quot;")?,
            '\n' => xml.push_str("&#10;")?,
            '\t' => xml.push_str("&#9;")?,
            other if other < ' ' => xml.push('\u{fffd}')?,
            other => xml.push(other)?,
        }
    }
    Ok(())
}
