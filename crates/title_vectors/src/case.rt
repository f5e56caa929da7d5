//! Stored command lines.

use anyhow::Result;
use csv::StringRecord;
use std::alloc::{AllocError, Global};
use std::fs;
use std::rt::Files;

/// The words of a command line and its input, and what it has to print, with the status after it.
pub struct Case {
    alloc: Global,
    pub words: Vec<String>,
    pub stdin: Vec<u8>,
    pub stdout: Vec<u8>,
    pub status: u8,
}

// By hand, so that whoever lets one go sees one call.
impl Drop for Case {
    fn drop(self) {
        let Case {
            alloc: _,
            words,
            stdin,
            stdout,
            status: _,
        } = self;
        drop(words);
        drop(stdin);
        drop(stdout);
    }
}

// The bytes of a file.
fn file<R: Files + AllocGlobal>(rt: &R, name: &str, ending: &str) -> Result<Vec<u8>> {
    let path = format!(in rt.alloc(); "{name}.{ending}")?;
    Ok(fs::read(rt, path.as_str())?)
}

impl Case {
    /// No words and no input.
    pub fn new(alloc: Global) -> Case {
        Case {
            alloc,
            words: Vec::new(alloc),
            stdin: Vec::new(alloc),
            stdout: Vec::new(alloc),
            status: 0,
        }
    }

    fn add_word(&mut self, word: &str) -> Result<(), AllocError> {
        self.words.push(String::from_str(self.alloc, word)?)?;
        Ok(())
    }

    /// Adds the fields after so many as words.
    pub fn add_words(&mut self, row: &StringRecord, first: usize) -> Result<(), AllocError> {
        for word in row.iter().skip(first) {
            self.add_word(word)?;
        }
        Ok(())
    }

    // Adds a line to what has to be printed.
    fn add_line(&mut self, line: &str) -> Result<(), AllocError> {
        self.stdout.extend_from_slice(line.as_bytes())?;
        self.stdout.push(b'\n')?;
        Ok(())
    }

    // Adds the fields after so many as lines.
    fn add_lines(&mut self, row: &StringRecord, first: usize) -> Result<(), AllocError> {
        for line in row.iter().skip(first) {
            self.add_line(line)?;
        }
        Ok(())
    }

    // Adds the words that ask for the tract of a text.
    fn ask_tract(&mut self, text: &str) -> Result<(), AllocError> {
        self.add_word("tract")?;
        self.add_word("--")?;
        self.add_word(text)
    }

    /// Takes a text, the status, and the lines that `tract` prints for it.
    pub fn take_tract(&mut self, text: &str, status: &str, row: &StringRecord) -> Result<()> {
        self.status = status.parse::<u8>()?;
        self.ask_tract(text)?;
        self.add_lines(row, 2)?;
        Ok(())
    }

    /// Takes the name of an input, NAME.csv, and the words in a row after two fields.
    pub fn take_script<R: Files + AllocGlobal>(
        &mut self,
        rt: &R,
        name: &str,
        row: &StringRecord,
    ) -> Result<()> {
        self.stdin = file(rt, name, "csv")?;
        self.add_words(row, 2)?;
        Ok(())
    }

    /// Takes the name of two files, the input NAME.csv and the output NAME.report, then the status and the words.
    pub fn take_run<R: Files + AllocGlobal>(
        &mut self,
        rt: &R,
        name: &str,
        status: &str,
        row: &StringRecord,
    ) -> Result<()> {
        self.status = status.parse::<u8>()?;
        self.stdout = file(rt, name, "report")?;
        self.take_script(rt, name, row)
    }
}
