//! What is to be done.

use anyhow::Result;
use std::env;

/// How many viewers ask, how many records stand before they do, how many are committed meanwhile, and for how many sheets
/// each viewer asks.
#[derive(Clone, Copy)]
pub struct Job {
    pub viewers: u32,
    pub records: u32,
    pub sales: u32,
    pub sheets: u32,
}

impl Job {
    fn set(&mut self, index: usize, number: u32) {
        match index {
            0 => self.viewers = number,
            1 => self.records = number,
            2 => self.sales = number,
            _ => self.sheets = number,
        }
    }

    // The job that these words say.
    fn said(words: &[String]) -> Job {
        let mut job = Job {
            viewers: 2,
            records: 8,
            sales: 8,
            sheets: 100,
        };
        for (index, word) in words.iter().enumerate() {
            if let Ok(number) = word.as_str().parse::<u32>() {
                job.set(index, number);
            }
        }
        job
    }

    /// The job that the words after the program's name say, in their order. A word that is no number changes nothing.
    pub fn of_words(rt: &HostRuntime) -> Result<Job> {
        let words = env::args(rt)?.skip(1).collect::<Vec<String>>(rt.alloc())?;
        Ok(Job::said(words.as_slice()))
    }
}
