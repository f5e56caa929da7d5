//! A second reading of a plant's file, which shares no code with the first: its rows, and what they come to in numbers.

use crate::split::{Fields, fields_of};
use std::alloc::{AllocError, Global};

/// What a file is found to be: a plant by its numbers and the bytes that don't count, or none by its row at fault.
#[derive(Clone, Copy, PartialEq, Eq)]
pub enum Verdict {
    Plant(Numbers, usize),
    Fault(usize),
}

/// What stands, in numbers.
#[derive(Clone, Copy, PartialEq, Eq)]
pub struct Numbers {
    pub townships: usize,
    pub parties: usize,
    pub transactions: usize,
    pub posts: usize,
}

// What the rows so far have said; the examiner that is inside, with how many posts.
struct Book {
    alloc: Global,
    townships: Vec<Vec<u8>>,
    parties: Vec<Vec<u8>>,
    transactions: usize,
    posts: usize,
    inside: Option<Vec<u8>>,
}

// By hand, so that whoever lets one go sees one call.
impl Drop for Book {
    fn drop(self) {
        let Book {
            alloc: _,
            townships,
            parties,
            transactions: _,
            posts: _,
            inside,
        } = self;
        drop(townships);
        drop(parties);
        drop(inside);
    }
}

// Where in the file a row stands.
#[derive(Clone, Copy, PartialEq, Eq)]
enum State {
    Head,
    Gate,
    Block,
}

// What a row does.
#[derive(Clone, Copy, PartialEq, Eq)]
enum Taken {
    GoesOn,
    Ends,
    Refused,
}

fn has(names: &[Vec<u8>], name: &[u8]) -> bool {
    names.iter().any(|other| other.as_slice() == name)
}

// Declares a name, where it isn't declared.
fn declare(alloc: Global, names: &mut Vec<Vec<u8>>, name: &[u8]) -> Result<Taken, AllocError> {
    if has(names.as_slice(), name) {
        return Ok(Taken::Refused);
    }
    names.push(Vec::from_slice(alloc, name)?)?;
    Ok(Taken::GoesOn)
}

impl Book {
    fn new(alloc: Global) -> Result<Book, AllocError> {
        let mut parties = Vec::new(alloc);
        parties.push(Vec::from_slice(alloc, b"UNITED STATES")?)?;
        Ok(Book {
            alloc,
            townships: Vec::new(alloc),
            parties,
            transactions: 0,
            posts: 0,
            inside: None,
        })
    }

    fn numbers(&self) -> Numbers {
        Numbers {
            townships: self.townships.len(),
            parties: self.parties.len(),
            transactions: self.transactions,
            posts: self.posts,
        }
    }

    fn is_inside(&self, examiner: &[u8]) -> bool {
        match &self.inside {
            Some(other) => other.as_slice() == examiner,
            None => false,
        }
    }

    fn begin(&mut self, examiner: &[u8]) -> Result<Taken, AllocError> {
        if self.inside.is_some() {
            return Ok(Taken::Refused);
        }
        self.inside = Some(Vec::from_slice(self.alloc, examiner)?);
        Ok(Taken::GoesOn)
    }

    fn commit(&mut self, examiner: &[u8]) -> Taken {
        if !self.is_inside(examiner) {
            return Taken::Refused;
        }
        self.inside = None;
        self.transactions = self.transactions.saturating_add(1);
        Taken::GoesOn
    }

    fn post(&mut self, fields: &Fields) -> Taken {
        let parties = self.parties.as_slice();
        let are_known = has(parties, fields.get(3)) && has(parties, fields.get(4));
        if !are_known {
            return Taken::Refused;
        }
        if self.inside.is_none() {
            self.transactions = self.transactions.saturating_add(1);
        } else if !self.is_inside(fields.get(0)) {
            return Taken::Refused;
        }
        self.posts = self.posts.saturating_add(1);
        Taken::GoesOn
    }

    // What a name declares, between transactions.
    fn declaration(&mut self, is_party: bool, name: &[u8]) -> Result<Taken, AllocError> {
        if self.inside.is_some() {
            return Ok(Taken::Refused);
        }
        let alloc = self.alloc;
        if is_party {
            declare(alloc, &mut self.parties, name)
        } else {
            declare(alloc, &mut self.townships, name)
        }
    }

    // A row of two fields.
    fn two(&mut self, first: &[u8], second: &[u8]) -> Result<Taken, AllocError> {
        if first == b"township".as_slice() {
            self.declaration(false, second)
        } else if first == b"party".as_slice() {
            self.declaration(true, second)
        } else if second == b"begin".as_slice() {
            self.begin(first)
        } else if second == b"commit".as_slice() {
            Ok(self.commit(first))
        } else {
            Ok(Taken::Refused)
        }
    }

    fn end(&self, line: &[u8]) -> Result<Taken, AllocError> {
        let wanted = format!(in self.alloc; "end,{}", self.transactions)?;
        let is_end = self.inside.is_none() && line == wanted.as_bytes();
        Ok(if is_end { Taken::Ends } else { Taken::Refused })
    }

    fn take(&mut self, fields: &Fields) -> Result<Taken, AllocError> {
        match (fields.count(), fields.get(1)) {
            (2, second) => self.two(fields.get(0), second),
            (7, b"release") => Ok(self.post(fields)),
            (9, b"deed" | b"warranty") => Ok(self.post(fields)),
            _ => Ok(Taken::Refused),
        }
    }

    fn row(&mut self, line: &[u8]) -> Result<Taken, AllocError> {
        if line.starts_with(b"end,") {
            return self.end(line);
        }
        let fields = fields_of(self.alloc, line)?;
        self.take(&fields)
    }
}

const HEAD: &[u8] = b"titleplant plant 1";

// How many bytes of a tail don't count: none where it is a closed gate alone.
fn tail_len(tail: &[u8]) -> usize {
    if tail == b"-".as_slice() {
        0
    } else {
        tail.len()
    }
}

// What a file is found to be, whose rows go into a book.
fn read_into(book: &mut Book, file: &[u8]) -> Result<Verdict, AllocError> {
    let (mut state, mut row, mut at) = (State::Head, 0usize, 0usize);
    for line in file.split(|byte| *byte == b'\n') {
        row = row.saturating_add(1);
        let next = at.saturating_add(line.len()).saturating_add(1);
        let is_whole = next <= file.len();
        match state {
            State::Head if is_whole && line == HEAD => state = State::Gate,
            State::Head => return Ok(Verdict::Fault(row)),
            State::Gate => {
                let tail = file.get(at..).unwrap_or(b"");
                if !tail.starts_with(b"+") || tail.len() == 1 {
                    return Ok(Verdict::Plant(book.numbers(), tail_len(tail)));
                }
                if !is_whole || line != b"+".as_slice() {
                    return Ok(Verdict::Fault(row));
                }
                state = State::Block;
            }
            State::Block if !is_whole => return Ok(Verdict::Fault(row)),
            State::Block => match book.row(line)? {
                Taken::GoesOn => {}
                Taken::Ends => state = State::Gate,
                Taken::Refused => return Ok(Verdict::Fault(row)),
            },
        }
        at = next;
    }
    Ok(Verdict::Fault(row))
}

/// What a file is found to be.
pub fn read(alloc: Global, file: &[u8]) -> Result<Verdict, AllocError> {
    let mut book = Book::new(alloc)?;
    read_into(&mut book, file)
}

impl Numbers {
    /// The rows that tell these numbers, and so many bytes of a tail.
    pub fn rows(self, alloc: Global, tail: usize) -> Result<String, AllocError> {
        let (townships, parties) = (self.townships, self.parties);
        let (transactions, posts) = (self.transactions, self.posts);
        format!(in alloc;
            "townships,{townships}\nparties,{parties}\ntransactions,{transactions}\nposts,{posts}\ntail,{tail}\n"
        )
    }
}
