//! Reading letters by the grammar, one method for each of its lines.

ghost use Rattle.std.specs.{Option.{option_map}, Str.{chars}};
ghost use Rattle.std.specs.Prelude.{◌≡◌, ℕ, ◌+◌, ◌-◌, ◌<◌, ◌≤◌, ◌==◌, List, [], ◌∷◌, ◌++◌, true, false, length, codes, IfOk};
ghost use Rattle.title_aliquot.specs.{Grammar.{digits, InTownship}, Letters.{letters, letters_from}, Outcomes.{Reads}};
ghost use Rattle.title_aliquot.specs.Readers.{number_at, quarter_mark_at, half_mark_at, behind_at, step_at, joined_at, part_at, with_part};
ghost use Rattle.title_aliquot.specs.Readers.{next_part_at, parts_at, township_at, range_at, section_number_at, section_parts_at};
ghost use Rattle.title_aliquot.specs.{Readers.{section_at, land_at, description_at}, Views.{section_view, land_view, words_view}};
ghost use Rattle.title_aliquot.specs.declared.reader.Stop.TheVariants.{Memory};
ghost use Rattle.title_grammar.specs.{Language.{member}, Reading.{starts, one_of_at, word_at, as_at, choice}};
ghost use Rattle.title_land.specs.declared.rectangle.Step.TheVariants as step;

use crate::letters::{count_letters, split_letter};
use crate::syntax::{LandWords, Parts, SectionWords, Words};
use std::alloc::{AllocError, AllocFailed, Global};
use std::marker::Model;
use title_land::{Half, Quarter, Step};

/// Why reading stopped.
#[derive(Clone, Copy, Debug, PartialEq, Eq, Drop)]
pub enum Stop {
    /// No text of the grammar goes on so.
    Stuck,
    Memory,
}

/// The letters that are left of a text, or of two. Where reading gets stuck, these begin with the letter at fault.
#[derive(Drop)]
pub struct Reader<'a> {
    /// The next letter, and the text behind its character.
    next: Option<(char, &'a str)>,
    /// The text whose letters come after those.
    more: &'a str,
}

impl<'a> Model for Reader<'a> {
    ghost Value = { List ℕ };

    ghost view = { λ r. letters_from r.next r.more.now };
}

/// Whether a set of ASCII characters has this one.
fn is_one_of(c: char, set: &str) -> bool
    ensures member { result ≡ member c set.now }
{
    set.as_bytes().iter().any(|b| c == *b as char)
}

impl<'a> Reader<'a> {
    /// A reader of this text's letters.
    pub fn new(text: &'a str) -> Reader<'a>
        ensures new { result ≡ letters (chars text.now) }
    {
        Reader::of_both(text, "")
    }

    /// A reader of this text's letters and then of another's.
    // (Put inline at each call: a call for each letter cost a tenth of reading a description.)
    #[inline(always)]
    pub fn of_both(text: &'a str, more: &'a str) -> Reader<'a>
        ensures both { result ≡ letters (chars text.now) ++ letters (chars more.now) }
    {
        match split_letter(text) {
            Some(next) => Reader {
                next: Some(next),
                more,
            },
            None => Reader {
                next: split_letter(more),
                more: "",
            },
        }
    }

    /// Whether one of these characters comes next.
    // (Put inline at each call: a call for each letter cost a tenth of reading a description.)
    #[inline(always)]
    fn starts(&self, set: &str) -> bool
        ensures starts { result ≡ starts set.now self.now }
    {
        match self.next {
            Some((letter, _)) => is_one_of(letter, set),
            None => false,
        }
    }

    /// Takes one letter.
    // (Put inline at each call: a call for each letter cost a tenth of reading a description.)
    #[inline(always)]
    fn letter(&mut self, letter: char) -> Result<(), Stop>
        ensures read { Reads (λ u. tt) result self.new (word_at (letter ∷ []) self.old) }
    {
        match self.next {
            Some((next, rest)) if next == letter => {
                *self = Reader::of_both(rest, self.more);
                Ok(())
            }
            _ => Err(Stop::Stuck),
        }
    }

    /// Takes the letters of an ASCII word.
    // (Put inline at each call: a call for each letter cost a tenth of reading a description.)
    #[inline(always)]
    pub fn word(&mut self, word: &str) -> Result<(), Stop>
        ensures read { Reads (λ u. tt) result self.new (word_at word.now self.old) }
    {
        'bytes: for b in word.as_bytes() {
            self.letter(*b as char)?;
        }
        Ok(())
    }

    /// Takes a digit.
    fn digit(&mut self) -> Result<u8, Stop>
        ensures read { Reads (λ d. d + 48) result self.new (one_of_at digits self.old) }
        ensures below { IfOk result (λ d. d < 10) }
    {
        match self.next {
            Some((next @ '0'..='9', rest)) => {
                *self = Reader::of_both(rest, self.more);
                Ok((next as u32 - 48) as u8)
            }
            _ => Err(Stop::Stuck),
        }
    }

    /// The mark of a quarter.
    #[tactic(auto, unfolding(crate::specs::Readers::quarter_mark_at))]
    fn quarter_mark(&mut self) -> Result<(), Stop>
        ensures read { Reads (λ u. tt) result self.new (quarter_mark_at self.old) }
    {
        if self.starts("1") {
            self.word("1/4")
        } else if self.starts("/") {
            self.word("/4")
        } else {
            self.letter('¼')
        }
    }

    /// The mark of a half.
    #[tactic(auto, unfolding(crate::specs::Readers::half_mark_at))]
    fn half_mark(&mut self) -> Result<(), Stop>
        ensures read { Reads (λ u. tt) result self.new (half_mark_at self.old) }
    {
        if self.starts("1") {
            self.word("1/2")
        } else if self.starts("/") {
            self.word("/2")
        } else {
            self.letter('½')
        }
    }

    /// The mark of a quarter, whose name was taken.
    fn quarter(&mut self, which: Quarter) -> Result<Step, Stop>
        ensures read { Reads (λ s. s) result self.new (as_at (step.Quarter which) quarter_mark_at self.old) }
    {
        self.quarter_mark()?;
        Ok(Step::Quarter(which))
    }

    /// The mark of a half, whose name was taken.
    fn half(&mut self, which: Half) -> Result<Step, Stop>
        ensures read { Reads (λ s. s) result self.new (as_at (step.Half which) half_mark_at self.old) }
    {
        self.half_mark()?;
        Ok(Step::Half(which))
    }

    /// What stands behind an n or an s: the rest of a quarter, or the mark of a half.
    #[tactic(auto, unfolding(crate::specs::Readers::behind_at))]
    fn behind(&mut self, east: Quarter, west: Quarter, half: Half) -> Result<Step, Stop>
        ensures read { Reads (λ s. s) result self.new (behind_at east west half self.old) }
    {
        if self.starts("e") {
            self.word("e")?;
            self.quarter(east)
        } else if self.starts("w") {
            self.word("w")?;
            self.quarter(west)
        } else {
            self.half(half)
        }
    }

    /// A quarter or a half, with its mark.
    #[tactic(auto, unfolding(crate::specs::Readers::step_at))]
    fn step(&mut self) -> Result<Step, Stop>
        ensures read { Reads (λ s. s) result self.new (step_at self.old) }
    {
        if self.starts("n") {
            self.word("n")?;
            self.behind(Quarter::Northeast, Quarter::Northwest, Half::North)
        } else if self.starts("s") {
            self.word("s")?;
            self.behind(Quarter::Southeast, Quarter::Southwest, Half::South)
        } else if self.starts("e") {
            self.word("e")?;
            self.half(Half::East)
        } else {
            self.word("w")?;
            self.half(Half::West)
        }
    }

    /// A number; those from 100 on are all read as 100.
    #[tactic(auto, using(crate::proofs::Loops::number_loop))]
    fn number(&mut self) -> Result<u8, Stop>
        ensures read { Reads (λ n. n) result self.new (number_at self.old) }
    {
        let mut number = self.digit()? as u16;
        'digits: while self.starts("0123456789") {
            let digit = self.digit()?;
            number = (number * 10 + digit as u16).min(100);
        }
        Ok(number as u8)
    }

    /// A step, with an "of" or "of the" before it or not.
    #[tactic(auto, unfolding(crate::specs::Readers::joined_at))]
    fn joined(&mut self) -> Result<Step, Stop>
        ensures read { Reads (λ s. s) result self.new (joined_at self.old) }
    {
        if self.starts("o") {
            self.word("of")?;
            if self.starts("t") {
                self.word("the")?;
            }
        }
        self.step()
    }

    /// Steps, one after another: a part behind others.
    #[tactic(auto, using(crate::proofs::Loops::part_loop))]
    fn part(&mut self, parts: &mut Parts) -> Result<(), Stop>
        ensures read { Reads (λ u. parts.new) result self.new (with_part parts.old part_at self.old) }
    {
        parts.begin()?;
        let first = self.step()?;
        parts.push(first)?;
        'steps: while self.starts("onsew") {
            let step = self.joined()?;
            parts.push(step)?;
        }
        Ok(())
    }

    /// A comma and a part.
    fn next_part(&mut self, parts: &mut Parts) -> Result<(), Stop>
        ensures read { Reads (λ u. parts.new) result self.new (with_part parts.old next_part_at self.old) }
    {
        self.word(",")?;
        self.part(parts)
    }

    /// How many bytes of the text stand behind the next letter.
    fn bytes_left(&self) -> usize {
        match self.next {
            Some((_, rest)) => rest.len(),
            None => 0,
        }
    }

    /// Parts, with commas between them.
    #[tactic(auto, using(crate::proofs::Loops::parts_loop))]
    fn listed_parts(&mut self, alloc: Global) -> Result<Parts, Stop>
        requires named { starts (codes "a") self.old ≡ false }
        ensures read { Reads (λ p. p) result self.new (parts_at self.old) }
    {
        let mut parts = Parts::with_room(alloc, self.bytes_left())?;
        self.part(&mut parts)?;
        'more: while self.starts(",") {
            self.next_part(&mut parts)?;
        }
        Ok(parts)
    }

    /// The word all, or parts.
    #[tactic(auto, using(crate::proofs::Loops::parts_all, crate::proofs::Loops::word_given))]
    fn parts(&mut self, alloc: Global) -> Result<Parts, Stop>
        ensures read { Reads (λ p. p) result self.new (parts_at self.old) }
    {
        if self.starts("a") {
            self.word("all")?;
            Ok(Parts::whole_section(alloc)?)
        } else {
            self.listed_parts(alloc)
        }
    }

    /// One of two words, which begin with different letters.
    #[tactic(auto, using(crate::proofs::Loops::word_given))]
    fn either(&mut self, yes: &str, no: &str) -> Result<bool, Stop>
        ensures read { Reads (λ b. b) result self.new (choice true false yes.now no.now self.old) }
    {
        if self.starts(yes) {
            self.word(yes)?;
            Ok(true)
        } else {
            self.word(no)?;
            Ok(false)
        }
    }

    /// A township number, and whether it is north.
    #[tactic(auto, unfolding(crate::specs::Readers::township_at))]
    fn township(&mut self) -> Result<(u8, bool), Stop>
        ensures read { Reads (λ p. (p.0, p.1)) result self.new (township_at self.old) }
    {
        self.word("t")?;
        let number = self.number()?;
        let north = self.either("n", "s")?;
        Ok((number, north))
    }

    /// A range number, and whether it is east.
    #[tactic(auto, unfolding(crate::specs::Readers::range_at))]
    fn range(&mut self) -> Result<(u8, bool), Stop>
        ensures read { Reads (λ p. (p.0, p.1)) result self.new (range_at self.old) }
    {
        self.word("r")?;
        let number = self.number()?;
        let east = self.either("e", "w")?;
        Ok((number, east))
    }

    /// The word section or sec, and its number.
    #[tactic(auto, unfolding(crate::specs::Readers::section_number_at))]
    fn section_number(&mut self) -> Result<u8, Stop>
        ensures read { Reads (λ n. n) result self.new (section_number_at self.old) }
    {
        self.word("sec")?;
        if self.starts("t") {
            self.word("tion")?;
        }
        self.number()
    }

    /// A section's parts, behind a comma, a colon or nothing; or the whole section.
    #[tactic(auto, unfolding(crate::specs::Readers::section_parts_at))]
    fn section_parts(&mut self, alloc: Global) -> Result<Parts, Stop>
        ensures read { Reads (λ p. p) result self.new (section_parts_at self.old) }
    {
        if self.starts(",:ansew") {
            if self.starts(",") {
                self.word(",")?;
            } else if self.starts(":") {
                self.word(":")?;
            }
            self.parts(alloc)
        } else {
            Ok(Parts::whole_section(alloc)?)
        }
    }

    /// A section with its parts, where one is named.
    #[tactic(auto, unfolding(crate::specs::Readers::section_at))]
    fn section(&mut self, alloc: Global) -> Result<Option<SectionWords>, Stop>
        ensures read { Reads (λ s. option_map section_view s) result self.new (section_at self.old) }
    {
        if self.starts(",s") {
            if self.starts(",") {
                self.word(",")?;
            }
            let number = self.section_number()?;
            let parts = self.section_parts(alloc)?;
            Ok(Some(SectionWords { number, parts }))
        } else {
            Ok(None)
        }
    }

    /// A township, and a section of it where one is named.
    #[tactic(auto, unfolding(crate::specs::Readers::land_at))]
    fn land(&mut self, alloc: Global) -> Result<LandWords, Stop>
        ensures read { Reads (λ d. InTownship (land_view d)) result self.new (land_at self.old) }
    {
        let (township, north) = self.township()?;
        if self.starts(",") {
            self.word(",")?;
        } else if self.starts("-") {
            self.word("-")?;
        }
        let (range, east) = self.range()?;
        let section = self.section(alloc)?;
        Ok(LandWords {
            township,
            north,
            range,
            east,
            section,
        })
    }

    /// A whole description.
    #[tactic(auto, unfolding(crate::specs::Readers::description_at), using(crate::proofs::Loops::word_given))]
    pub fn description(&mut self, alloc: Global) -> Result<Words, Stop>
        ensures read { Reads words_view result self.new (description_at self.old) }
    {
        if self.starts("e") {
            self.word("everything")?;
            Ok(Words::Everything)
        } else {
            Ok(Words::Land(self.land(alloc)?))
        }
    }

    /// Whether no letter is left.
    pub fn is_done(&self) -> bool
        ensures done { result ≡ (length self.now == 0) }
    {
        self.next.is_none()
    }

    /// How many letters of a text stand before those that are left of it.
    pub fn letters_before(&self, text: &str) -> usize
        requires left { length self.now ≤ length (letters (chars text.now)) }
        ensures before { result ≡ length (letters (chars text.now)) - length self.now }
    {
        let all = count_letters(text);
        match self.next {
            Some((_, rest)) => all - count_letters(rest) - count_letters(self.more) - 1,
            None => all,
        }
    }
}

impl From<AllocError> for Stop {
    ghost from_gives = { λ _ e. e ≡ Memory };

    fn from(_e: AllocError) -> Stop {
        Stop::Memory
    }
}

impl<T: Drop> From<AllocFailed<T>> for Stop {
    ghost from_gives = { λ _ e. e ≡ Memory };

    fn from(_e: AllocFailed<T>) -> Stop {
        Stop::Memory
    }
}
