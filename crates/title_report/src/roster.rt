//! The names of a report's parties.

ghost use Rattle.std.specs.{Prelude.{◌≡◌, ◌++◌, false, map, OnSome}, String.{string_bytes}};
ghost use Rattle.csv.specs.Writing.{field_text, needs_quotes};
ghost use Rattle.title_page.specs.Rows.{row_writer};
ghost use Rattle.title_report.specs.{Puts.{IsPut}, Replies.{name_of}, Rosters.{AreJudged, IsJudged}};

use crate::replies::Names;
use crate::row_text::{RowText, add_field};
use arrayvec::ArrayVec;
use std::marker::Model;
use title_device::{Failed, Sink};
use title_page::{Page, is_quoted};

/// The names of the parties, each at the index that is its number, and which of them are quoted where they are written as fields:
/// that is found out once, and not at each row. A contract sees the names' bytes.
#[derive(Drop)]
pub struct Roster<'a> {
    names: &'a Names,
    // Where they are judged, a bit for each name, 64 in a word, the lowest for its first.
    in_quotes: Option<ArrayVec<u64, 1024>>,
}

impl<'a> Model for Roster<'a> {
    ghost use Rattle.std.specs.{Prelude.{ℕ, List, map, IfSome}, String.{string_bytes}};
    ghost use Rattle.title_report.specs.Rosters.{AreJudged};

    ghost Value = { List (List ℕ) };

    ghost view = { λ r. map string_bytes r.names.now.keys };

    ghost invariant = { λ r. IfSome r.in_quotes (λ words. AreJudged (map string_bytes r.names.now.keys) words.items) };
}

// Which of the first 64 names are quoted: a bit for each, the lowest for the first.
fn judge_word(names: &[String]) -> u64
    ensures judged { IsJudged (map string_bytes names.now) result }
{
    let mut word = 0;
    for at in 0..names.len().min(64) {
        word |= u64::from(is_quoted(names[at].as_bytes())) << at;
    }
    word
}

// Which names are quoted, of the first 65,536.
fn judge(names: &[String]) -> ArrayVec<u64, 1024>
    ensures judged { AreJudged (map string_bytes names.now) result.items }
{
    let mut words = ArrayVec::new();
    for word in 0..names.len() / 64 + 1 {
        let Ok(()) = words.try_push(judge_word(&names[word * 64..])) else {
            return words;
        };
    }
    words
}

impl<'a> Roster<'a> {
    /// The roster of these names, of which none is judged before it is written.
    pub fn new(names: &'a Names) -> Roster<'a>
        ensures names { result ≡ map string_bytes names.now.keys }
    {
        Roster {
            names,
            in_quotes: None,
        }
    }

    /// The roster of these names, of which the first 65,536 are judged once.
    pub fn judged(names: &'a Names) -> Roster<'a>
        ensures names { result ≡ map string_bytes names.now.keys }
    {
        Roster {
            names,
            in_quotes: Some(judge(names.as_slice())),
        }
    }

    // Whether this name of the party of this number is quoted: as it was judged, or found out now.
    fn is_quoted(&self, party: u32, name: &[u8]) -> bool
        requires name { name.now ≡ name_of self.now party }
        ensures quoted { result ≡ needs_quotes row_writer name.now }
    {
        if let Some(words) = &self.in_quotes {
            let words = words.as_slice();
            let word = party as usize / 64;
            if word < words.len() {
                return (words[word] >> (party % 64)) % 2 == 1;
            }
        }
        is_quoted(name)
    }

    // The bytes of the name of the party of this number; none where there is no such party.
    fn bytes(&self, party: u32) -> &[u8]
        ensures name { result.now ≡ name_of self.now party }
    {
        match self.names.get_index(party as usize) {
            Some(name) => name.as_bytes(),
            None => b"",
        }
    }

    /// Writes the name of the party of this number as a field; an empty one where there is no such party.
    #[inline(always)]
    pub(crate) fn write<S: Sink>(
        &self,
        page: &mut Page,
        sink: &mut S,
        party: u32,
    ) -> Result<(), Failed>
        requires works { S.has_failed sink.old ≡ false }
        ensures put { IsPut result (S.taken sink.old) page.old (S.taken sink.new) page.new (S.has_failed sink.new)
            (field_text row_writer (name_of self.now party)) }
    {
        let name = self.bytes(party);
        page.judged_field(sink, name, self.is_quoted(party, name))
    }

    /// Adds it to a text as a field. `None` where there is no room for it.
    pub(crate) fn add_to(&self, text: &mut RowText, party: u32) -> Option<()>
        ensures added { OnSome result (text.new.items ≡ text.old.items ++ field_text row_writer (name_of self.now party)) }
    {
        let name = self.bytes(party);
        add_field(text, name, self.is_quoted(party, name))
    }
}
