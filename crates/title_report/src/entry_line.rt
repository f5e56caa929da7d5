//! The text of a chain's row behind its examiner, made once for all rows of an entry.

ghost use Rattle.std.specs.Prelude.{◌≡◌, ℕ, List, true, OnSome};
ghost use Rattle.title_report.specs.EntryTexts.{entry_text, key_of, IsMade};

use crate::entries::{estates_end, make_front};
use crate::roster::Roster;
use crate::row_text::{RowText, add};
use title_chain::Entry;
use title_instrument::{Estates, Kind};

// What a chain's row shows of an entry.
#[derive(Clone, Copy)]
pub(crate) struct EntryKey {
    pub(crate) place: u64,
    pub(crate) doc: u64,
    pub(crate) grantor: u32,
    pub(crate) grantee: u32,
    pub(crate) kind: Kind,
    pub(crate) estates: Estates,
}

// The key of the last entry whose text was made, with that text.
#[derive(Drop)]
pub(crate) struct EntryLine {
    pub(crate) key: Option<EntryKey>,
    pub(crate) text: RowText,
}

// What a chain's row shows of an entry.
#[inline]
pub(crate) fn key_of(entry: &Entry) -> EntryKey
    ensures key { result ≡ key_of entry.now }
{
    let terms = entry.posting.terms();
    let instrument = &terms.instrument;
    EntryKey {
        place: entry.place,
        doc: terms.doc,
        grantor: instrument.grantor(),
        grantee: instrument.grantee(),
        kind: instrument.kind(),
        estates: instrument.estates(),
    }
}

// Whether two keys are one.
#[inline]
fn same_key(a: &EntryKey, b: &EntryKey) -> bool
    ensures same { result ≡ true → a.now ≡ b.now }
{
    a.place == b.place
        && a.doc == b.doc
        && a.grantor == b.grantor
        && a.grantee == b.grantee
        && a.kind == b.kind
        && a.estates == b.estates
}

// Makes the text of a key anew. `None` where there is no room for it. Out of line: most rows find their text made.
#[inline(never)]
fn make_text(text: &mut RowText, roster: &Roster, key: &EntryKey) -> Option<()>
    ensures made { OnSome result (text.new.items ≡ entry_text roster.now key.now) }
{
    let front = make_front(key);
    text.clear();
    add(text, front.as_bytes())?;
    roster.add_to(text, key.grantor)?;
    add(text, b",")?;
    roster.add_to(text, key.grantee)?;
    add(text, estates_end(key.estates))
}

impl EntryLine {
    // A line with no text made.
    pub(crate) fn new() -> EntryLine
        ensures line { (names : List (List ℕ)) → IsMade names result }
    {
        EntryLine {
            key: None,
            text: RowText::new(),
        }
    }

    // Whether the text is that of this key.
    #[inline]
    fn serves(&self, key: &EntryKey) -> bool
        ensures serves { result ≡ true → (names : List (List ℕ)) → IsMade names self.now → self.now.text.items ≡ entry_text names key.now }
    {
        match &self.key {
            Some(last) => same_key(last, key),
            None => false,
        }
    }

    // Makes the text that of this key. `None` where there is no room for it.
    #[inline]
    pub(crate) fn text_for(&mut self, roster: &Roster, key: &EntryKey) -> Option<()>
        requires line { IsMade roster.now self.old }
        ensures line { IsMade roster.now self.new }
        ensures text { OnSome result (self.new.text.items ≡ entry_text roster.now key.now) }
    {
        if self.serves(key) {
            return Some(());
        }
        self.key = None;
        make_text(&mut self.text, roster, key)?;
        self.key = Some(*key);
        Some(())
    }
}
