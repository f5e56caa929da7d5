//! Where the pages of a report go to the sink: each as soon as the next text has no room on it. The pushes that are wanted are those
//! of a model of these texts in another language: what rows begin with, the runs of a name and its quotes, what stands behind it.

use crate::checks::must;
use crate::survey::{square, township};
use indexmap::IndexSet;
use std::alloc::{AllocError, Global};
use std::process::Abort;
use title_chain::{Answer, Entries, Entry, Posting, SheetRows, Terms};
use title_device::{Failed, Sink};
use title_instrument::{Estate, Estates, Instrument, Release};
use title_land::{Node, Quarter, Tract};
use title_page::Page;
use title_report::{EntryLines, Roster, put_reply, put_reply_from, put_reply_with};
use title_store::SheetRow;
use title_trace::Reply;

// How many rows, of how many parties, a long report has.
const ROWS: u64 = 3_000;

const PARTIES: u64 = 97;

const EXAMINER: u32 = 7;

// The bytes of a page.
const PAGE: usize = 8_192;

// The lines of entries: the long chain has more.
const ENTRY_LINES: usize = 1_000;

/// A sink that keeps how many pushes it got, and the value of a polynomial that has their lengths as coefficients.
#[derive(Clone, Copy, Drop)]
struct Pushes {
    count: u64,
    sum: u64,
}

const NO_PUSHES: Pushes = Pushes { count: 0, sum: 0 };

impl Sink for Pushes {
    ghost use Rattle.std.specs.Prelude.{false};

    ghost has_failed = { λ _. false };

    fn push(&mut self, buf: &[u8]) -> Result<usize, Failed> {
        self.count = self.count.wrapping_add(1);
        self.sum = self.sum.wrapping_mul(1_000_003);
        self.sum = self.sum.wrapping_add(buf.len() as u64);
        Ok(buf.len())
    }

    fn failed(&self) -> bool {
        false
    }
}

// A name of up to a hundred bytes, of which some have a comma and some a quote.
fn name_of(alloc: Global, party: u64) -> Result<String, AllocError> {
    let mut name = String::new(alloc);
    for i in 0..party {
        let part = match (party % 5, i % 4) {
            (0, 3) => ",",
            (1, 2) => "\"",
            _ => "N",
        };
        name.push_str(part)?;
    }
    Ok(name)
}

fn names(rt: &impl Abort, alloc: Global) -> IndexSet<String> {
    let mut names = IndexSet::new(alloc);
    for party in 0..PARTIES {
        let name = name_of(alloc, party).expect(rt, "there is memory");
        names.insert(name).expect(rt, "there is memory");
    }
    names
}

// One of several nodes, from the whole plant down to a cell.
fn node_of(rt: &impl Abort, i: u64) -> Node {
    let quarters = [
        Quarter::Northeast,
        Quarter::Southwest,
        Quarter::Northwest,
        Quarter::Southeast,
    ];
    match i / 3 % 7 {
        5 => Node::Everything,
        6 => Node::Township(township(rt, 12)),
        depth => square(rt, (i % 36) as u8 + 1, &quarters[..depth as usize]),
    }
}

// A row of a sheet, of the node and the estate with this number.
fn line_of(rt: &impl Abort, i: u64, party: u32, units: u64) -> SheetRow {
    SheetRow {
        node: node_of(rt, i),
        estate: if i % 7 < 3 { Estate::S } else { Estate::M },
        party,
        units,
    }
}

// A row of a chain.
fn entry_of(rt: &impl Abort, alloc: Global, place: u64, doc: u64, from: u32, to: u32) -> Entry {
    let instrument = Instrument::Release(Release {
        from,
        to,
        estates: Estates {
            s: place % 3 == 0,
            o: place % 2 == 0,
            m: doc % 2 == 0,
        },
    });
    let terms = Terms {
        doc,
        tract: Tract::of(node_of(rt, 0)),
        instrument,
    };
    let posting = Posting::new(alloc, terms).expect(rt, "there is memory");
    Entry { place, posting }
}

fn add_row(rt: &impl Abort, rows: &mut Vec<SheetRow>, row: SheetRow) {
    rows.push(row).expect(rt, "there is memory");
}

fn add_entry(rt: &impl Abort, entries: &mut Vec<Entry>, entry: Entry) {
    entries.push(entry).expect(rt, "there is memory");
}

fn sheet_reply(rt: &impl Abort, rows: Vec<SheetRow>) -> Reply {
    let rows = SheetRows::new(rows).expect(rt, "there is memory");
    Reply::Answered(Answer::Rows(rows))
}

fn chain_reply(rt: &impl Abort, entries: Vec<Entry>) -> Reply {
    let entries = Entries::new(entries).expect(rt, "there is memory");
    Reply::Answered(Answer::Entries(entries))
}

fn long_sheet(rt: &impl Abort, alloc: Global) -> Vec<SheetRow> {
    let mut rows = Vec::new(alloc);
    for i in 0..ROWS {
        let party = (i * 31 % PARTIES) as u32;
        let row = line_of(rt, i, party, (4_294_967_295 - i) >> (i % 33));
        add_row(rt, &mut rows, row);
    }
    rows
}

fn long_chain(rt: &impl Abort, alloc: Global) -> Vec<Entry> {
    let mut entries = Vec::new(alloc);
    for i in 0..ROWS {
        let (from, to) = ((i * 31 % PARTIES) as u32, (i * 17 % PARTIES) as u32);
        add_entry(rt, &mut entries, entry_of(rt, alloc, i, i * i, from, to));
    }
    entries
}

// The rows of a sheet: the numbers of their nodes, their parties and units. Party 12 has a plain name, 20 one with commas, 21
// one with quotes, 0 an empty one, and 97 none. Behind a name stand 4 bytes, 23 (no share has more), or 33 (no number has more).
const LINES: [(u64, u32, u64); 9] = [
    (6, 12, 4_294_967_296),
    (6, 20, 4_294_967_295),
    (6, 21, 4_294_967_295),
    (12, 12, u64::MAX),
    (13, 20, 2_147_483_647),
    (1, 0, 4_294_967_295),
    (1, 97, 3),
    (18, 12, 4_294_967_295),
    (15, 21, 4_294_967_295),
];

fn sheet_of(rt: &impl Abort, alloc: Global, lines: &[(u64, u32, u64)]) -> Vec<SheetRow> {
    let mut rows = Vec::new(alloc);
    for &(i, party, units) in lines {
        add_row(rt, &mut rows, line_of(rt, i, party, units));
    }
    rows
}

// The entries of a chain: their places, documents and parties. They are in no estate, in M, in S and O, and in all.
const ENTRIES: [(u64, u64, u32, u32); 5] = [
    (1, 999_999_999_999, 12, 20),
    (5, 20, 20, 21),
    (12, 1, 21, 12),
    (600, 400, 0, 97),
    (u64::MAX, u64::MAX, 21, 21),
];

fn chain_of(rt: &impl Abort, alloc: Global, chain: &[(u64, u64, u32, u32)]) -> Vec<Entry> {
    let mut entries = Vec::new(alloc);
    for &(place, doc, from, to) in chain {
        add_entry(rt, &mut entries, entry_of(rt, alloc, place, doc, from, to));
    }
    entries
}

// A page that has room for so many bytes.
fn page_with_room(pushes: &mut Pushes, room: usize) -> Result<Page, Failed> {
    let mut page = Page::new();
    for _ in room..PAGE {
        page.put(pushes, b"N")?;
    }
    Ok(page)
}

// How much room a page has before a reply's rows: from so many bytes to so many, the last not among them. It ends at each byte of
// the rows where it has room for no byte, for one, and so on.
#[derive(Clone, Copy)]
struct Rooms {
    from: usize,
    to: usize,
}

// The rows are written from the beginning of a page.
const A_PAGE: Rooms = Rooms {
    from: PAGE,
    to: PAGE + 1,
};

// The pushes that are wanted where each entry is written in parts, and where it is written from its line.
#[derive(Clone, Copy)]
struct Wanted {
    in_parts: Pushes,
    by_lines: Pushes,
}

// Those of a sheet, which has no entries.
fn alike(wanted: Pushes) -> Wanted {
    Wanted {
        in_parts: wanted,
        by_lines: wanted,
    }
}

// The pushes of a reply's rows.
fn by_names(names: &IndexSet<String>, reply: &Reply, rooms: Rooms) -> Result<Pushes, Failed> {
    let mut pushes = NO_PUSHES;
    for room in rooms.from..rooms.to {
        let mut page = page_with_room(&mut pushes, room)?;
        put_reply(&mut page, &mut pushes, names, EXAMINER, reply)?;
        page.pass(&mut pushes)?;
    }
    Ok(pushes)
}

// The same with a roster.
fn by_roster(roster: &Roster, reply: &Reply, rooms: Rooms) -> Result<Pushes, Failed> {
    let mut pushes = NO_PUSHES;
    for room in rooms.from..rooms.to {
        let mut page = page_with_room(&mut pushes, room)?;
        put_reply_with(&mut page, &mut pushes, roster, EXAMINER, reply)?;
        page.pass(&mut pushes)?;
    }
    Ok(pushes)
}

// The same with lines of entries, which are made at the first turn and used from then on.
fn by_lines(lines: &mut EntryLines, reply: &Reply, rooms: Rooms) -> Result<Pushes, Failed> {
    let mut pushes = NO_PUSHES;
    for room in rooms.from..rooms.to {
        let mut page = page_with_room(&mut pushes, room)?;
        put_reply_from(&mut page, &mut pushes, lines, EXAMINER, reply)?;
        page.pass(&mut pushes)?;
    }
    Ok(pushes)
}

fn assert_same(rt: &impl Abort, pushes: Result<Pushes, Failed>, wanted: Pushes) {
    let pushes = pushes.expect(rt, "the sink takes all");
    must(rt, pushes.count == wanted.count, "as many pushes");
    must(rt, pushes.sum == wanted.sum, "pushes as long");
}

// By the second time the lines have the texts of entries.
fn assert_pushes_by_lines(
    rt: &impl Abort,
    lines: &mut EntryLines,
    reply: &Reply,
    rooms: Rooms,
    wanted: Pushes,
) {
    assert_same(rt, by_lines(lines, reply, rooms), wanted);
    assert_same(rt, by_lines(lines, reply, rooms), wanted);
}

fn assert_pushes(
    rt: &impl Abort,
    alloc: Global,
    names: &IndexSet<String>,
    reply: &Reply,
    rooms: Rooms,
    wanted: Wanted,
) {
    assert_same(rt, by_names(names, reply, rooms), wanted.in_parts);
    let roster = Roster::judged(names);
    assert_same(rt, by_roster(&roster, reply, rooms), wanted.in_parts);
    let mut lines = EntryLines::new(alloc, roster, ENTRY_LINES);
    assert_pushes_by_lines(rt, &mut lines, reply, rooms, wanted.by_lines);
}

// The same with the names of the long reports.
fn assert_ends(rt: &impl Abort, alloc: Global, reply: &Reply, rooms: Rooms, wanted: Wanted) {
    assert_pushes(rt, alloc, &names(rt, alloc), reply, rooms, wanted);
}

/// The pages of a long sheet go to the sink where the next text has no room.
#[test]
fn a_sheets_pages_end_where_its_texts_end(rt: HostRuntime) {
    let wanted = Pushes {
        count: 37,
        sum: 6_880_609_792_180_589_580,
    };
    let reply = sheet_reply(&rt, long_sheet(&rt, rt.alloc()));
    assert_ends(&rt, rt.alloc(), &reply, A_PAGE, alike(wanted));
}

/// So do those of a long chain. Of its entries, 24 in each 1,024 have no line, and some texts are longer than one.
#[test]
fn a_chains_pages_end_where_its_texts_end(rt: HostRuntime) {
    let wanted = Wanted {
        in_parts: Pushes {
            count: 50,
            sum: 13_560_996_821_065_972_174,
        },
        by_lines: Pushes {
            count: 50,
            sum: 1_936_071_937_354_661_706,
        },
    };
    let reply = chain_reply(&rt, long_chain(&rt, rt.alloc()));
    assert_ends(&rt, rt.alloc(), &reply, A_PAGE, wanted);
}

/// So do those of a sheet wherever a page ends in its rows: at each of their bytes once.
#[test]
fn a_page_may_end_anywhere_in_a_sheet(rt: HostRuntime) {
    let wanted = Pushes {
        count: 1_207,
        sum: 13_253_457_621_900_982_842,
    };
    let reply = sheet_reply(&rt, sheet_of(&rt, rt.alloc(), &LINES));
    let rooms = Rooms { from: 0, to: 604 };
    assert_ends(&rt, rt.alloc(), &reply, rooms, alike(wanted));
}

/// And in a chain.
#[test]
fn a_page_may_end_anywhere_in_a_chain(rt: HostRuntime) {
    let wanted = Wanted {
        in_parts: Pushes {
            count: 735,
            sum: 5_628_129_543_226_566_198,
        },
        by_lines: Pushes {
            count: 735,
            sum: 4_427_865_377_860_061_100,
        },
    };
    let reply = chain_reply(&rt, chain_of(&rt, rt.alloc(), &ENTRIES));
    let rooms = Rooms { from: 0, to: 368 };
    assert_ends(&rt, rt.alloc(), &reply, rooms, wanted);
}

// One of more names than a roster judges once; every other has a comma.
fn one_of_many(rt: &impl Abort, alloc: Global, party: u32) -> String {
    let name = if party % 2 == 0 {
        format!(in alloc; "NAME {party}")
    } else {
        format!(in alloc; "NAME, {party}")
    };
    name.expect(rt, "there is memory")
}

fn many_names(rt: &impl Abort, alloc: Global) -> IndexSet<String> {
    let mut names = IndexSet::new(alloc);
    for party in 0..65_540 {
        let name = one_of_many(rt, alloc, party);
        names.insert(name).expect(rt, "there is memory");
    }
    names
}

fn last_of_many(rt: &impl Abort, alloc: Global) -> Vec<SheetRow> {
    let mut rows = Vec::new(alloc);
    for party in 65_530..65_545 {
        add_row(rt, &mut rows, line_of(rt, 6, party, 1));
    }
    rows
}

/// The last names that a roster judges once, those behind them, and parties that have none are written alike.
#[test]
fn names_are_quoted_on_both_sides_of_the_last_judged(rt: HostRuntime) {
    let wanted = Pushes {
        count: 1_663,
        sum: 1_427_641_381_291_054_658,
    };
    let names = many_names(&rt, rt.alloc());
    let reply = sheet_reply(&rt, last_of_many(&rt, rt.alloc()));
    let rooms = Rooms { from: 0, to: 832 };
    assert_pushes(&rt, rt.alloc(), &names, &reply, rooms, alike(wanted));
}
