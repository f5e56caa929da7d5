//! Files of plants that were written by hand.

ghost use Rattle.std.specs.Prelude.{◌<◌, ◌^◌, length};
ghost use Rattle.title_journal.specs.{Blocks.{front}, Rest.{texts_of}};

use crate::checks::must;
use std::alloc::Global;
use std::fmt::{Display, Write};
use std::process::Abort;
use title_chain::{Answer, Ask, Posting, Record, Step, Steps};
use title_daybook::{PlantFault, Standing, Stood, block, read_standing, row_of};
use title_disk::TornDisk;
use title_journal::{Blocks, read};
use title_standing::Deeds;

// A party whose name has a comma and quotes, and a transaction of one post.
const FIRST: &str = "township,T3N R2W\n\
    party,\"ADAMS, J. \"\"JACK\"\"\"\n\
    party,BELL\n\
    1,deed,7,UNITED STATES,\"ADAMS, J. \"\"JACK\"\"\",S,W1/2,,T3N R2W sec 5 NE1/4\n\
    end,1\n";

// A party named as a gate is, a transaction of nothing, one of two posts, and one of a post in cells that no description says.
const SECOND: &str = "township,T4N R2W\n\
    party,+\n\
    4,begin\n\
    4,commit\n\
    2,begin\n\
    2,warranty,8,UNITED STATES,BELL,SO,W1/1,S1/4;O1/2,\"T3N R2W sec 5 NW1/4, SE1/4SW1/4\"\n\
    2,release,9,BELL,+,SOM,T4N R2W\n\
    2,commit\n\
    9999,deed,999999999999,BELL,+,OM,I3/4,,T3N R2W sec 6 cells \
    aaaa aaaa aaaa aaaa aaaa aaaa aaaa aaaa 0000 0000 0000 0000 0000 0000 0000 0000\n\
    end,4\n";

// What stands behind them: townships, names, and transactions by their examiners, each with its posts: the document, the instrument
// between parties by their numbers, and the nodes of the tract, how many and the first.
const STANDS: &str = "T3N R2W\n\
    T4N R2W\n\
    UNITED STATES\n\
    ADAMS, J. \"JACK\"\n\
    BELL\n\
    +\n\
    examiner 1\n\
    7 Deed(Deed { grantor: 0, grantee: 1, estates: Estates { s: true, o: false, m: false }, warranty: false, \
    quantum: Whole(Share { units: 2147483648 }), reserve: [None, None, None] }) 1 T3N R2W sec 5 NE1/4\n\
    examiner 4\n\
    examiner 2\n\
    8 Deed(Deed { grantor: 0, grantee: 2, estates: Estates { s: true, o: true, m: false }, warranty: true, \
    quantum: Whole(Share { units: 4294967296 }), \
    reserve: [Some(Share { units: 1073741824 }), Some(Share { units: 2147483648 }), None] }) 2 T3N R2W sec 5 NW1/4\n\
    9 Release(Release { from: 2, to: 3, estates: Estates { s: true, o: true, m: true } }) 1 T4N R2W\n\
    examiner 9999\n\
    999999999999 Deed(Deed { grantor: 2, grantee: 3, estates: Estates { s: false, o: true, m: true }, warranty: false, \
    quantum: Interest(Share { units: 3221225472 }), reserve: [None, None, None] }) 64 T3N R2W sec 6 NW1/4NE1/4NE1/4NE1/4\n";

// ---- reading

fn add_text(rt: &impl Abort, file: &mut Vec<u8>, text: &str) {
    file.extend_from_slice(text.as_bytes())
        .expect(rt, "there is memory");
}

// A file at rest with these blocks.
fn file_of(rt: &impl Abort, alloc: Global, blocks: &[&str]) -> Vec<u8> {
    let mut file = Vec::new(alloc);
    add_text(rt, &mut file, "titleplant plant 1\n");
    for text in blocks {
        add_text(rt, &mut file, "+\n");
        add_text(rt, &mut file, text);
    }
    add_text(rt, &mut file, "-");
    file
}

// The blocks that are read from it.
fn read_blocks(rt: &impl Abort, alloc: Global, blocks: &[&str]) -> Blocks
    ensures fits { length (front (texts_of result)) < 2 ^ 63 }
{
    let mut disk = TornDisk::new(alloc, file_of(rt, alloc, blocks), None);
    read(alloc, &mut disk).expect(rt, "the file is a plant")
}

// What stands in a file with these blocks.
fn standing_in(rt: &impl Abort, alloc: Global, blocks: &[&str]) -> Standing {
    let found = read_blocks(rt, alloc, blocks);
    read_standing(alloc, &found).expect(rt, "the rows stand")
}

// Adds a line for each.
fn tell_each<T: Display>(rt: &impl Abort, items: &[T], told: &mut String) {
    for item in items {
        writeln!(told, "{item}").expect(rt, "there is memory");
    }
}

fn tell_post(rt: &impl Abort, posting: &Posting, told: &mut String) {
    let terms = posting.terms();
    let cover = terms.tract.cover();
    let node = cover.first().expect(rt, "a node");
    let line = writeln!(
        told,
        "{} {:?} {} {node}",
        terms.doc,
        terms.instrument,
        cover.len()
    );
    line.expect(rt, "there is memory");
}

fn tell_deeds(rt: &impl Abort, deeds: &Deeds, told: &mut String) {
    writeln!(told, "examiner {}", deeds.examiner).expect(rt, "there is memory");
    for posting in &deeds.posts {
        tell_post(rt, posting, told);
    }
}

fn tell_all(rt: &impl Abort, stands: &Standing, told: &mut String) {
    tell_each(rt, &stands.townships, told);
    tell_each(rt, stands.parties.as_slice(), told);
    for deeds in &stands.deeds {
        tell_deeds(rt, deeds, told);
    }
}

fn tell(rt: &impl Abort, alloc: Global, stands: &Standing) -> String {
    let mut told = String::new(alloc);
    tell_all(rt, stands, &mut told);
    told
}

fn assert_told(rt: &impl Abort, alloc: Global, stands: &Standing) {
    let told = tell(rt, alloc, stands);
    must(rt, told.as_str() == STANDS, told.as_str());
}

#[test]
fn a_file_stands_for_its_rows(rt: HostRuntime) {
    let stands = standing_in(&rt, rt.alloc(), &[FIRST, SECOND]);
    assert_told(&rt, rt.alloc(), &stands);
}

// ---- rows

// The row of a fault; 0 where there is none.
fn row_in(rt: &impl Abort, fault: Option<PlantFault>) -> usize {
    match fault {
        None => 0,
        Some(PlantFault::Row(n)) => n,
        Some(PlantFault::Memory) => panic!(rt; "there is memory"),
    }
}

// The row at fault of a file with this block; 0 where there is none.
fn row_at_fault(rt: &impl Abort, alloc: Global, text: &str) -> usize {
    let found = read_blocks(rt, alloc, &[text]);
    row_in(rt, read_standing(alloc, &found).err())
}

fn assert_at_fault(rt: &impl Abort, alloc: Global, blocks: &[(&str, usize)]) {
    for (text, row) in blocks {
        must(rt, row_at_fault(rt, alloc, text) == *row, text);
    }
}

// Quotes that needn't be there.
const QUOTED: &str = "\"party\",ADAMS\n\"4\",\"begin\"\n4,\"commit\"\nend,1\n";

// Blocks, and the rows at fault: the head is row 1, and the gate row 2.
static BLOCKS: [(&str, usize); 15] = [
    ("end,0\n", 0),
    (QUOTED, 0),
    ("party,\"end,1\"\n1,begin\n1,commit\nend,1\n", 0),
    ("end,1\n", 3),
    (
        "1,deed,7,UNITED STATES,ADAMS,S,W1/1,,everything\nend,1\n",
        3,
    ),
    ("1,sheet,everything\nend,1\n", 3),
    ("party,\"ADAMS\nend,0\n", 3),
    ("party,ADAMS\r\nend,0\n", 3),
    ("\nend,0\n", 3),
    ("party,ADAMS\nparty,ADAMS\nend,0\n", 4),
    ("township,T3N R2W\ntownship,T.3N. R.2W.\nend,0\n", 4),
    ("1,begin\nend,1\n", 4),
    ("1,begin\n2,commit\nend,1\n", 4),
    ("1,begin\nparty,ADAMS\n1,commit\nend,1\n", 4),
    ("1,begin\n1,commit\nend,2\n", 5),
];

#[test]
fn a_row_at_fault_has_its_number(rt: HostRuntime) {
    assert_at_fault(&rt, rt.alloc(), &BLOCKS);
}

fn assert_rows(rt: &impl Abort, found: &Blocks, places: &[(u64, usize)]) {
    for (place, row) in places {
        must(rt, row_of(found, *place) == *row, "a transaction's row");
    }
}

// The transactions at these places of a file with these blocks end in these rows.
fn assert_ends(rt: &impl Abort, alloc: Global, blocks: &[&str], places: &[(u64, usize)]) {
    assert_rows(rt, &read_blocks(rt, alloc, blocks), places);
}

// Places, and the rows in which their transactions end.
static PLACES: [(u64, usize); 6] = [(0, 1), (1, 6), (2, 12), (3, 16), (4, 17), (5, 0)];

#[test]
fn a_transaction_ends_in_its_row(rt: HostRuntime) {
    assert_ends(&rt, rt.alloc(), &[FIRST, SECOND], &PLACES);
    assert_ends(&rt, rt.alloc(), &[QUOTED], &[(1, 5)]);
}

// ---- writing

fn step_of(rt: &impl Abort, alloc: Global, posting: &Posting) -> Step {
    Step {
        ask: Ask::Post(posting.copy(alloc).expect(rt, "there is memory")),
        answer: Answer::Posted,
    }
}

// The steps that posted these.
fn steps_of(rt: &impl Abort, alloc: Global, posts: &[Posting]) -> Steps {
    let mut steps = Vec::new(alloc);
    for posting in posts {
        steps
            .push(step_of(rt, alloc, posting))
            .expect(rt, "there is memory");
    }
    Steps::new(steps)
}

fn record_of(rt: &impl Abort, alloc: Global, deeds: &Deeds) -> Record {
    Record {
        examiner: deeds.examiner,
        steps: steps_of(rt, alloc, &deeds.posts),
    }
}

fn records_of(rt: &impl Abort, alloc: Global, kept: &[Deeds]) -> Vec<Record> {
    let mut records = Vec::new(alloc);
    for deeds in kept {
        records
            .push(record_of(rt, alloc, deeds))
            .expect(rt, "there is memory");
    }
    records
}

// The block of these records and of what is declared, where a township, three parties and a record stood.
fn block_of(rt: &impl Abort, alloc: Global, stands: &Standing, records: &[Record]) -> Vec<u8> {
    assert!(rt; stands.townships.len() == 2 && stands.parties.len() == 4);
    let stood = Stood {
        townships: 1,
        parties: 3,
        records: 1,
    };
    let text = block(alloc, stood, &stands.townships, &stands.parties, records);
    text.expect(rt, "there is memory")
}

fn assert_written(rt: &impl Abort, alloc: Global, stands: &Standing) {
    assert!(rt; stands.deeds.len() == 4);
    let records = records_of(rt, alloc, &stands.deeds[1..]);
    let text = block_of(rt, alloc, stands, &records);
    must(rt, text.as_slice() == SECOND.as_bytes(), "the block");
}

#[test]
fn a_block_is_written_for_what_is_new(rt: HostRuntime) {
    let stands = standing_in(&rt, rt.alloc(), &[FIRST, SECOND]);
    assert_written(&rt, rt.alloc(), &stands);
}
