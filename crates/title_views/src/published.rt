//! What is published.

ghost use Rattle.std.specs.Prelude.{◌≡◌, []};

use crossbeam_utils::rule::{Outcome, Protocol};
use left_right::Absorb;
use left_right::reader::Reader;
use left_right::writer::Writer;
use std::alloc::{AllocError, Global};
use std::marker::{Model, PhantomData};
use title_chain::{Record, Records};
use title_ledger::{Page, Room};

/// Records, and the ledger's page at which the last of them was tried.
#[derive(Drop)]
pub struct Published {
    alloc: Global,
    records: Vec<Record>,
    page: Page,
}

impl Model for Published {
    ghost use Rattle.title_views.specs.Views.{Shown};

    ghost Value = { Shown };

    ghost view = { λ p. record { records = p.records.items; page = p.page } };
}

/// A record with its place, and the page at which it was tried.
#[derive(Drop)]
pub struct Addition {
    pub rec: Record,
    pub place: u64,
    pub page: Page,
}

impl Absorb<Addition> for Published {
    ghost use Rattle.title_views.specs.Views.{placed};

    type State = Published;

    ghost state = { λ p. p };

    ghost applied = { λ x a. placed x a.place a.rec a.page };

    fn absorb_first(&mut self, operation: &Addition, _other: &Published) -> Result<(), AllocError> {
        let record = operation.rec.copy(self.alloc)?;
        self.records.reserve(1)?;
        self.records
            .truncate((operation.place.saturating_sub(1)) as usize);
        self.records.push_reserved(record);
        self.page = operation.page.again();
        Ok(())
    }
}

impl Published {
    // No record.
    pub(crate) fn new(alloc: Global, page: Page) -> Published
        ensures new { result ≡ record { records = []; page = page } }
    {
        Published {
            alloc,
            records: Vec::new(alloc),
            page,
        }
    }

    pub(crate) fn records(&self) -> &[Record]
        ensures records { result.now ≡ self.now.records }
    {
        self.records.as_slice()
    }

    pub(crate) fn page(&self) -> &Page
        ensures page { result.now ≡ self.now.page }
    {
        &self.page
    }
}

/// What is published begins with all that each view has seen.
pub struct Growing<B> {
    of: PhantomData<B>,
}

impl<B: Room> Protocol<Published, Records> for Growing<B> {
    ghost use Rattle.std.specs.Prelude.{[]};
    ghost use Rattle.title_views.specs.Views.{Grows};

    ghost holds = { Grows B.setting.townships B.book };

    ghost first = { [] };
}

/// A view afterwards is what is published.
pub struct Sees<B> {
    of: PhantomData<B>,
}

impl<B: Room> Outcome<Published, Records> for Sees<B> {
    ghost use Rattle.title_views.specs.Views.{SeesAll};

    ghost then = { SeesAll B.setting.townships B.book };
}

/// Who publishes.
pub type Publisher<B> = Writer<Published, Addition, Records, Growing<B>>;

/// Who looks at what is published.
pub type Watch<B> = Reader<Published, Records, Growing<B>>;
