//! A sink beside which a person is told what is wrong.

ghost use Rattle.std.specs.Prelude.{◌≡◌, false};

use crate::aside::Aside;
use crate::passed_over::PassedOver;
use arrayvec::ArrayVec;
use title_device::{Failed, Sink};

// Where a person is told what is wrong, and the beginning of the answer that is being written, as much of it as the longest answer has
// that says that a row was passed over.
#[derive(Drop)]
struct Voice<'a, E> {
    aside: &'a Aside,
    is_told: bool,
    errors: E,
    answer: ArrayVec<u8, 32>,
}

impl<E: Sink> Voice<'_, E> {
    // An answer has come to its end.
    fn end_answer(&mut self) {
        if let Some(passed) = PassedOver::told_by(self.answer.as_slice()) {
            self.aside.tell(passed, &mut self.errors);
        }
        self.answer.clear();
    }

    // Goes through bytes that were written.
    fn listen(&mut self, written: &[u8]) {
        for byte in written {
            if *byte == b'\n' {
                self.end_answer();
            } else {
                let _ = self.answer.try_push(*byte);
            }
        }
    }

    // Tells what is wrong with the rows of which these bytes say that they were passed over.
    fn follow(&mut self, written: &[u8])
        ensures quiet { self.old.is_told ≡ false → self.new ≡ self.old }
    {
        if self.is_told {
            self.listen(written);
        }
    }
}

/// A sink that passes on what it takes. Behind each answer which says that a row was passed over, what is wrong with the row is told on
/// the errors, where anybody is to be told.
#[derive(Drop)]
pub struct Spoken<'a, W, E> {
    inner: W,
    voice: Voice<'a, E>,
}

impl<'a, W, E> Spoken<'a, W, E> {
    ghost use Rattle.title_advice.specs.Hearing.{spoken_sink};

    /// Passes on to this sink, and tells on these errors.
    pub fn new(inner: W, errors: E, aside: &'a Aside) -> Spoken<'a, W, E>
        ensures sink { spoken_sink result ≡ inner }
    {
        Spoken {
            inner,
            voice: Voice {
                aside,
                is_told: aside.is_told(),
                errors,
                answer: ArrayVec::new(),
            },
        }
    }

    /// The sink, and the errors.
    pub fn into_parts(self) -> (W, E)
        ensures sink { result.0 ≡ spoken_sink self.entry }
    {
        let Spoken { inner, voice } = self;
        let Voice { errors, .. } = voice;
        (inner, errors)
    }
}

impl<W: Sink, E: Sink> Sink for Spoken<'_, W, E> {
    ghost use Rattle.title_advice.specs.Hearing.{spoken_sink};

    ghost taken = { λ spoken. W.taken (spoken_sink spoken) };

    ghost has_failed = { λ spoken. W.has_failed (spoken_sink spoken) };

    fn push(&mut self, buf: &[u8]) -> Result<usize, Failed> {
        let count = self.inner.push(buf)?;
        self.voice.follow(&buf[..count]);
        Ok(count)
    }

    fn failed(&self) -> bool {
        self.inner.failed()
    }
}
