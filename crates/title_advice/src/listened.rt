//! A source whose bytes are listened to.

ghost use Rattle.std.specs.Prelude.{◌≡◌};

use crate::aside::Aside;
use title_device::{Failed, Source};

/// A source that gives what another one gives, and lets it be heard aside.
#[derive(Drop)]
pub struct Listened<'a, R> {
    inner: R,
    aside: &'a Aside,
}

impl<'a, R> Listened<'a, R> {
    ghost use Rattle.title_advice.specs.Hearing.{listened_source};

    /// Gives what this source gives.
    pub fn new(inner: R, aside: &'a Aside) -> Listened<'a, R>
        ensures source { listened_source result ≡ inner }
    {
        Listened { inner, aside }
    }
}

impl<R: Source> Source for Listened<'_, R> {
    ghost use Rattle.title_advice.specs.Hearing.{listened_source};

    ghost left = { λ listened. R.left (listened_source listened) };

    ghost has_failed = { λ listened. R.has_failed (listened_source listened) };

    ghost turns = { λ listened. R.turns (listened_source listened) };

    fn pull(&mut self, buf: &mut [u8]) -> Result<usize, Failed> {
        let count = self.inner.pull(buf)?;
        self.aside.take(&buf[..count]);
        Ok(count)
    }

    fn failed(&self) -> bool {
        self.inner.failed()
    }
}
