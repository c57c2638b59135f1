// Series, notices and bells.
ghost use Rattle.std.specs.Prelude.{◌≡◌, ◌≤◌, true};
ghost use Rattle.days.specs.State.{in_force};
ghost use Rattle.days.specs.Listings.{is_closed, listing, listed_in, posting, posted_in};
ghost use Rattle.days.specs.Cancels.{cancelling, cancelled_in, ringing, rung_in};
ghost use Rattle.gate_calls.specs.Model.{state};
ghost use Rattle.gate_calls.specs.Promises.{Changes};

use super::{Gate, MOST_NOTICES};
use orders::bell::Bell;
use orders::fault::GateFault;
use orders::phase::Phase;
use orders::records::{NoticeTerms, SeriesTerms};
use strategy::leg::Series;
use strategy::price::Buffers;

impl Gate<'_> {
    pub(super) fn is_closed(&self) -> bool
        ensures { result ≡ is_closed (state self.now).phase }
    {
        self.phase == Phase::Closed
    }

    // The buffers of the last notice; notice 0 is all zeros.
    pub(super) fn in_force(&self) -> Buffers
        ensures { result ≡ in_force (state self.now).notices }
    {
        self.notices.as_slice().last().copied().unwrap_or_default()
    }

    pub(super) fn list(&mut self, terms: SeriesTerms) -> Result<u16, GateFault>
        ensures answer { result ≡ listing (state self.old) terms }
        ensures after { Changes result (state self.old) (state self.new) (listed_in (state self.old) terms) }
    {
        let series = Series::try_from(terms)?;
        match self.phase {
            Phase::Pre => self.table.add(series),
            _ => Err(GateFault::Phase),
        }
    }

    pub(super) fn post(&mut self, terms: NoticeTerms) -> Result<u8, GateFault>
        ensures answer { result ≡ posting (state self.old) terms }
        ensures after { Changes result (state self.old) (state self.new) (posted_in (state self.old) terms) }
    {
        let buffers = Buffers::try_from(terms)?;
        if self.is_closed() {
            return Err(GateFault::Phase);
        }
        let posted = self.notices.len();
        if posted >= MOST_NOTICES {
            return Err(GateFault::NoticesFull);
        }
        self.notices
            .push(buffers)
            .map_err(|_| GateFault::NoticesFull)?;
        // one of at most 64
        Ok(posted as u8 + 1)
    }

    // Close cancels every resting order, and answers their open units.
    pub(super) fn ring(&mut self, bell: Bell) -> Result<u32, GateFault>
        ensures answer { result ≡ ringing (state self.old) bell }
        ensures after { Changes result (state self.old) (state self.new) (rung_in (state self.old) bell) }
    {
        self.phase.ring(bell)?;
        match bell {
            Bell::Close => Ok(self.book.clear()),
            Bell::Open | Bell::Halt | Bell::Resume => Ok(0),
        }
    }
}
