// The calls of the gate. Each refuses with the lowest number that applies, at the first leg that it meets, and then changes nothing.
// Each promises its answer and the gate that it leaves, and the law of the day: whatever calls led here, this one leads on, and the
// day keeps its laws. The part that decides is private and promises the call without the law, so that it can be proved by itself.
ghost use Rattle.std.specs.Prelude.{◌≡◌, length};
ghost use Rattle.orders.specs.Checks.{map_ok};
ghost use Rattle.market.specs.Levels.{Levels};
ghost use Rattle.days.specs.declared.call.Call.TheVariants as asked;
ghost use Rattle.days.specs.declared.reply.Reply.TheVariants as told;
ghost use Rattle.days.specs.Listings.{listing, listed_in, posting, posted_in};
ghost use Rattle.days.specs.Cancels.{cancelling, cancelled_in, ringing, rung_in};
ghost use Rattle.days.specs.History.{since, New, EnterStep, WorkStep, SweepStep};
ghost use Rattle.days.specs.Laws.{LeadsOn};
ghost use Rattle.gate_calls.specs.Model.{state};
ghost use Rattle.gate_calls.specs.Promises.{Changes, netting};

use super::Gate;
use book::book::Book;
use days::call::Call;
use days::reply::{Acceptance, Execution, Reply, Tally};
use days::tape::TapeLine;
use lent::list::GrowList;
use listing::table::SeriesTable;
use market::net::net_market;
use market::quote::TwoSided;
use market::trading::Market;
use orders::bell::Bell;
use orders::fault::GateFault;
use orders::legs::OrderLegs;
use orders::phase::Phase;
use orders::records::{LegList, NoticeTerms, OrderTerms, SeriesTerms};
use strategy::class::Strategy;
use strategy::price::Buffers;

impl<'a> Gate<'a> {
    // A gate at the start of a day, over memory for its tape and its notices.
    pub fn new(tape: &'a mut [TapeLine], notices: &'a mut [Buffers]) -> Gate<'a>
        ensures new { New (state result) }
        ensures tape { (state result).tape_room ≡ length tape.old }
        ensures notices { (state result).notice_room ≡ length notices.old }
    {
        Gate {
            phase: Phase::Pre,
            table: SeriesTable::new(),
            book: Book::new(),
            tape: GrowList::new(tape),
            notices: GrowList::new(notices),
        }
    }

    // Lists a series, and answers its number.
    pub fn series(&mut self, terms: SeriesTerms) -> Result<u16, GateFault>
        ensures answer { result ≡ listing (state self.old) terms }
        ensures after { Changes result (state self.old) (state self.new) (listed_in (state self.old) terms) }
        ensures law { (m : Levels) → LeadsOn (asked.Series terms) (map_ok told.Series result) (state self.old) m (state self.new) m }
    {
        self.list(terms)
    }

    // Posts a notice, and answers its number: it is in force for every check from then on.
    pub fn notice(&mut self, terms: NoticeTerms) -> Result<u8, GateFault>
        ensures answer { result ≡ posting (state self.old) terms }
        ensures after { Changes result (state self.old) (state self.new) (posted_in (state self.old) terms) }
        ensures law { (m : Levels) → LeadsOn (asked.Notice terms) (map_ok told.Notice result) (state self.old) m (state self.new) m }
    {
        self.post(terms)
    }

    // Rings a bell, and answers the units that it cancelled.
    pub fn phase(&mut self, bell: Bell) -> Result<u32, GateFault>
        ensures answer { result ≡ ringing (state self.old) bell }
        ensures after { Changes result (state self.old) (state self.new) (rung_in (state self.old) bell) }
        ensures law { (m : Levels) → LeadsOn (asked.Phase bell) (map_ok (told.Phase bell) result) (state self.old) m (state self.new) m }
    {
        self.ring(bell)
    }

    // Enters an order, and answers its number and class.
    pub fn enter(&mut self, terms: OrderTerms) -> Result<Acceptance, GateFault>
        ensures step { EnterStep (state self.old) terms (map_ok told.Order result) (state self.new) }
        ensures law { (m : Levels) → LeadsOn (asked.Enter terms) (map_ok told.Order result) (state self.old) m (state self.new) m }
    {
        self.take_in(terms)
    }

    // Cancels an order, and answers its open units.
    pub fn cancel(&mut self, number: i32) -> Result<u16, GateFault>
        ensures answer { result ≡ cancelling (state self.old) number }
        ensures after { Changes result (state self.old) (state self.new) (cancelled_in (state self.old) number) }
        ensures law { (m : Levels) → LeadsOn (asked.Cancel number) (map_ok told.Cancel result) (state self.old) m (state self.new) m }
    {
        self.withdraw(number)
    }

    // Works an order: one fill, one line of the tape.
    pub fn work<M: Market>(&mut self, number: i32, market: &mut M) -> Result<Execution, GateFault>
        ensures step { WorkStep (state self.old) (M.levels market.old) number (map_ok told.Work result) (since (state self.old) (state self.new)) (state self.new) (M.levels market.new) }
        ensures law { LeadsOn (asked.Work number) (map_ok told.Work result) (state self.old) (M.levels market.old) (state self.new) (M.levels market.new) }
    {
        self.fill_one(number, market)
    }

    // Fills the lowest-numbered order that work would fill, again and again.
    pub fn sweep<M: Market>(&mut self, market: &mut M) -> Result<Tally, GateFault>
        ensures step { SweepStep (state self.old) (M.levels market.old) (map_ok told.Sweep result) (since (state self.old) (state self.new)) (state self.new) (M.levels market.new) }
        ensures law { LeadsOn asked.Sweep (map_ok told.Sweep result) (state self.old) (M.levels market.old) (state self.new) (M.levels market.new) }
    {
        self.fill_book(market)
    }

    // The net market of some legs as entered, in any phase.
    pub fn net<M: Market>(&self, legs: LegList, market: &M) -> Result<TwoSided<i32>, GateFault>
        ensures { result ≡ netting (state self.now) legs (M.levels market.now) }
    {
        let legs = OrderLegs::try_from(legs)?.as_legs();
        let _ = self.table.resolve(&legs)?;
        Ok(net_market(market, &legs))
    }

    // Makes any of the seven calls.
    pub fn apply<M: Market>(&mut self, call: Call, market: &mut M) -> Result<Reply, GateFault>
        ensures { LeadsOn call result (state self.old) (M.levels market.old) (state self.new) (M.levels market.new) }
    {
        match call {
            Call::Series(terms) => self.series(terms).map(Reply::Series),
            Call::Notice(terms) => self.notice(terms).map(Reply::Notice),
            Call::Phase(bell) => self.phase(bell).map(|units| Reply::Phase(bell, units)),
            Call::Enter(terms) => self.enter(terms).map(Reply::Order),
            Call::Cancel(number) => self.cancel(number).map(Reply::Cancel),
            Call::Work(number) => self.work(number, market).map(Reply::Work),
            Call::Sweep => self.sweep(market).map(Reply::Sweep),
        }
    }
}
