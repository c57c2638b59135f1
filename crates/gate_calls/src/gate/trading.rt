// Work and sweep: what the resting orders get from a market.
ghost use Rattle.std.specs.Prelude.{◌≡◌, true, false, pos, IfSome, Some, Ok};
ghost use Rattle.orders.specs.Checks.{map_ok};
ghost use Rattle.book.specs.Resting.{rest, resting_of};
ghost use Rattle.fills.specs.Fillings.{filling_of};
ghost use Rattle.days.specs.State.{line_of, tape_full, lookup};
ghost use Rattle.days.specs.Works.{is_open, line_for};
ghost use Rattle.days.specs.declared.reply.Reply.TheVariants as told;
ghost use Rattle.days.specs.History.{since, WorkStep, SweepStep};
ghost use Rattle.gate_calls.specs.Model.{state};
ghost use Rattle.gate_calls.specs.Promises.{quoted_for, line_with, FirstMatch, Settles, Sweeping};

use super::{Gate, MOST_LINES};
use book::order::RestingOrder;
use days::reply::{Execution, Tally};
use days::tape::TapeLine;
use fills::fill::Fill;
use fills::quotation::{quotation, taken_side};
use market::takes::take_legs;
use market::trading::Market;
use orders::fault::GateFault;
use orders::outcome::Outcome;
use orders::phase::Phase;

// A resting order and the fill that it would get.
#[derive(Clone, Copy)]
struct MatchedOrder {
    order: RestingOrder,
    fill: Fill,
}

// The tape line of a fill under a notice.
fn tape_line(order: &RestingOrder, fill: Fill, notice: usize) -> TapeLine
    ensures { line_of result ≡ line_for (resting_of order.now) notice (filling_of fill) }
{
    TapeLine {
        order: order.number,
        class: order.terms.class,
        side: order.terms.side,
        units: fill.units,
        net: fill.net,
        notice,
        legs: fill.legs,
    }
}

impl Gate<'_> {
    pub(super) fn is_open(&self) -> bool
        ensures { result ≡ is_open (state self.now).phase }
    {
        self.phase == Phase::Open
    }

    pub(super) fn is_tape_full(&self) -> bool
        ensures value { result ≡ tape_full (state self.now) }
    {
        self.tape.is_full() || self.tape.len() >= MOST_LINES
    }

    // The resting order that a caller's number names.
    pub(super) fn resting(&self, number: i32) -> Option<RestingOrder>
        ensures is { rest result ≡ lookup (state self.now).order number }
        ensures named { IfSome result (λ o. number ≡ pos o.number) }
    {
        let number = u16::try_from(number).ok()?;
        self.book.find(number)
    }

    // What work does with a resting order, a full tape set aside.
    pub(super) fn quote<M: Market>(
        &self,
        order: &RestingOrder,
        market: &M,
    ) -> Result<Fill, GateFault>
        ensures { map_ok filling_of result ≡ quoted_for (state self.now) (M.levels market.now) order.now }
    {
        quotation(market, &order.terms, order.remaining, self.in_force())
    }

    // Takes a fill from the market and from its order, and writes its line.
    pub(super) fn settle<M: Market>(&mut self, order: RestingOrder, fill: Fill, market: &mut M)
        requires held { (state self.old).order order.number ≡ Some (resting_of order) }
        requires fits { quoted_for (state self.old) (M.levels market.old) order ≡ Ok (filling_of fill) }
        requires room { tape_full (state self.old) ≡ false }
        ensures { Settles (state self.old) (M.levels market.old) (line_with (state self.old) order fill) (state self.new) (M.levels market.new) }
    {
        let side = taken_side(order.terms.side);
        // Not refused: every leg has these units in its first level.
        let _ = take_legs(market, &order.terms.legs.as_legs(), side, fill.units);
        self.book.reduce(order.number, fill.units);
        // Not refused: there is room.
        let _ = self.tape.push(tape_line(&order, fill, self.notices.len()));
    }

    pub(super) fn fill_one<M: Market>(
        &mut self,
        number: i32,
        market: &mut M,
    ) -> Result<Execution, GateFault>
        ensures { WorkStep (state self.old) (M.levels market.old) number (map_ok told.Work result) (since (state self.old) (state self.new)) (state self.new) (M.levels market.new) }
    {
        if !self.is_open() {
            return Err(GateFault::Phase);
        }
        let order = self.resting(number).ok_or(GateFault::NotResting)?;
        if self.is_tape_full() {
            return Err(GateFault::TapeFull);
        }
        let fill = self.quote(&order, market)?;
        self.settle(order, fill, market);
        Ok(fill.into())
    }

    // The lowest-numbered order that work would fill, a full tape set aside, with its fill.
    fn first_match<M: Market>(&self, market: &M) -> Option<MatchedOrder>
        ensures { FirstMatch (state self.now) (M.levels market.now) result }
    {
        let mut above = 0;
        while let Some(order) = self.book.order_above(above) {
            if let Ok(fill) = self.quote(&order, market) {
                return Some(MatchedOrder { order, fill });
            }
            above = order.number;
        }
        None
    }

    pub(super) fn fill_book<M: Market>(&mut self, market: &mut M) -> Result<Tally, GateFault>
        ensures { SweepStep (state self.old) (M.levels market.old) (map_ok told.Sweep result) (since (state self.old) (state self.new)) (state self.new) (M.levels market.new) }
    {
        if !self.is_open() {
            return Err(GateFault::Phase);
        }
        Ok(self.fill_all(market))
    }

    // Fills the lowest-numbered order that would fill, again and again.
    fn fill_all<M: Market>(&mut self, market: &mut M) -> Tally
        ensures { Sweeping (state self.old) (M.levels market.old) result (state self.new) (M.levels market.new) }
    {
        let mut lines = 0;
        let mut units = 0;
        while let Some(first) = self.first_match(market) {
            if self.is_tape_full() {
                return Tally {
                    lines,
                    units,
                    outcome: Outcome::Full,
                };
            }
            self.settle(first.order, first.fill, market);
            lines += 1;
            units += u32::from(first.fill.units);
        }
        Tally {
            lines,
            units,
            outcome: Outcome::Done,
        }
    }
}
