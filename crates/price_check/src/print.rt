// Posts the quotes of a row of the sheet, and prints what the price check says of it.
use crate::sheet::{Price, QuotedLeg, Row};
use anyhow::anyhow;
use market::leg::TradedLeg;
use market::net::net_market;
use market::quote::{QuoteSide, TwoSided};
use market::terms::QuoteTerms;
use market::trading::Market;
use orders::fault::GateFault;
use std::{fmt, io};
use strategy::class::Strategy;
use strategy::leg::{Kind, Side};
use strategy::legs::Legs;
use strategy::price::{check_execution, check_limit};
use strategy::word::Word;
use venues::board::Board;

// A number that may be absent.
#[derive(Clone, Copy)]
struct OrNone<T>(Option<T>);

impl<T: fmt::Display> fmt::Display for OrNone<T> {
    fn fmt<W: fmt::Write>(&self, f: &mut fmt::Formatter<W>) -> fmt::Result {
        match &self.0 {
            Some(cents) => write!(f, "{cents}"),
            None => f.write_str("none"),
        }
    }
}

// Functions: another crate's Side and Kind can have no Display of this one.
fn side_word(side: Side) -> &'static str {
    match side {
        Side::Buy => "buy",
        Side::Sell => "sell",
    }
}

fn kind_word(kind: Kind) -> &'static str {
    match kind {
        Kind::Call => "call",
        Kind::Put => "put",
    }
}

// The leg as it trades.
fn traded(quoted: QuotedLeg) -> TradedLeg {
    TradedLeg {
        side: quoted.leg.side,
        ratio: quoted.leg.ratio,
        series: quoted.series,
    }
}

fn post_quotes(board: &mut Board, legs: &Legs<QuotedLeg>) -> anyhow::Result<()> {
    for quoted in legs.as_slice() {
        let terms = QuoteTerms {
            series: i32::from(quoted.series),
            bid_price: quoted.bid,
            bid_size: 10,
            offer_price: quoted.offer,
            offer_size: 10,
        };
        if board.quote(terms).is_err() {
            return Err(anyhow!("a quote of the sheet is refused"));
        }
    }
    Ok(())
}

fn leg_price(board: &Board, series: u8, side: QuoteSide) -> OrNone<u16> {
    OrNone(
        board
            .best(usize::from(series), side)
            .map(|level| level.price),
    )
}

fn print_legs(rt: &HostRuntime, board: &Board, legs: &Legs<QuotedLeg>) -> io::Result<()> {
    for quoted in legs.as_slice() {
        let leg = quoted.leg;
        let side = side_word(leg.side);
        let ratio = leg.ratio;
        let kind = kind_word(leg.series.kind);
        let strike = leg.series.strike;
        let expiry = leg.series.expiry;
        let bid = leg_price(board, quoted.series, QuoteSide::Bid);
        let offer = leg_price(board, quoted.series, QuoteSide::Offer);
        println!(rt;
            "  {side} {ratio} {kind}, strike {strike}, expiry {expiry}: bid {bid}, offer {offer}"
        )?;
    }
    Ok(())
}

fn print_values(rt: &HostRuntime, row: &Row, net: TwoSided<i32>) -> io::Result<()> {
    let legs = row.legs();
    let strategy = Strategy::of(&legs);
    let class = strategy.class.word();
    let entered = if strategy.turned {
        "turned"
    } else {
        "as entered"
    };
    println!(rt; "  class {class}, {entered}")?;
    let bid = OrNone(net.bid);
    let offer = OrNone(net.offer);
    println!(rt; "  net market {bid} to {offer}")?;
    let minimum = OrNone(strategy.minimum(&legs, row.buffers));
    let maximum = OrNone(strategy.maximum(row.buffers));
    println!(rt; "  Minimum {minimum}, Maximum {maximum}")
}

fn print_limit(rt: &HostRuntime, row: &Row, side: Side, limit: i32) -> io::Result<()> {
    let word = side_word(side);
    match check_limit(&row.legs(), side, limit, row.buffers).refusal {
        Some(refusal) => {
            let number = refusal.number();
            println!(rt; "  {word}, limit {limit}: refused, {number}")
        }
        None => println!(rt; "  {word}, limit {limit}: passes"),
    }
}

fn print_at_market(rt: &HostRuntime, row: &Row, side: Side, net: Option<i32>) -> io::Result<()> {
    let word = side_word(side);
    let Some(price) = net else {
        return println!(rt; "  {word} at the market: no net price");
    };
    if check_execution(&row.legs(), side, price, row.buffers).prevented {
        let number = GateFault::Prevented.number();
        println!(rt; "  {word} at the market, {price}: prevented, {number}")
    } else {
        println!(rt; "  {word} at the market, {price}: passes")
    }
}

pub fn print_row(rt: &HostRuntime, board: &mut Board, row: &Row) -> anyhow::Result<()> {
    post_quotes(board, &row.quoted)?;
    println!(rt; "{}", row.title)?;
    print_legs(rt, board, &row.quoted)?;
    let net = net_market(board, &row.quoted.map(traded));
    print_values(rt, row, net)?;
    for (side, price) in row.prices {
        match (side, price) {
            (_, Price::Limit(limit)) => print_limit(rt, row, *side, *limit)?,
            (Side::Buy, Price::AtMarket) => print_at_market(rt, row, *side, net.offer)?,
            (Side::Sell, Price::AtMarket) => print_at_market(rt, row, *side, net.bid)?,
        }
    }
    Ok(())
}
