// Classes of legs in many orders, and of legs that are nearly a form.
use crate::sheet::{buy, option, sell};
use std::process::Abort;
use strategy::class::Strategy;
use strategy::leg::{Kind, Leg, Series};
use strategy::legs::Legs;
use strategy::word::Word;

fn is(rt: &impl Abort, legs: Legs<Leg>, class: &str, width: u32, turned: bool) {
    let strategy = Strategy::of(&legs);
    assert_eq!(rt; strategy.class.word(), class);
    assert_eq!(rt; strategy.width, width);
    assert_eq!(rt; strategy.turned, turned);
}

fn call(strike: u32) -> Series {
    option(Kind::Call, strike)
}

fn put(strike: u32) -> Series {
    option(Kind::Put, strike)
}

#[test]
fn box_in_each_of_its_orders(rt: HostRuntime) {
    let legs = [
        buy(1, call(900)),
        sell(1, put(900)),
        sell(1, call(1000)),
        buy(1, put(1000)),
    ];
    let mut orders = 0u32;
    // the orders are the places themselves
    for i in 0..4usize {
        for j in 0..4usize {
            for k in 0..4usize {
                if i != j && i != k && j != k {
                    let l = 6 - i - j - k;
                    is(
                        &rt,
                        Legs::Four([legs[i], legs[j], legs[k], legs[l]]),
                        "box",
                        100,
                        false,
                    );
                    orders = orders.wrapping_add(1);
                }
            }
        }
    }
    assert_eq!(rt; orders, 24);
}

#[test]
fn forms_and_turning(rt: HostRuntime) {
    is(
        &rt,
        Legs::Two([sell(1, call(2500)), buy(1, call(2000))]),
        "vertical",
        500,
        false,
    );
    is(
        &rt,
        Legs::Two([sell(1, call(2000)), buy(1, call(2500))]),
        "vertical",
        500,
        true,
    );
    is(
        &rt,
        Legs::Two([buy(1, put(2500)), sell(1, put(2000))]),
        "vertical",
        500,
        false,
    );
    is(
        &rt,
        Legs::Three([sell(2, put(500)), buy(1, put(600)), buy(1, put(400))]),
        "butterfly",
        100,
        false,
    );
    is(
        &rt,
        Legs::Three([buy(2, put(500)), sell(1, put(600)), sell(1, put(400))]),
        "butterfly",
        100,
        true,
    );
    is(
        &rt,
        Legs::Two([sell(3, put(500)), sell(1, call(400))]),
        "bought",
        0,
        true,
    );
    let later = Series {
        expiry: 33,
        ..call(500)
    };
    is(
        &rt,
        Legs::Two([sell(1, call(500)), buy(1, later)]),
        "calendar",
        0,
        false,
    );
    is(
        &rt,
        Legs::Two([buy(1, call(500)), sell(1, later)]),
        "calendar",
        0,
        true,
    );
}

#[test]
fn near_misses_are_other(rt: HostRuntime) {
    let later = Series {
        expiry: 33,
        ..call(600)
    };
    is(
        &rt,
        Legs::Two([buy(1, call(500)), sell(2, call(600))]),
        "other",
        0,
        false,
    );
    is(
        &rt,
        Legs::Two([buy(1, call(500)), sell(1, put(600))]),
        "other",
        0,
        false,
    );
    is(
        &rt,
        Legs::Two([buy(1, call(500)), sell(1, later)]),
        "other",
        0,
        false,
    );
    is(
        &rt,
        Legs::Three([buy(1, call(400)), sell(2, call(500)), buy(1, call(601))]),
        "other",
        0,
        false,
    );
    is(
        &rt,
        Legs::Three([buy(1, call(400)), sell(1, call(500)), buy(1, call(600))]),
        "other",
        0,
        false,
    );
    is(
        &rt,
        Legs::Four([
            buy(1, call(900)),
            sell(1, put(900)),
            buy(1, call(1000)),
            sell(1, put(1000)),
        ]),
        "other",
        0,
        false,
    );
}
