// Quotes and levels with raw numbers, whose ranges are not checked yet.
use crate::quote::QuoteSide;

#[derive(Clone, Copy)]
pub struct QuoteTerms {
    pub series: i32,
    pub bid_price: i32,
    pub bid_size: i32,
    pub offer_price: i32,
    pub offer_size: i32,
}

#[derive(Clone, Copy)]
pub struct LevelTerms {
    pub series: i32,
    pub side: QuoteSide,
    pub price: i32,
    pub size: i32,
}
