// What a strategy of two to four option legs is, what it can be worth, and what the price protections say of its prices.
#![tactic(auto)]

mod any_order;
pub mod class;
pub mod leg;
pub mod legs;
pub mod price;
pub mod word;
