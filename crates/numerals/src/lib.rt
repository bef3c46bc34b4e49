//! Reads numbers from texts of decimal digits: whole numbers, and decimals with a sign and a
//! fraction.
#![tactic(auto)]

mod decimals;
mod eight;
mod reading;

pub use crate::decimals::Decimal;
pub use crate::eight::{are_digits, eight_digits};
pub use crate::reading::{decimal, digits};
