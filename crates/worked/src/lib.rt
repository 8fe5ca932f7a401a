// What the programs of worked examples share: bytes to lend, and lines to print.
#![tactic(auto)]

mod lent;
pub mod tell;

pub use lent::Lent;
