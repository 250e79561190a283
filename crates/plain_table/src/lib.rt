//! A plain slow program over the table: what each call answers and what it leaves, by looking at every row. Its contract
//! is the definition of what is legal, and faster programs are compared with it.
#![tactic(auto)]

mod copies;
mod lookups;
mod plain;
mod rows;
mod space;

pub use plain::PlainTable;
