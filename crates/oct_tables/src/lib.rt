//! Tables in HTML, and that of the nim-values of a game.
//!
//! - `append_table` appends a table of rows under the heads of its columns; a table with no rows is left out. Who writes a table
//!   as its rows are made begins it by `append_table_head` and ends it by `append_table_end`. `Rows` is a way to write rows.
//! - `append_values_tables` appends the tables of the known nim-values of a game, as many as `Shown` says.
#![tactic(auto)]

mod tables;
mod values_table;

pub use tables::{Rows, append_table, append_table_end, append_table_head};
pub use values_table::{append_values_tables, front_values};
