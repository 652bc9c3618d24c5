//! A record as a script in SQL, from which SQLite makes a database with a table for each kind of thing.
//!
//!     write_sql(&said, &mut text)?; // sqlite3 table.db <text
//!
//! - `write_sql` writes the script of all of a record. Each game is built and written before the next.
//! - `laws` says that a text of others ends no literal.
//!
//! `specs/Script` says which rows each table has, and `specs/Cells` how a row is spelled.
#![tactic(auto)]

mod cell;
pub mod laws;
mod rows;
mod schema;
mod script;

pub use script::write_sql;
