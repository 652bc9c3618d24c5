//! The commands that show what a state says, on a screen and to publish it.
//!
//! Each command stands in one file: its row, from which its help is made, what its words ask for, and what it does with that,
//! where it is no request to a state. Its function `command` reads the words and does it.
//!
//! - `show` and `page` show the catalogue, and `find` a period that it proves; `games` lists games, in columns for a terminal.
//! - `bfile`, `plot`, `json`, `sqlite`, `report` and `site` make of it what others take: a list, a picture, a document, a database,
//!   and pages.
//! - `watched` does what is no request beside a line that says how far it is, or beside advice.
//!
//! What they show is made below `census_core`.
#![tactic(auto)]

pub mod bfile;
pub mod find;
pub mod games;
pub mod json;
pub mod page;
pub mod plot;
pub mod report;
pub mod show;
pub mod site;
pub mod sqlite;
mod watched;
