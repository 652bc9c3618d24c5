//! A fault in a person's words.
//!
//! A command that ends early writes the line of its `Fault`, which never changes, so that programs may read it. For whoever
//! sits before a terminal, or asks, more is said behind that line: what was wrong with which file, word or address, and what
//! to do.
//!
//! - `Failure` is a fault with what is known of it beyond its name, and `Reason` what was wrong. What is known is found by those
//!   who read and write files, and by `census_diagnosis`.
//! - `fault_words` is the one table of what each fault means, in general. `faults` lists them, and `name_of` and `words_of` say
//!   what each is called and what is said of it, for the manual; `faults_text` is what `census explain` prints, and `fault_names`
//!   the words that it takes, for shells.
//! - `explanation` is what stands behind the line of a fault, and `Advice` writes it where an `Audience` wants it, beside
//!   warnings.
//! - `shown` and `shown_bytes` show words of others, cut and escaped, and `escaped`, `escaped_lines` and `quoted` whole ones;
//!   `INPUT_NAME` and `OUTPUT_NAME` name streams.
#![tactic(auto)]

mod advice;
mod explained;
mod failure;
mod fault_words;
mod showing;
mod stream_names;

pub use advice::{Advice, Audience, foreign_text};
pub use explained::{explanation, fault_names, faults_text, name_of};
pub use failure::{Failure, Reason};
pub use fault_words::{FaultWords, faults, words_of};
pub use showing::{escaped, escaped_lines, quoted, shown, shown_bytes};
pub use stream_names::{INPUT_NAME, OUTPUT_NAME};
