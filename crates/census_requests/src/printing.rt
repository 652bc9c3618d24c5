//! What a command prints when it is done.

use census_core::Reply;
use census_failure::{Failure, OUTPUT_NAME};
use census_files::check_length;
use std::alloc::Global;
use std::io::Write;
use written::write_out;

/// Prints the text of a command that is done, unless nothing is to be said.
pub fn print_unless<O: Write>(is_quiet: bool, text: &[u8], output: &mut O) -> Result<(), Failure> {
    if is_quiet {
        return Ok(());
    }
    Ok(write_out(output, text)?)
}

/// Says on this stream that a session is done whose output is the session's, unless nothing is to be said.
pub fn tell_done<E: Write>(is_quiet: bool, errors: &mut E) {
    if !is_quiet {
        let _ = write_out(errors, b"done\n");
    }
}

/// Writes the file of a reply to standard output, and nothing else.
pub fn print_file<O: Write>(alloc: Global, reply: &Reply, output: &mut O) -> Result<(), Failure> {
    match &reply.file {
        Some(bytes) => {
            check_length(alloc, bytes, OUTPUT_NAME)?;
            Ok(write_out(output, bytes)?)
        }
        None => Ok(()),
    }
}
