//! The public calls of the program, each under its name and with its arguments in their order, and each
//! refusal by its name: what is renamed, or takes its arguments otherwise, no longer compiles. What the calls do is tested
//! beside this.

use crate::answers::check_equal;
use census_core::{Fault, ImportError, Reply, Request, fold_lines, import_block, number, perform};
use oct_ops::Block;
use serde_json::Value;
use std::alloc::Global;

// The name of why a JSON value is no block.
fn import_refusal(error: ImportError) -> &'static str {
    match error {
        ImportError::Shape => "Shape",
        ImportError::Code => "Code",
        ImportError::Start => "Start",
        ImportError::Values => "Values",
        ImportError::Empty => "Empty",
        ImportError::TooMany => "TooMany",
        ImportError::PastLimit => "PastLimit",
        ImportError::OutOfMemory => "OutOfMemory",
    }
}

// The name of a command; those that stand beside these have names of our own.
fn request_name(request: &Request) -> &'static str {
    match request {
        Request::Init { id: _ } => "Init",
        Request::Import => "Import",
        Request::Compute { code: _, count: _ } => "Compute",
        Request::Period {
            code: _,
            e: _,
            p: _,
        } => "Period",
        Request::Note { name: _, text: _ } => "Note",
        Request::Unnote { name: _ } => "Unnote",
        Request::Merge => "Merge",
        Request::Delta => "Delta",
        Request::Value {
            code: _,
            heaps: _,
            ..
        } => "Value",
        Request::Page { number: _ } => "Page",
        Request::Show => "Show",
        _ => "another",
    }
}

// The name of a fault, likewise.
fn fault_name(fault: Fault) -> &'static str {
    match fault {
        Fault::Code(_) => "Code",
        Fault::Load(_) => "Load",
        Fault::Json => "Json",
        Fault::Import(_) => "Import",
        Fault::Compute(_) => "Compute",
        Fault::Period(_) => "Period",
        Fault::Note(_) => "Note",
        Fault::Removal(_) => "Removal",
        Fault::Issue(_) => "Issue",
        Fault::Merge(_) => "Merge",
        Fault::Zero => "Zero",
        Fault::NoPage => "NoPage",
        Fault::TooMany => "TooMany",
        Fault::Sync(_) => "Sync",
        Fault::Number => "Number",
        Fault::File => "File",
        Fault::Exists => "Exists",
        Fault::TooLong => "TooLong",
        Fault::Read => "Read",
        Fault::Write => "Write",
        Fault::Net => "Net",
        Fault::OutOfMemory => "OutOfMemory",
        _ => "another",
    }
}

#[test]
fn commands(rt: HostRuntime) {
    let alloc = rt.alloc();
    let request = Request::Init { id: 7 };
    check_equal(&rt, request_name(&request), "Init", "the name of a request");
    let reply: Result<Reply, Fault> = perform(alloc, &request, b"", b"");
    let Ok(Reply { state, file, text }) = reply else {
        panic!(rt; "no state");
    };
    check_equal(
        &rt,
        (state.is_some(), file.is_some()),
        (true, false),
        "state and file",
    );
    check_equal(&rt, text.as_slice(), b"author 7\n".as_slice(), "the text");
    let refused = perform(alloc, &Request::Show, b"", b"").err();
    check_equal(
        &rt,
        refused.map(fault_name),
        Some("Load"),
        "a state of no byte",
    );
}

#[test]
fn lines_and_words(rt: HostRuntime) {
    let alloc = rt.alloc();
    let mut out = Vec::new(alloc);
    let folded: Result<u64, Fault> = fold_lines(alloc, &mut &b"zz\n"[..], &mut out);
    check_equal(&rt, folded, Ok(1), "refused lines");
    let block: Result<Block<Global>, ImportError> = import_block(alloc, &Value::Null);
    check_equal(
        &rt,
        block.err().map(import_refusal),
        Some("Shape"),
        "a block of null",
    );
    let word: Option<u64> = number("007", 4_294_967_295);
    check_equal(&rt, word, Some(7), "the number");
}
