//! What is wrong with the code of a game.

use census_failure::{Failure, shown_bytes};
use census_state::Fault;
use oct_code::{Code, CodeError, MAX_DIGITS};
use std::alloc::{AllocError, Global};

/// The failure of several codes, which is that of the first that is none.
pub(crate) fn of_codes(alloc: Global, fault: Fault, codes: &[Vec<u8>]) -> Failure {
    for code in codes {
        if Code::parse(code).is_err() {
            return of_code(alloc, fault, code);
        }
    }
    Failure::from(fault)
}

/// The failure of a code, where it is that.
pub fn of_code(alloc: Global, fault: Fault, code: &[u8]) -> Failure {
    match fault {
        Fault::Code(cause) => Failure::from(fault).found(code_text(alloc, cause, code)),
        _ => Failure::from(fault),
    }
}

// What is wrong with a code.
fn code_text(alloc: Global, cause: CodeError, code: &[u8]) -> Result<String, AllocError> {
    let text = shown_bytes(alloc, code)?;
    match cause {
        CodeError::Form => form_text(alloc, &text, code),
        CodeError::Head => {
            let head = shown_bytes(alloc, code.get(..1).unwrap_or(b""))?;
            format!(in alloc; "{text}: the sign {head} before the point is neither 0 nor 4")
        }
        CodeError::Digit => digit_text(alloc, &text, code),
        CodeError::Long => {
            format!(in alloc; "{text}: over {MAX_DIGITS} digits, those zeros that end it left out")
        }
    }
}

// What is wrong with the form of a code.
fn form_text(alloc: Global, text: &str, code: &[u8]) -> Result<String, AllocError> {
    match code.iter().position(|byte| *byte == b'.') {
        None => format!(in alloc; "{text}: it has no point"),
        Some(at) if at > 1 => format!(in alloc; "{text}: more than one sign before the point"),
        Some(_) => format!(in alloc; "{text}: no digit after the point"),
    }
}

// Which digit of a code is none.
fn digit_text(alloc: Global, text: &str, code: &[u8]) -> Result<String, AllocError> {
    let after = code.iter().skip_while(|byte| **byte != b'.').skip(1);
    for byte in after {
        if !(b'0'..=b'7').contains(byte) {
            let sign = shown_bytes(alloc, &[*byte])?;
            let kind = if byte.is_ascii_digit() {
                "digit"
            } else {
                "sign"
            };
            return format!(in alloc; "{text}: the {kind} {sign} is none of 0 to 7");
        }
    }
    format!(in alloc; "{text}: a sign after the point is none of 0 to 7")
}
