//! Why two replicas do not meet.

use census_failure::{Failure, quoted, shown};
use census_state::Fault;
use std::alloc::{AllocError, Global};
use std::io::{self, ErrorKind};

/// The failure to listen at the address.
pub fn unbound(alloc: Global, address: &str, error: io::Error) -> Failure {
    if !has_port(address) {
        return portless(alloc, address);
    }
    let failure = of_address(alloc, "cannot listen at", address).because(error);
    match error.kind() {
        ErrorKind::AddrInUse => {
            failure.advise(String::from_str(alloc, "end that program, or take another port"))
        }
        ErrorKind::PermissionDenied => {
            failure.advise(String::from_str(alloc, "take a port from 1024 on"))
        }
        ErrorKind::AddrNotAvailable => failure.advise(String::from_str(
            alloc,
            "take one of this machine: 127.0.0.1 for programs on it, 0.0.0.0 for its network too",
        )),
        _ => failure,
    }
}

/// The failure to find where the address leads.
pub fn unmet(alloc: Global, address: &str, error: io::Error) -> Failure {
    if !has_port(address) {
        return portless(alloc, address);
    }
    of_address(alloc, "cannot find the host of", address)
        .because(error)
        .advise(String::from_str(
            alloc,
            "see how the host is spelled; 127.0.0.1 is this machine",
        ))
}

/// The failure to connect to the address.
pub fn unconnected(alloc: Global, address: &str, error: io::Error) -> Failure {
    let failure = of_address(alloc, "cannot connect to", address).because(error);
    match error.kind() {
        ErrorKind::ConnectionRefused => failure.advise(hub_text(alloc, address)),
        _ => failure.advise(String::from_str(
            alloc,
            "see that the machine is on, and that nothing between blocks the port",
        )),
    }
}

/// The failure to make a socket of this machine at the path.
pub fn unbound_at(alloc: Global, path: &str, error: io::Error) -> Failure {
    let failure = of_address(alloc, "cannot make a socket at", path);
    match error.kind() {
        ErrorKind::AddrInUse => failure
            .found(standing_text(alloc, path))
            .advise(String::from_str(
                alloc,
                "end the program that listens there, or name another path; what stands there is not removed",
            )),
        _ => failure.because(error).advise(String::from_str(
            alloc,
            "name a path in a folder that you may write, of at most 107 bytes",
        )),
    }
}

/// The failure to connect to a socket of this machine.
pub fn unconnected_at(alloc: Global, path: &str, error: io::Error) -> Failure {
    let failure = of_address(alloc, "cannot connect to the socket", path).because(error);
    failure.advise(String::from_str(
        alloc,
        "a hub or serve with --unix has to run there, and its socket to be open to you: ls -l",
    ))
}

/// The failure to take a connection at the address.
pub fn unserved(alloc: Global, address: &str, error: io::Error) -> Failure {
    of_address(alloc, "cannot take a connection at", address).because(error)
}

// The failure of what is done with an address.
fn of_address(alloc: Global, doing: &str, address: &str) -> Failure {
    Failure::about(Fault::Net, address_text(alloc, doing, address))
}

fn address_text(alloc: Global, doing: &str, address: &str) -> Result<String, AllocError> {
    let address = shown(alloc, address)?;
    format!(in alloc; "{doing} {address}")
}

fn standing_text(alloc: Global, path: &str) -> Result<String, AllocError> {
    let path = shown(alloc, path)?;
    format!(in alloc; "cannot make a socket at {path}: something stands there")
}

fn hub_text(alloc: Global, address: &str) -> Result<String, AllocError> {
    let address = quoted(alloc, address)?;
    format!(in alloc; "is a hub running there? census hub STATE {address}")
}

// The failure of an address without a port.
fn portless(alloc: Global, address: &str) -> Failure {
    Failure::from(Fault::Net).found(portless_text(alloc, address))
}

fn portless_text(alloc: Global, address: &str) -> Result<String, AllocError> {
    let address = shown(alloc, address)?;
    format!(in alloc;
        "{address} has no port: an address ends with a colon and a number up to 65535"
    )
}

// Whether the address ends with a port.
fn has_port(address: &str) -> bool {
    match address.rsplit_once(':') {
        Some((_, port)) => port.parse::<u16>().is_ok(),
        None => false,
    }
}
