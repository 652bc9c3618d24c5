//! What the program asks of the machine that it runs on.

use std::fs::File;
use std::net::{Net, TcpListener, TcpStream};
use std::rt::Files;
use std::time::Clock;

/// Files, memory, connections and the time. A call at a type that is known, as the program's own, has no proof where this is
/// its bound; so what others call, `run` and `run_called`, writes it out.
pub trait System: Files<File = File>
    + AllocGlobal
    + Net<Stream = TcpStream, Listener = TcpListener>
    + Clock
    + Clone
    + Drop {}

impl<R> System for R
where
    R: Files<File = File>
        + AllocGlobal
        + Net<Stream = TcpStream, Listener = TcpListener>
        + Clock
        + Clone
        + Drop,
{}
