//! Sessions over readers and writers: in memory, slow, failing, and over the loopback.

use super::*;
use crate::answers::{check, check_equal};
use std::cmp::Ordering;
use std::io::{self, ErrorKind, Read, Write};
use std::net::{TcpListener, TcpStream};

// The answer of the session of a new replica of the side over the reader and the writer, and the replica after it.
fn drives<R: Read, W: Write>(
    rt: &(impl Abort + AllocGlobal),
    side: &Side,
    reader: &mut R,
    writer: &mut W,
) -> (Result<(), SyncError>, Replica<Global>) {
    let mut replica = new_replica(rt, rt.alloc(), side.author);
    let taken = replica.take(&side.holds);
    check(rt, taken.is_ok(), format_args!("{}: {taken:?}", side.name));
    let answer = drive(rt.alloc(), side.role, &mut replica, reader, writer);
    (answer, replica)
}

/// Gives bytes, at most so many a read, and fails at the read after so many others.
#[derive(Clone, Copy)]
struct Source<'a> {
    bytes: &'a [u8],
    most: usize,
    left: u32,
}

impl Read for Source<'_> {
    fn read(&mut self, buf: &mut [u8]) -> io::Result<usize> {
        if self.left == 0 {
            return Err(io::Error::from(ErrorKind::BrokenPipe));
        }
        self.left -= 1;
        let count = self.most.min(self.bytes.len()).min(buf.len());
        let (front, rest) = self.bytes.split_at(count);
        buf[..count].copy_from_slice(front);
        self.bytes = rest;
        Ok(count)
    }
}

/// Takes the bytes that it expects, at most so many a write, and fails or takes none at the write after so many others. It
/// notes whether others came, and whether all that it took was flushed; it may fail to flush.
#[derive(Clone, Copy)]
struct Sink<'a> {
    expected: &'a [u8],
    most: usize,
    left: u32,
    fails: bool,
    flushes: bool,
    is_right: bool,
    is_flushed: bool,
}

impl Write for Sink<'_> {
    fn write(&mut self, buf: &[u8]) -> io::Result<usize> {
        if self.left == 0 {
            return if self.fails {
                Err(io::Error::from(ErrorKind::BrokenPipe))
            } else {
                Ok(0)
            };
        }
        self.left -= 1;
        let count = self.most.min(buf.len()).min(self.expected.len());
        let (front, rest) = self.expected.split_at(count);
        if count == 0 || front != &buf[..count] {
            self.is_right = false;
            return Ok(0);
        }
        self.expected = rest;
        self.is_flushed = false;
        Ok(count)
    }

    fn flush(&mut self) -> io::Result<()> {
        if !self.flushes {
            return Err(io::Error::from(ErrorKind::BrokenPipe));
        }
        self.is_flushed = true;
        Ok(())
    }
}

// All that comes to the side.
fn source_of(side: &Side) -> Source<'_> {
    Source {
        bytes: &side.comes,
        most: usize::MAX,
        left: u32::MAX,
    }
}

// All that the side sends.
fn sink_of(side: &Side) -> Sink<'_> {
    Sink {
        expected: &side.sends,
        most: usize::MAX,
        left: u32::MAX,
        fails: false,
        flushes: true,
        is_right: true,
        is_flushed: true,
    }
}

/// A source, a sink, and what a side is answered over them.
struct Case<'a> {
    source: Source<'a>,
    sink: Sink<'a>,
    answer: Result<(), SyncError>,
}

// The case of this number: slow devices, reads and writes that fail or take no byte, and inputs that end early. A client
// reads six heads and payloads and a server five, since an end has no payload; both write twice.
fn case_of(side: &Side, number: u32) -> Case<'_> {
    let mut source = source_of(side);
    let mut sink = sink_of(side);
    let reads = match side.role {
        Role::Client | Role::ClientOfAll | Role::Giver => 6,
        Role::Server => 5,
    };
    let answer = match number {
        0 => {
            source.most = 1;
            sink.most = 1;
            Ok(())
        }
        1 => {
            source.left = reads;
            sink.left = 2;
            Ok(())
        }
        2..=5 => {
            sink.left = number % 2;
            sink.fails = number < 4;
            Err(SyncError::Write)
        }
        6..=11 => {
            source.left = (number - 6).min(reads - 1);
            Err(SyncError::Read)
        }
        _ => {
            let end = (number - 12) as usize;
            source.bytes = &side.comes[..end.min(side.comes.len().saturating_sub(1))];
            Err(SyncError::Cut)
        }
    };
    Case {
        source,
        sink,
        answer,
    }
}

// The side is answered as it should be over the case, and all that it wrote was flushed before the next read. Where it is
// done, it shows what it should and all is read and written.
fn is_answered(rt: &(impl Abort + AllocGlobal), side: &Side, number: u32) {
    let Case {
        mut source,
        mut sink,
        answer: wanted,
    } = case_of(side, number);
    let (answer, replica) = drives(rt, side, &mut source, &mut sink);
    check_equal(
        rt,
        answer,
        wanted,
        format_args!("{} in case {number}", side.name),
    );
    check(
        rt,
        sink.is_flushed || answer == Err(SyncError::Write),
        format_args!("{} leaves bytes in the writer in case {number}", side.name),
    );
    if answer.is_ok() {
        let left = (source.bytes.len(), sink.expected.len());
        check_equal(
            rt,
            left,
            (0, 0),
            format_args!("bytes left in case {number} of {}", side.name),
        );
        shows(rt, rt.alloc(), &replica, side.shows, side.name);
    }
}

// A client whose reader fails after the server's delta has taken it in, and sent its clock alone.
fn keeps_what_came(rt: &(impl Abort + AllocGlobal), side: &Side) {
    let mut source = source_of(side);
    let mut sink = sink_of(side);
    source.left = 4;
    let (answer, replica) = drives(rt, side, &mut source, &mut sink);
    check_equal(rt, answer, Err(SyncError::Read), side.name);
    shows(rt, rt.alloc(), &replica, side.shows, side.name);
    let sent = side.sends.len().saturating_sub(sink.expected.len());
    check_equal(
        rt,
        sent,
        side.first,
        format_args!("bytes that {} sent", side.name),
    );
}

// The side is answered `Write` where its writer fails to flush.
fn is_refused_unflushed(rt: &(impl Abort + AllocGlobal), side: &Side) {
    let mut source = source_of(side);
    let mut sink = sink_of(side);
    sink.flushes = false;
    let (answer, _) = drives(rt, side, &mut source, &mut sink);
    check_equal(rt, answer, Err(SyncError::Write), side.name);
}

// The side, where the last of what it sends is left to the caller, is done, and has written all but that, which are so many
// bytes.
fn leaves_its_last_frame(rt: &(impl Abort + AllocGlobal), side: &Side, last: usize) {
    let mut replica = new_replica(rt, rt.alloc(), side.author);
    let taken = replica.take(&side.holds);
    check(rt, taken.is_ok(), format_args!("{}: {taken:?}", side.name));
    let (mut source, mut sink) = (source_of(side), sink_of(side));
    let answer = converse(rt.alloc(), side.role, &mut replica, &mut source, &mut sink);
    let owed = answer.expect(rt, side.name);
    check_equal(
        rt,
        owed.as_slice(),
        sink.expected,
        format_args!("{} owes", side.name),
    );
    check_equal(
        rt,
        owed.len(),
        last,
        format_args!("bytes that {} owes", side.name),
    );
    shows(rt, rt.alloc(), &replica, side.shows, side.name);
}

#[test]
fn the_last_frame_is_left_to_the_caller(rt: HostRuntime) {
    leaves_its_last_frame(&rt, &Side::client(&rt), 0);
    leaves_its_last_frame(&rt, &Side::client_of_all(&rt), 0);
    leaves_its_last_frame(&rt, &Side::giver(&rt), 0);
    leaves_its_last_frame(&rt, &Side::server(&rt), 5);
}

#[test]
fn devices_may_be_slow_or_end_or_fail(rt: HostRuntime) {
    for role in [Role::Client, Role::ClientOfAll, Role::Giver, Role::Server] {
        let side = Side::of(&rt, role);
        for number in 0..92u32 {
            is_answered(&rt, &side, number);
        }
        is_refused_unflushed(&rt, &side);
    }
    keeps_what_came(&rt, &Side::client(&rt));
}

// What the side's session answers where so many requests for memory are granted, and how many operations are then held.
fn drives_short<A: Allocator + Copy>(
    rt: &(impl Abort + AllocGlobal),
    heap: &Metered<Global>,
    alloc: A,
    grants: u64,
    side: &Side,
    devices: (&mut Source, &mut Sink),
) -> (Result<(), SyncError>, usize) {
    let (source, sink) = devices;
    let mut replica = new_replica(rt, alloc, side.author);
    let taken = replica.take(&side.holds);
    check(rt, taken.is_ok(), format_args!("{}: {taken:?}", side.name));
    heap.arm(grants);
    let answer = drive(alloc, side.role, &mut replica, source, sink);
    heap.arm(u64::MAX);
    (answer, replica.len())
}

// Whether so many bytes of the exchange may have been read and written, and so many operations be held, where memory ends:
// the clock takes 17 bytes, and the ends after the delta the last 10 of a client, the last 5 of a server. What a frame is
// answered is owed while it comes.
fn is_cut_short(side: &Side, read: usize, written: usize, held: usize) -> bool {
    let (ends, owed) = match side.role {
        Role::Server if read <= 17 => (5, 0),
        Role::Server => (5, side.first),
        Role::Client | Role::ClientOfAll | Role::Giver => match read {
            0 => (10, 0),
            _ if read < side.comes.len() => (10, side.first),
            _ => (10, side.sends.len()),
        },
    };
    let all = held_by(side.role);
    let is_held = match read.saturating_add(ends).cmp(&side.comes.len()) {
        Ordering::Less => held == 1,
        Ordering::Equal => held == 1 || held == all,
        Ordering::Greater => held == all,
    };
    is_held && written == owed
}

// The driven side leaves what it promises where each request for memory is refused in turn, and is done in the end.
fn keeps_its_promise<A: Allocator + Copy>(
    rt: &(impl Abort + AllocGlobal),
    heap: &Metered<Global>,
    alloc: A,
    side: &Side,
) {
    for grants in 0..200u64 {
        let (mut source, mut sink) = (source_of(side), sink_of(side));
        let devices = (&mut source, &mut sink);
        let (answer, held) = drives_short(rt, heap, alloc, grants, side, devices);
        check(
            rt,
            sink.is_right,
            format_args!("{} wrote other bytes with {grants} requests", side.name),
        );
        let read = side.comes.len().saturating_sub(source.bytes.len());
        let written = side.sends.len().saturating_sub(sink.expected.len());
        if answer == Ok(()) {
            check(rt, grants > 0, format_args!("{} took no memory", side.name));
            let all = (side.sends.len(), held_by(side.role));
            check_equal(rt, (written, held), all, side.name);
            return;
        }
        check_equal(rt, answer, Err(SyncError::OutOfMemory), side.name);
        check(
            rt,
            is_cut_short(side, read, written, held),
            format_args!(
                "{} read {read} bytes, wrote {written} and holds {held} with {grants} requests",
                side.name
            ),
        );
    }
    panic!(rt; "{} is refused at 200 requests", side.name);
}

#[test]
fn a_driver_writes_nothing_more_where_memory_ends(rt: HostRuntime) {
    let heap = Metered::new(rt.alloc());
    for role in [Role::Client, Role::ClientOfAll, Role::Giver, Role::Server] {
        keeps_its_promise(&rt, &heap, &heap, &Side::of(&rt, role));
    }
}

/// Gives one byte a read: the first bytes of a clock frame of the greatest length, and then zeros without end.
#[derive(Clone, Copy)]
struct Trickle {
    given: u64,
}

impl Read for Trickle {
    fn read(&mut self, buf: &mut [u8]) -> io::Result<usize> {
        if buf.is_empty() {
            return Ok(0);
        }
        buf[0] = match self.given {
            1 => 0x10,
            4 => 1,
            _ => 0,
        };
        self.given = self.given.wrapping_add(1);
        Ok(1)
    }
}

#[test]
fn too_many_reads_are_refused(rt: HostRuntime) {
    let side = Side::server(&rt);
    let mut reader = Trickle { given: 0 };
    let mut sink = sink_of(&side);
    let (answer, _) = drives(&rt, &side, &mut reader, &mut sink);
    check_equal(&rt, answer, Err(SyncError::Turns), "the answer");
    check_equal(&rt, reader.given, u64::from(MAX_READS), "reads");
}

/// The two ends of a connection.
#[derive(Drop)]
struct Ends {
    near: TcpStream,
    far: TcpStream,
}

// A connection over the loopback.
fn connect(rt: &HostRuntime) -> io::Result<Ends> {
    let listener = TcpListener::bind(rt, "127.0.0.1:0")?;
    let near = TcpStream::connect(rt, listener.local_addr()?)?;
    let (far, _) = listener.accept()?;
    Ok(Ends { near, far })
}

// The side, driven over the near end, takes what comes from the far one, where all that it sends is read.
fn is_driven_between(rt: &(impl Abort + AllocGlobal), ends: &Ends, side: &Side) {
    let mut far = &ends.far;
    let mut reader = &ends.near;
    let mut writer = &ends.near;
    check(rt, far.write_all(&side.comes).is_ok(), "nothing comes");
    let (answer, replica) = drives(rt, side, &mut reader, &mut writer);
    check_equal(rt, answer, Ok(()), side.name);
    shows(rt, rt.alloc(), &replica, side.shows, side.name);
    let mut came = [0; 128];
    let came = &mut came[..side.sends.len().min(128)];
    check(rt, far.read_exact(came).is_ok(), "nothing goes");
    check_equal(
        rt,
        &*came,
        side.sends.as_slice(),
        format_args!("{} sends", side.name),
    );
}

// Both sides over one connection.
#[test]
fn sides_are_driven_over_the_loopback(rt: HostRuntime) {
    let ends = connect(&rt).ok().expect(&rt, "a connection");
    for role in [Role::Client, Role::ClientOfAll, Role::Giver, Role::Server] {
        is_driven_between(&rt, &ends, &Side::of(&rt, role));
    }
}
