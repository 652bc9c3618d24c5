//! What the manual says besides the help, as roff.

/// What stands before the commands.
pub(crate) const DESCRIPTION: &str = r#".SH DESCRIPTION
An octal game is played on heaps by a code such as 0.77 (Kayles); its nim-sequence lists the
nim-value of each heap size.
.B census
keeps what a group of people says of them, and proves or refutes each claim, or shows it as pending.
.PP
An
.I operation
is one thing that somebody says: a block of values, a claim of a period, a note, or that notes are taken back. To
.I issue
it is to say it under one's own number, the
.IR author .
The first operation of author 2 is 2.1. A
.I state
is the file of one person, with their number and all operations that they issued or took in. A
.I delta
is a file, or a line of hexadecimal text, with some operations and nothing else. The
.I catalogue
says what follows from the operations of a state. States exchange what is new by deltas or over TCP,
in any order and as often as
one likes; states with the same operations print the same bytes.
.PP
.I CODE
is a head 0 or 4 (none means 0), a point, and digits 0 to 7, at most 16 when zeros at the end are dropped.
.I COUNT E P ID NUMBER
are whole numbers of at most 4294967295 (the
.I COUNT
of
.B search
of at most 4294967296) and
.I HEAP
is one of at most 18446744073709551615, each of one or more digits.
Where a file is read or written beside a state, the word \- is standard input or output;
\&./\- is a file of that name. Standard input is read first.
The values of a block lie within the heaps 0 to 65535. The last page of a catalogue has the lines that are left.
.B find
says how many values of a game are known, too, and
.B serve
waits for its peer without limit.
"#;

/// What stands after them, before the faults: files, security and statuses.
pub(crate) const FILES: &str = r#".SH FILES
.TP
.I STATE
The state file. Where it is a link, the file it points to is replaced, and the link stays. A file with two names by
a hard link is replaced under the one that is given. It is a plain file that its owner may write.
.TP
.IB STATE .lock
A small file beside it. A command that changes the state holds the system's lock on it from before
it reads the state until
it has replaced it, and removes the file then; another one waits. A file that is somebody's stays,
and keeps the state from being changed. Nothing is locked while a command
waits for a peer, for its input or for a reader of
its output.
.TP
.IB STATE .new
The new state, which is written and flushed to the disk, and then renamed; it has the permissions of
the old one. A stop at
any moment leaves the old state or the new one, whole. A file that is somebody's stays, and keeps the
state from being changed.
.TP
.I OUT
The file of
.BR delta ", " union " and " sqlite
is locked and replaced as a state is. A pipe or a device, such as /dev/stdout, is written as it stands.
.PP
The text of a command is printed after its state is written: after
.B Write
the state is changed, and after
.B File
of
.BR delta ", " union " or " sqlite
a pipe or a device may have got a part. After any other fault no file is changed, but
.BR serve ", " sync " and " hub
save what they took also where the session ends early. After a session the union of what the state
file holds then and of
what the session took is saved.
.SH ADVICE
Where standard error is a terminal, where the option
.B \-\-explain
stands before or after the command, and where the variable
.B CENSUS_EXPLAIN
of the environment is 1, warnings and explanations stand there beside the lines that always do. After
.BR compute ", " extend ", " import ", " claim ", " period ", " merge ", " sync " and " survey
a line says there what became of the blocks and claims that are new: proved, pending, or refuted at
which heap; of several, how many there are of each. Another says which of those that were pending
before are decided now, one's own apart. On a terminal both are left out where that might take over a
second, and with
.B \-\-quiet
everywhere.
.SH SECURITY
The connection is neither encrypted nor authenticated, and authors are believed. An address other
than the loopback is for a
trusted network; over any other use a tunnel, such as
.PP
.nf
ssh \-N \-L 4000:127.0.0.1:4000 hub.example.org
.fi
.PP
Each person has one number, which
.B init \-\-draw
draws. A state file that was copied to a second person, or put back from a backup, is to go on under
another number before anything is issued there, by
.BR renumber :
what is issued under the old one may have numbers that were used before.
.SH EXIT STATUS
.TP
0
Done; also where
.B fold
refused lines, and for help.
.TP
1
Refused: the line on standard error is
.B census:
with the fault and its cause.
.TP
2
The command line.
.TP
3
A file, a stream or the network.
.TP
4
Memory.
"#;

/// What stands before the faults.
pub(crate) const FAULTS: &str = r#".SH FAULTS
The line on standard error is
.B census:
with one of these names and, where there is one, its cause; behind
.B Union
stands the place of the file before it, and behind
.B Bfile
the line after it; behind
.B Authors
stands how many there would be, and how many there may be. Each has its exit status, what it means, and what to do.
"#;

/// What stands at the end.
pub(crate) const SEE_ALSO: &str = r#".SH SEE ALSO
R. K. Guy and C. A. B. Smith, The G-values of various games, 1956. E. R. Berlekamp, J. H. Conway and
R. K. Guy, Winning Ways
for your Mathematical Plays, chapter 4. M. Shapiro, N. Preguica, C. Baquero and M. Zawirski,
Conflict-free replicated data
types, 2011.
"#;
