//! The words of a command line: what stands in their place in its help, and what they mean. Those that several commands share
//! stand here, and others in the files of their commands.

/// A word that a command takes in its place.
#[derive(Clone, Copy)]
pub struct Word {
    /// What stands in its place in the help, and by which the command line finds it.
    pub name: &'static str,
    /// What the help says of it.
    pub meaning: &'static str,
    /// How many times it stands.
    pub times: Times,
}

/// How many times a word stands, one after the other.
#[derive(Clone, Copy)]
pub enum Times {
    /// Once.
    One,
    /// Once, or one of these options in its place; the usage of the command shows the word and them so.
    OneOr(&'static [Choice], &'static str),
    /// Once or not at all.
    OneOrNone,
    /// Once or more.
    OneOrMore,
    /// Once or more, or not at all where this option stands.
    OneOrMoreUnless(Choice),
    /// Any number of times, or not at all.
    Any,
}

impl Times {
    /// The options that may stand in place of the word, and are not among those of its command.
    pub(crate) fn instead(self) -> &'static [Choice] {
        match self {
            Times::OneOr(options, _) => options,
            _ => &[],
        }
    }
}

/// An option that a command takes.
#[derive(Clone, Copy)]
pub struct Choice {
    /// What it is called, without the two dashes in front.
    pub name: &'static str,
    /// What stands behind it, and how often.
    pub takes: Takes,
    /// What the help says of it.
    pub meaning: &'static str,
    /// The value where the option is left out; none where it may be left out.
    pub default: Option<&'static str>,
}

/// What stands behind an option, and how often the option stands.
#[derive(Clone, Copy)]
pub enum Takes {
    /// Nothing, once.
    Nothing,
    /// A value of this name, once.
    One(&'static str),
    /// A value of this name, as often as one likes.
    Many(&'static str),
}

/// The state file that a command reads or changes.
pub const STATE: Word = Word {
    name: "STATE",
    meaning: "The state file",
    times: Times::One,
};

/// The author of a new state, or `--draw` or `--for` in its place.
pub const ID: Word = Word {
    name: "ID",
    meaning: "The author of what is issued there, 1 to 4294967295; each person needs a different one",
    times: Times::OneOr(&[DRAW, FOR], "ID|--draw|--for TEXT"),
};

/// In place of the author: the number is drawn.
pub const DRAW: Choice = Choice {
    name: "draw",
    takes: Takes::Nothing,
    meaning: "In place of ID: the number is drawn, so that nobody need know the numbers of others",
    default: None,
};

/// In place of the author: the number is that of a text.
pub const FOR: Choice = Choice {
    name: "for",
    takes: Takes::One("TEXT"),
    meaning: "In place of ID: the number that TEXT has by its SHA-256, and so always the same one",
    default: None,
};

/// The files that are read together, or digested.
pub const FILES: Word = Word {
    name: "FILE",
    meaning: "One or more files, each a state or a delta",
    times: Times::OneOrMore,
};

/// The b-file whose values are claimed or checked.
pub const BFILE: Word = Word {
    name: "FILE",
    meaning: "A b-file: lines of a number and its value, the numbers rising by one, below 65536; or -",
    times: Times::One,
};

/// The address at which many replicas are met.
pub const ADDR: Word = Word {
    name: "ADDR",
    meaning: "An address such as 127.0.0.1:4000",
    times: Times::OneOr(&[UNIX], "ADDR|--unix PATH"),
};

/// The address at which one other replica is met.
pub const PEER: Word = Word {
    name: "ADDR",
    meaning: "An address such as 127.0.0.1:4000",
    times: Times::OneOr(&[STDIO, UNIX], "ADDR|--stdio|--unix PATH"),
};

/// In place of the address: the session goes over the standard streams.
pub const STDIO: Choice = Choice {
    name: "stdio",
    takes: Takes::Nothing,
    meaning: "In place of ADDR: the session goes over standard input and output, as ssh lends them",
    default: None,
};

/// In place of the address: a socket of this machine.
pub const UNIX: Choice = Choice {
    name: "unix",
    takes: Takes::One("PATH"),
    meaning: "In place of ADDR: a socket of this machine, at that path",
    default: None,
};

/// Who may connect to a socket.
pub const MODE: Choice = Choice {
    name: "mode",
    takes: Takes::One("MODE"),
    meaning: "With --unix, who may connect: the permissions of the socket, in octal digits",
    default: Some("600"),
};

/// The code of a game.
pub const CODE: Word = Word {
    name: "CODE",
    meaning: "An octal code such as 0.77: head 0 or 4, a point, digits 0 to 7, at most 16 that count",
    times: Times::One,
};

/// The codes of games, of which there are some, or a list of codes.
pub const CODES: Word = Word {
    name: "CODE",
    meaning: "Octal codes such as 0.77: one or more, or as many as one likes where --codes stands",
    times: Times::OneOrMoreUnless(LIST),
};

/// How many values of each game are to be known.
pub const HEAPS: Word = Word {
    name: "COUNT",
    meaning: "How many values of each game in all, those of the heaps 0 to COUNT - 1; 1 to 65536",
    times: Times::One,
};

/// How many values of each game are searched.
pub const VALUES: Word = Word {
    name: "COUNT",
    meaning: "How many values of each game at most, 1 to 4294967296",
    times: Times::One,
};

/// The name of a note.
pub const NAME: Word = Word {
    name: "NAME",
    meaning: "The note's name, 1 to 32 bytes of a-z, 0-9 and -",
    times: Times::One,
};

/// The heaps of a position.
pub const HEAP: Word = Word {
    name: "HEAP",
    meaning: "The heaps of the position, each 0 to 18446744073709551615; none is the empty position",
    times: Times::Any,
};

/// The shell whose completions are printed.
pub const SHELL: Word = Word {
    name: "SHELL",
    meaning: "The shell: bash, zsh or fish",
    times: Times::One,
};

/// The words of a fault that is explained.
pub const FAULT: Word = Word {
    name: "FAULT",
    meaning: "The fault's name, as Load, and its cause, as Version",
    times: Times::Any,
};

/// Whether another command prints JSON.
pub const EACH_JSON: Choice = Choice {
    name: "json",
    takes: Takes::Nothing,
    meaning: "Prints objects of JSON, one a line",
    default: None,
};

/// The games that alone are shown.
pub const ONLY: Choice = Choice {
    name: "only",
    takes: Takes::Many("CODE"),
    meaning: "Shows this game alone; may stand several times",
    default: None,
};

/// The file of a list of codes.
pub const LIST: Choice = Choice {
    name: "codes",
    takes: Takes::One("FILE"),
    meaning: "Takes the codes of this file, or of -: one or more a line; a # begins a comment",
    default: None,
};

/// The part of a list that alone is taken.
pub const PART: Choice = Choice {
    name: "part",
    takes: Takes::One("I/N"),
    meaning: "Takes the I-th of the codes, the I+N-th, and so on: one of N parts, 1 to 65536",
    default: None,
};

/// Whether games are left out that are done.
pub const SKIP_DONE: Choice = Choice {
    name: "skip-done",
    takes: Takes::Nothing,
    meaning: "Leaves out the games of which blocks of the state's author have the heaps 1 to COUNT - 1",
    default: None,
};

/// By how many values a game is searched for a value that its state does not give.
pub const SEARCHED: Choice = Choice {
    name: "search",
    takes: Takes::One("COUNT"),
    meaning: "Where a heap is not known, searches the game by COUNT values at most, 1 to 4294967296",
    default: None,
};

/// How long the other side of a session may be silent.
pub const PATIENCE: Choice = Choice {
    name: "patience",
    takes: Takes::One("SECONDS"),
    meaning: "How long the other side may be silent in a session, 1 to 4294967295 seconds",
    default: Some("60"),
};

/// How many sessions a hub has at once.
pub const SESSIONS: Choice = Choice {
    name: "sessions",
    takes: Takes::One("N"),
    meaning: "How many sessions go on at once, 1 to 1024, while the others wait",
    default: Some("64"),
};

/// How many bytes a session may send to a hub.
pub const MOST: Choice = Choice {
    name: "most",
    takes: Takes::One("BYTES"),
    meaning: "How many bytes one session may send to the hub, 1 to 4294967295",
    default: Some("67108864"),
};

/// How many bytes the other side of one session may send.
pub const MOST_OF_ONE: Choice = Choice {
    name: "most",
    takes: Takes::One("BYTES"),
    meaning: "How many bytes the other side may send, 1 to 4294967295",
    default: Some("134217728"),
};

/// How many authors a hub's table may have.
pub const AUTHORS: Choice = Choice {
    name: "authors",
    takes: Takes::One("N"),
    meaning: "How many authors the table may have for a session to bring a new one, 1 to 4294967295",
    default: Some("1000"),
};

/// How many authors the table of one session may have.
pub const AUTHORS_OF_ONE: Choice = Choice {
    name: "authors",
    takes: Takes::One("N"),
    meaning: "How many authors the table may have for the session to bring a new one, 1 to 4294967295",
    default: Some("60000"),
};

/// Whether a file is written over, whatever it is.
pub const REPLACE: Choice = Choice {
    name: "replace",
    takes: Takes::Nothing,
    meaning: "Writes the file in place of whatever stands there",
    default: None,
};

/// Whether nothing is printed where all is done.
pub const QUIET: Choice = Choice {
    name: "quiet",
    takes: Takes::Nothing,
    meaning: "Prints nothing where all is done",
    default: None,
};

/// Whether more is said on standard error.
pub const EXPLAIN: Choice = Choice {
    name: "explain",
    takes: Takes::Nothing,
    meaning: "Says more on standard error, as on a terminal",
    default: None,
};
