//! `census search`: the period of each game, past every limit, or a list of first values.

use crate::watched;
use census_arguments::{
    Range, SEARCHED, copies, game, games, heaps, is_listed, listed, value_count, with_order,
};
use census_core::{
    Fault, Forgetful, Form, Progress, WINDOW_LIMIT, first_values, number, search,
    search_in_windows, write_values,
};
use census_failure::{Advice, Audience, Failure};
use census_progress::{ProgressLine, WindowSearch, search_saved};
use census_requests::{System, check_state, note_found};
use census_words::CommandRow;
use census_words::words::{self, Choice, Takes};
use clap::ArgMatches;
use oct_code::Code;
use std::alloc::{AllocError, Global};
use std::io::{Read, Write};
use std::rt::Files;
use written::write_out;

// The heaps whose values a search says.
const AT: Choice = Choice {
    name: "at",
    takes: Takes::Many("HEAP"),
    meaning: "Says the value of this heap too, 0 to 18446744073709551615; may stand several times",
    default: None,
};

// Whether a search prints JSON.
const AS_JSON: Choice = Choice {
    name: "json",
    takes: Takes::Nothing,
    meaning: "Prints a line of JSON for each game",
    default: None,
};

// Whether a search prints the values as a b-file.
const AS_BFILE: Choice = Choice {
    name: "bfile",
    takes: Takes::Nothing,
    meaning: "Prints the first COUNT values of one game as a b-file, and looks for no period",
    default: None,
};

// Whether a search keeps few values.
const WINDOW: Choice = Choice {
    name: "window",
    takes: Takes::Nothing,
    meaning: "Keeps few of the values, so that COUNT may be up to 1152921504606846976",
    default: None,
};

// The file in which a search is saved.
const SAVE: Choice = Choice {
    name: "save",
    takes: Takes::One("FILE"),
    meaning: "With --window and one CODE: saves how far the search is in FILE, and goes on from there",
    default: None,
};

// The state in which long periods are noted.
const NOTING: Choice = Choice {
    name: "note",
    takes: Takes::One("STATE"),
    meaning: "Notes in STATE each period that takes more than 65536 values to prove, as no period claim does",
    default: None,
};

/// Its row in the table.
pub const ROW: CommandRow = CommandRow {
    name: "search",
    words: &[words::VALUES, words::CODES],
    options: &[
        words::LIST,
        words::PART,
        AT,
        AS_JSON,
        AS_BFILE,
        WINDOW,
        SAVE,
        NOTING,
    ],
    line: "The period of each game, by at most COUNT values",
    about: "Computes values of each game until they prove a period, and says which",
    after: "\
For each game in turn values are computed until they prove a period, or COUNT of them are known, and
a line is printed. It names the least period P that they prove, the least heap E from which on it
holds, how many values prove it: 2E + 2P + k, k the number of digits of the code, and how many were
computed: a period is looked for from time to time, so these may be more. Or it says `no period in
COUNT values`. A period that is named holds for all heaps. Once one run of it proves that the values
go on with it, the further ones are copied.

Each --at HEAP adds a line behind that of a game: the value of the heap by the period, however large
it is; or where no period is found, its value if it is below COUNT, and else `not known`. With --json
there is one line of JSON for a game, and null stands for what is not known. With --bfile, which takes
one game and none of these, the first COUNT values are printed, a line `n v` for each heap n.

With --window, which takes no --at, the first 65,536 values are listed, and then only as many are
kept as tell the next one; more are listed where these do not. A period is seen where the values that
are kept come again, mostly by fewer values than 2E + 2P + k; then E is found between two of the windows
that were kept on the way. The line says `no period seen in COUNT values` where they do not come again:
they are marked anew at lengths that double, so a period that a search without --window would find may
not be seen.

With --save FILE such a search, of one game, can be stopped at any moment and taken up again by the same
line: how far it is stands in FILE, written every fifteen seconds and at the end, with a checksum,
and goes on from there, by more values where COUNT is greater than before. What FILE has is believed, and
the line ends with `from a saved search`. FILE is locked meanwhile, and written as a state is; where it
can't be written, the search ends. Ctrl-C leaves FILE.lock behind, which the next such search takes over.
The first 65,536 values, or as many as are listed, are computed anew. Where these prove a period, FILE is
not written.

With --note STATE a period that takes more than 65,536 values to prove, as no period claim does, is noted
in that state, behind its line: a note period-CODE, with a hyphen for the point, says the line as far as
the start, if no live note says the same already. Its author and number are printed.
census recheck searches again for what such notes say. --note takes no --json.

The games are named as for extend; those of --bfile and --save are one word CODE.

No state is needed. A value takes a byte of memory while none is above 255, and two from then on, and
up to a third more while the list grows. On a terminal a line on standard error says how far it is, how
fast it goes on, and how long it may take at that pace.
All codes are read before the first value is computed; after a later fault the lines of the games
before it stand.

Exit status: 0 done (also where there is no period), 1 refused: Code, Saved (FILE: Version, Refused or
Game), PastValue (a value is above 65535); 2 command line, 3 file or output, 4 memory

Examples:
  census search 1000000 0.16
  census search 1000000 0.16 --at 1000000000000
  census search 1000000000000 0.104 --window
  census search 1000000000000 0.106 --window --save 0.106.search
  census search --bfile 100000 0.16 > b.txt",
};

/// What is asked: the period of each game, or the first values of one.
#[derive(Drop)]
pub(crate) enum Search<'a> {
    /// The period of each game.
    Periods(Searched<'a>),
    /// The first values of a game, as a b-file.
    Values { count: u64, code: Code },
}

/// What a search is for: the period of each game, by at most so many values, and the values of these heaps; in windows there
/// are none.
#[derive(Drop)]
pub(crate) struct Searched<'a> {
    count: u64,
    heaps: Vec<u64>,
    codes: Vec<Code>,
    form: Form,
    is_windowed: bool,
    /// The file in which the search in windows of one game is saved.
    save: Option<&'a str>,
    /// The state in which periods are noted that no period claim proves.
    note: Option<&'a str>,
}

// How many values are computed at most, where few are kept.
const WINDOWED: Range = Range {
    least: 1,
    greatest: WINDOW_LIMIT,
};

/// Reads the words of the command, does it, and gives the exit status.
pub fn command<R, I, O, E>(
    rt: &R,
    found: &ArgMatches<'_>,
    input: &mut I,
    output: &mut O,
    errors: &mut E,
    audience: Audience,
) -> Result<u8, Failure>
where
    R: System,
    I: Read,
    O: Write,
    E: Write,
{
    let asked = with_order(rt.alloc(), &ROW, task(rt, found, input))?;
    watched::search(rt, &asked, output, errors, audience)?;
    Ok(0)
}

// What its words ask for.
fn task<'a, R, I>(rt: &R, found: &ArgMatches<'a>, input: &mut I) -> Result<Search<'a>, Failure>
where
    R: Files + AllocGlobal,
    I: Read,
{
    if found.get_flag(AS_BFILE.name) {
        return tabled(rt.alloc(), found);
    }
    Ok(Search::Periods(sought(rt, found, input)?))
}

// The values that are asked for as a b-file: those of one game, and nothing else.
fn tabled<'a>(alloc: Global, found: &ArgMatches<'a>) -> Result<Search<'a>, Failure> {
    let is_more = found.get_flag(AS_JSON.name)
        || found.get_flag(WINDOW.name)
        || found.get_str(SAVE.name).is_some()
        || found.get_str(NOTING.name).is_some();
    if is_more || is_listed(found) || found.get_strs(AT.name).is_some() {
        return Err(crowded(alloc));
    }
    let codes = copies(alloc, found, words::CODES.name)?;
    let [code] = codes.as_slice() else {
        return Err(crowded(alloc));
    };
    Ok(Search::Values {
        count: value_count(alloc, found, SEARCHED)?,
        code: game(alloc, code)?,
    })
}

// What is searched for.
fn sought<'a, R, I>(rt: &R, found: &ArgMatches<'a>, input: &mut I) -> Result<Searched<'a>, Failure>
where
    R: Files + AllocGlobal,
    I: Read,
{
    let alloc = rt.alloc();
    let form = if found.get_flag(AS_JSON.name) {
        Form::Json
    } else {
        Form::Lines
    };
    let is_windowed = found.get_flag(WINDOW.name);
    if is_windowed && found.get_strs(AT.name).is_some() {
        return Err(forgotten(alloc));
    }
    let save = found.get_str(SAVE.name);
    if save.is_some() && (!is_windowed || is_listed(found) || !is_one(alloc, found)?) {
        return Err(unsaved(alloc));
    }
    let note = found.get_str(NOTING.name);
    if note.is_some() && form == Form::Json {
        return Err(unnoted(alloc));
    }
    let range = if is_windowed { WINDOWED } else { SEARCHED };
    Ok(Searched {
        count: value_count(alloc, found, range)?,
        heaps: heaps(alloc, found, AT.name)?,
        codes: games(alloc, &listed(rt, found, words::CODES.name, input)?)?,
        form,
        is_windowed,
        save,
        note,
    })
}

// Whether one code is named by a word.
fn is_one(alloc: Global, found: &ArgMatches<'_>) -> Result<bool, Failure> {
    Ok(copies(alloc, found, words::CODES.name)?.len() == 1)
}

// The failure of a list of values, for which too much is asked.
fn crowded(alloc: Global) -> Failure {
    let text =
        "--bfile takes one CODE, and none of --codes, --part, --at, --json, --window, --save, --note";
    Failure::from(Fault::Words).found(String::from_str(alloc, text))
}

// The failure of a search in windows for the values of heaps, which windows do not keep.
fn forgotten(alloc: Global) -> Failure {
    let text = "--window keeps no values for --at";
    Failure::from(Fault::Words).found(String::from_str(alloc, text))
}

// The failure of a search that can't be saved.
fn unsaved(alloc: Global) -> Failure {
    let text = "--save takes one CODE, --window, and neither --codes nor --part";
    Failure::from(Fault::Words).found(String::from_str(alloc, text))
}

// The failure of a search whose lines are not those that notes say.
fn unnoted(alloc: Global) -> Failure {
    let text = "--note takes no --json: a note says what a line says";
    Failure::from(Fault::Words).found(String::from_str(alloc, text))
}

/// Prints the lines of the games, or the values.
pub(crate) fn run<R, O, E>(
    rt: &R,
    asked: &Search<'_>,
    output: &mut O,
    progress: &mut ProgressLine<'_, R, E>,
) -> Result<(), Failure>
where
    R: System,
    O: Write,
    E: Write,
{
    match asked {
        Search::Periods(asked) => search_games(rt, asked, output, progress),
        Search::Values { count, code } => list(rt, *code, *count, output, progress),
    }
}

// Searches for the period of each game, and prints its lines before it goes on to the next.
fn search_games<R, O, E>(
    rt: &R,
    asked: &Searched<'_>,
    output: &mut O,
    progress: &mut ProgressLine<'_, R, E>,
) -> Result<(), Failure>
where
    R: System,
    O: Write,
    E: Write,
{
    let (count, form) = (asked.count, asked.form);
    if let Some(state) = asked.note {
        check_state(rt, state)?;
    }
    for code in &asked.codes {
        let searched = if let Some(path) = asked.save {
            let sought = WindowSearch {
                code: *code,
                count,
                form,
            };
            search_saved(rt, sought, path, progress)
        } else if asked.is_windowed {
            Ok(search_unsaved(rt.alloc(), *code, asked, progress)?)
        } else {
            Ok(search(rt.alloc(), *code, count, &asked.heaps, form, progress)?)
        };
        progress.clear();
        let text = searched?;
        write_out(output, &text)?;
        if asked.is_windowed {
            say_seen_early(rt.alloc(), &text, progress.advice());
        }
        if let Some(state) = asked.note {
            note_found(rt, state, *code, &text, output, progress)?;
        }
    }
    Ok(())
}

// Says of a period that a window saw by fewer values than the line says it needs why that is no contradiction.
fn say_seen_early<E: Write>(alloc: Global, line: &[u8], advice: &mut Advice<'_, E>) {
    let Ok(line) = str::from_utf8(line) else {
        return;
    };
    if let (Some(needs), Some(values)) = (
        number_behind(line, "needs"),
        number_behind(line, "values"),
    ) {
        if values < needs {
            if let Ok(text) = seen_early_text(alloc, needs, values) {
                advice.say(&text);
            }
        }
    }
}

// The number that stands behind this word of a line.
fn number_behind(line: &str, word: &str) -> Option<u64> {
    let mut words = line.split_whitespace();
    words.find(|each| *each == word)?;
    number(words.next()?, u64::MAX)
}

fn seen_early_text(alloc: Global, needs: u64, values: u64) -> Result<String, AllocError> {
    format!(in alloc;
        "a window of {values} values shows that the period goes on; a list, without --window, needs {needs}"
    )
}

// Searches for the period of a game in windows, and saves nothing.
fn search_unsaved<P: Progress>(
    alloc: Global,
    code: Code,
    asked: &Searched<'_>,
    progress: &mut P,
) -> Result<Vec<u8>, Fault> {
    search_in_windows(
        alloc,
        code,
        asked.count,
        asked.form,
        &mut Forgetful(progress),
    )
}

// Prints the first values of a game, once all are computed.
fn list<R, O, E>(
    rt: &R,
    code: Code,
    count: u64,
    output: &mut O,
    progress: &mut ProgressLine<'_, R, E>,
) -> Result<(), Failure>
where
    R: System,
    O: Write,
    E: Write,
{
    let values = first_values(rt.alloc(), code, count, progress);
    progress.clear();
    Ok(write_values(rt.alloc(), &values?, output)?)
}
