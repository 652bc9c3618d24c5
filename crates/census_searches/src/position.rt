//! What is asked of a position: its value or a winning move, by what a state says, or else by a search of the game.

use census_arguments::{bytes, form, heaps, searched, word};
use census_core::{Form, Request, move_by_search, value_by_search};
use census_diagnosis::{Given, of_games};
use census_failure::Failure;
use census_files::read_state;
use census_progress::ProgressLine;
use census_requests::ask::{self, Ask, asking};
use census_requests::{System, one_code};
use census_words::words;
use clap::ArgMatches;
use std::alloc::Global;
use std::io::Write;
use written::write_out;

/// What is asked of a position.
#[derive(Clone, Copy)]
pub(crate) enum Question {
    /// The nim-value, and who wins.
    Value,
    /// A winning move.
    Move,
}

/// What is asked of a position, and by what it is answered.
#[derive(Drop)]
pub(crate) enum Position<'a> {
    /// By what the state says.
    ByState(Ask<'a>),
    /// By what the state says, or else by a search.
    BySearch(SearchedPosition<'a>),
}

/// A position that is asked about, and by how many values the game is searched where the state does not tell.
#[derive(Drop)]
pub(crate) struct SearchedPosition<'a> {
    question: Question,
    state: &'a str,
    code: Vec<u8>,
    heaps: Vec<u64>,
    count: u64,
    form: Form,
}

/// What a command asks that asks this of the position of its words.
pub(crate) fn asking_of<'a>(
    alloc: Global,
    found: &ArgMatches<'a>,
    question: Question,
) -> Result<Position<'a>, Failure> {
    let heaps = heaps(alloc, found, words::HEAP.name)?;
    let code = bytes(alloc, found, words::CODE)?;
    let form = form(found);
    if let Some(count) = searched(alloc, found)? {
        return Ok(Position::BySearch(SearchedPosition {
            question,
            state: word(found, words::STATE)?,
            code,
            heaps,
            count,
            form,
        }));
    }
    let request = match question {
        Question::Value => Request::Value { heaps, code, form },
        Question::Move => Request::Move { heaps, code, form },
    };
    Ok(Position::ByState(asking(found, None, request)?))
}

/// Prints the answer.
pub(crate) fn run<R, O, E>(
    rt: &R,
    asked: &Position<'_>,
    output: &mut O,
    progress: &mut ProgressLine<'_, R, E>,
) -> Result<(), Failure>
where
    R: System,
    O: Write,
    E: Write,
{
    match asked {
        Position::ByState(asked) => ask::run(rt, asked, output, progress.advice()),
        Position::BySearch(asked) => search_position(rt, asked, output, progress),
    }
}

// Prints the answer by the state, or else by a search.
fn search_position<R, O, E>(
    rt: &R,
    asked: &SearchedPosition<'_>,
    output: &mut O,
    progress: &mut ProgressLine<'_, R, E>,
) -> Result<(), Failure>
where
    R: System,
    O: Write,
    E: Write,
{
    let SearchedPosition {
        question,
        state,
        code,
        heaps,
        count,
        form,
    } = asked;
    let alloc = rt.alloc();
    let bytes = read_state(rt, state)?;
    let answer = match question {
        Question::Value => value_by_search(alloc, &bytes, code, heaps, *count, *form, progress),
        Question::Move => move_by_search(alloc, &bytes, code, heaps, *count, *form, progress),
    };
    progress.clear();
    match answer {
        Ok(text) => Ok(write_out(output, &text)?),
        Err(fault) => {
            let codes = one_code(alloc, code)?;
            Err(of_games(alloc, fault, &codes, Given::new(state, &bytes)))
        }
    }
}
