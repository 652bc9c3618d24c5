//! What a command asks for.

use crate::view::View;
use oct_text::{Form, Shown, Told};

/// One command over the bytes of a state file, and over those of one more file where it reads one. Texts are as they stand on the
/// command line.
///
/// The other commands have functions of their own: `fold` reads lines; `read`, `union`, `digest`, `diff` and `log` read several files;
/// `search` and `check` read no state; `left`, `status`, `recheck`, `sqlite` and `site` ask a state for more than one text; `serve`,
/// `sync` and `hub` have sessions; `explain`, `completion` and `manual` read nothing.
#[derive(Drop)]
pub enum Request {
    /// A new state of this author.
    Init {
        id: u32,
    },
    /// The state under another author, from then on.
    Renumber {
        id: u32,
    },
    /// Issues the block of a JSON file.
    Import,
    /// Issues the values of a b-file as blocks of a code.
    Claim {
        code: Vec<u8>,
    },
    /// Computes the next so many nim-values of a code, and issues them as a block.
    Compute {
        code: Vec<u8>,
        count: u32,
    },
    /// Issues blocks of the next nim-values of each code until so many are known.
    Extend {
        count: u32,
        codes: Vec<Vec<u8>>,
    },
    /// Looks for a period among the known nim-values of each code.
    Find {
        codes: Vec<Vec<u8>>,
        form: Form,
    },
    /// Extends each code, looks for a period, and claims it.
    Survey {
        count: u32,
        codes: Vec<Vec<u8>>,
        form: Form,
    },
    /// Issues the claim that a code's nim-values repeat from the heap `e` on, with the period `p`.
    Period {
        code: Vec<u8>,
        e: u32,
        p: u32,
    },
    /// Issues a note.
    Note {
        name: Vec<u8>,
        text: Vec<u8>,
    },
    /// Issues the removal of the live notes of a name.
    Unnote {
        name: Vec<u8>,
    },
    /// Takes a delta file in.
    Merge,
    /// Writes all operations as one delta file.
    Delta,
    /// Writes the blocks and claims of the games of these codes alone as one delta file.
    DeltaOf {
        codes: Vec<Vec<u8>>,
    },
    /// The nim-value of a position, and who wins it.
    Value {
        code: Vec<u8>,
        heaps: Vec<u64>,
        form: Form,
    },
    /// A winning move of a position.
    Move {
        code: Vec<u8>,
        heaps: Vec<u64>,
        form: Form,
    },
    /// One page of the catalogue.
    Page {
        number: u32,
    },
    /// The catalogue.
    Show,
    /// The known nim-values of a code as a b-file.
    Bfile {
        code: Vec<u8>,
    },
    /// The known nim-values of a code as a picture.
    Plot {
        code: Vec<u8>,
    },
    /// All that is known as a JSON document.
    Json,
    /// All that is known as a page, with as many values of each game.
    Report {
        shown: Shown,
    },
    /// What is told of each code's game, or of each game where no code is named.
    Games {
        codes: Vec<Vec<u8>>,
        what: Told,
        form: Form,
    },
    /// All that is known of the games of these codes alone.
    Only {
        codes: Vec<Vec<u8>>,
        view: View,
    },
}
