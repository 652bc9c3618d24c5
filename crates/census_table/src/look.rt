//! How lines are shown.

ghost use Rattle.std.specs.Prelude.{◌≡◌, IfOk};
ghost use Rattle.census_table.specs.Looks.{look_of, shown};

use crate::fitting::fitted_to;
use crate::table::aligned;
use std::alloc::{AllocError, Global};

/// When colours are shown.
#[derive(Clone, Copy, Debug, PartialEq, Eq, Drop)]
pub enum When {
    /// Also where the lines go to a file.
    Always,
    /// Nowhere.
    Never,
    /// On a terminal, unless the environment asks for none.
    Auto,
}

/// How lines are shown.
#[derive(Clone, Copy, Debug, PartialEq, Eq, Drop)]
pub enum Look {
    /// As they are.
    Bare,
    /// In columns.
    Columns,
    /// In columns and colours.
    Colors,
}

impl Look {
    /// How lines are shown on a terminal or elsewhere, where the environment asks for no colours or does not.
    pub fn of(when: When, is_terminal: bool, is_plain: bool) -> Look
        ensures { result ≡ look_of when is_terminal is_plain }
    {
        match when {
            When::Always => Look::Colors,
            When::Auto if is_terminal && !is_plain => Look::Colors,
            _ if is_terminal => Look::Columns,
            _ => Look::Bare,
        }
    }

    /// The lines of games as they are shown so. Where they are in columns and a width is given, what is wider is cut.
    pub fn show(
        self,
        alloc: Global,
        lines: Vec<u8>,
        width: Option<usize>,
    ) -> Result<Vec<u8>, AllocError>
        ensures { IfOk result (λ text. text.items ≡ shown self width lines.items) }
    {
        match self {
            Look::Bare => Ok(lines),
            Look::Columns => fitted_to(alloc, aligned(alloc, &lines, false)?, width),
            Look::Colors => fitted_to(alloc, aligned(alloc, &lines, true)?, width),
        }
    }
}
