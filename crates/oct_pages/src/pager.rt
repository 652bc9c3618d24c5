//! Which lines of a catalogue are shown.

ghost use Rattle.std.specs.Prelude.{◌≡◌, ◌*◌, ◌<◌, ◌^◌, Bool, true, false, nat_lt};
ghost use Rattle.oct_pages.specs.Catalogue.{page_length};
ghost use Rattle.oct_pages.specs.Pager.{is_over, is_reached, shows, passed};

// How many lines a page has.
const PAGE_LENGTH: u32 = 64;

/// The lines that are shown of those to come.
#[derive(Clone, Copy, PartialEq, Eq)]
pub(crate) enum Pager {
    // Each line.
    All,
    // After the next `before` lines as many as `left`.
    Page { before: u64, left: u32 },
}

impl Pager {
    /// The lines of a page, counted from 0.
    pub(crate) fn page(number: u32) -> Pager
        ensures { result ≡ Pager.Page (page_length * number) page_length }
    {
        Pager::Page {
            before: PAGE_LENGTH as u64 * number as u64,
            left: PAGE_LENGTH,
        }
    }

    /// Whether the page begins at a line that was passed.
    pub(crate) fn is_reached(self) -> bool
        ensures { result ≡ is_reached self }
    {
        match self {
            Pager::All => true,
            Pager::Page { left, .. } => left < PAGE_LENGTH,
        }
    }

    /// Whether each line that is shown was passed, and the page is full.
    pub(crate) fn is_over(self) -> bool
        ensures { result ≡ is_over self }
    {
        matches!(self, Pager::Page { before: 0, left: 0 })
    }

    // Whether the next line is shown.
    fn shows(self) -> bool
        ensures { result ≡ shows self }
    {
        match self {
            Pager::All => true,
            Pager::Page { before, left } => before == 0 && left > 0,
        }
    }

    // Once the next line was passed.
    fn passed(self) -> Pager
        ensures { result ≡ passed self }
    {
        match self {
            Pager::All => Pager::All,
            Pager::Page { before: 0, left } => Pager::Page {
                before: 0,
                left: left.saturating_sub(1),
            },
            Pager::Page { before, left } => Pager::Page {
                before: before - 1,
                left,
            },
        }
    }

    /// Passes the next line, and says whether it is shown.
    pub(crate) fn pass(&mut self) -> bool
        ensures shows { result ≡ shows self.old }
        ensures passed { self.new ≡ passed self.old }
    {
        let shows = self.shows();
        *self = self.passed();
        shows
    }
}
