//! The files of a site.

ghost use Rattle.std.specs.Prelude.{◌≡◌, ◌++◌, ◌∷◌, [], IfErr, OnOk, codes, map, List, ℕ};
ghost use Rattle.std.specs.List.{flat_map};
ghost use Rattle.oct_code.specs.CodeText.{code_text};
ghost use Rattle.oct_ops.specs.Operations.{listed};
ghost use Rattle.oct_overview.specs.Line.{period_of};
ghost use Rattle.oct_pages.specs.Contents.{game_content};
ghost use Rattle.oct_store.specs.Summary as summary;
ghost use Rattle.oct_views.specs.Report.{index_by, shown_summary};
ghost use Rattle.oct_sheet.specs.Sheet.{game_sheet, sheet};
ghost use Rattle.census_tell.specs.Site.{Filled, IsPutFault, IsSite, IsSiteFault, bfile_of, files_of, html_of, json_of, picture_of, shown_files, site, site_of, style};

use census_state::{Fault, load};
use oct_bfile::write_bfile;
use oct_code::Code;
use oct_join::OpSet;
use oct_json::write_game_json;
use oct_overview::{LeastPeriod, with_least};
use oct_pages::{GameSheet, game_after};
use oct_period::Leaders;
use oct_plot::write_plot;
use oct_proved::ProvedPeriods;
use oct_record::Record;
use oct_sheet::{Remarks, Summary, told_codes};
use oct_views::{Beside, write_game_html, write_index, write_style};
use std::alloc::Global;

/// A place for files, as a folder is.
pub trait Folder {
    ghost use Rattle.census_state.specs.declared.fault.Fault.{Fault};

    /// What becomes of the place by a file of this name and these bytes.
    ghost puts: { Self → List ℕ → List ℕ → Self → Type 0 };

    /// By which faults it may refuse a file.
    ghost refuses: { Fault → Type 0 };

    /// Puts a file there.
    fn put(&mut self, name: &[u8], bytes: &[u8]) -> Result<(), Fault>
        ensures ok { OnOk result (puts self.old name.now bytes.now self.new) }
        ensures err { IfErr result refuses };

    /// Is told that the files of this game are next, after those of so many games of all. A file makes of the place what it would
    /// have made of it before.
    fn tell(&mut self, code: Code, done: u64, all: u64)
        ensures { (name bytes : List ℕ) → (next : Self) → puts self.new name bytes next → puts self.old name bytes next };
}

/// Puts the files of the site of a state into the folder, as `specs/Site` says which: each once, the index last. Where the page
/// that computes stands beside them, each game has a link to it; its files are not among these. The periods that searches proved are
/// shown as proved by this program, in the HTML of their games and in the index, and no others are. The games are built one after
/// another, and each is let go before the next. The fault is that of the state, before any file is put there; else it is that of
/// the folder, or `OutOfMemory`.
pub fn write_site<S: Folder>(
    alloc: Global,
    state: &[u8],
    beside: Beside,
    proved: &ProvedPeriods<Global>,
    folder: &mut S,
) -> Result<(), Fault>
    ensures ok { OnOk result (IsSite S.puts beside proved.now state.now folder.old folder.new) }
    ensures err { IfErr result (IsSiteFault S.refuses beside proved.now state.now) }
    ensures unread { IfErr (site_of beside proved.now state.now) (λ e. folder.new ≡ folder.old) }
{
    let held = load(alloc, state)?;
    put_site(alloc, &held, beside, proved, folder)
}

// Puts all files of the site there.
fn put_site<S: Folder>(
    alloc: Global,
    held: &Record<Global>,
    beside: Beside,
    proved: &ProvedPeriods<Global>,
    folder: &mut S,
) -> Result<(), Fault>
    ensures ok { OnOk result (Filled S.puts folder.old (site beside proved.now (sheet (listed held.now.ops))) folder.new) }
    ensures err { IfErr result (IsPutFault S.refuses) }
{
    folder.put(b"census-site", b"census site 1\n")?;
    put_style(alloc, folder)?;
    let remarks = Remarks::of_record(held)?;
    let mut rows = Vec::new(alloc);
    put_games(alloc, held, beside, proved, &remarks, &mut rows, folder)?;
    put_index(alloc, held, proved, &rows, folder)
}

// Puts the style sheet there.
fn put_style<S: Folder>(alloc: Global, folder: &mut S) -> Result<(), Fault>
    ensures ok { OnOk result (S.puts folder.old style.name style.bytes folder.new) }
    ensures err { IfErr result (IsPutFault S.refuses) }
{
    let mut bytes = Vec::new(alloc);
    write_style(&mut bytes)?;
    folder.put(b"style.css", &bytes)
}

// Puts the files of all games there, and adds their summaries.
fn put_games<S: Folder>(
    alloc: Global,
    held: &Record<Global>,
    beside: Beside,
    proved: &ProvedPeriods<Global>,
    remarks: &Remarks<'_, Global>,
    rows: &mut Vec<Summary>,
    folder: &mut S,
) -> Result<(), Fault>
    ensures rows { OnOk result (rows.new.items ≡ rows.old.items ++ map (shown_summary remarks.now) (sheet (listed held.now.ops)).games) }
    ensures put { OnOk result (Filled S.puts folder.old (flat_map (shown_files beside proved.now remarks.now) (sheet (listed held.now.ops)).games) folder.new) }
    ensures err { IfErr result (IsPutFault S.refuses) }
{
    let codes = told_codes(held)?;
    put_each(alloc, held, &codes, beside, proved, remarks, rows, folder)
}

// Puts the files of the games of these codes there, and adds their summaries.
fn put_each<S: Folder>(
    alloc: Global,
    held: &Record<Global>,
    codes: &[Code],
    beside: Beside,
    proved: &ProvedPeriods<Global>,
    remarks: &Remarks<'_, Global>,
    rows: &mut Vec<Summary>,
    folder: &mut S,
) -> Result<(), Fault>
    ensures rows { OnOk result (rows.new.items ≡ rows.old.items ++ map (λ c. shown_summary remarks.now (game_sheet (listed held.now.ops) c)) codes.now) }
    ensures put { OnOk result (Filled S.puts folder.old (flat_map (λ c. shown_files beside proved.now remarks.now (game_sheet (listed held.now.ops) c)) codes.now) folder.new) }
    ensures err { IfErr result (IsPutFault S.refuses) }
{
    let all = codes.len() as u64;
    let mut done = 0;
    let mut leaders = Leaders::new(alloc);
    for code in codes {
        folder.tell(*code, done, all);
        put_game(
            alloc,
            held,
            *code,
            &mut leaders,
            beside,
            proved,
            remarks,
            rows,
            folder,
        )?;
        done = done.saturating_add(1);
    }
    Ok(())
}

// Puts the files of a game there, and adds its summary.
fn put_game<S: Folder>(
    alloc: Global,
    held: &Record<Global>,
    code: Code,
    leaders: &mut Leaders<Global>,
    beside: Beside,
    proved: &ProvedPeriods<Global>,
    remarks: &Remarks<'_, Global>,
    rows: &mut Vec<Summary>,
    folder: &mut S,
) -> Result<(), Fault>
    ensures rows { OnOk result (rows.new.items ≡ rows.old.items ++ shown_summary remarks.now (game_sheet (listed held.now.ops) code) ∷ []) }
    ensures put { OnOk result (Filled S.puts folder.old (shown_files beside proved.now remarks.now (game_sheet (listed held.now.ops) code)) folder.new) }
    ensures err { IfErr result (IsPutFault S.refuses) }
{
    match held.game(code) {
        Some(ops) => put_built(
            alloc, held, code, ops, leaders, beside, proved, remarks, rows, folder,
        ),
        None => put_built(
            alloc,
            held,
            code,
            &OpSet::new(alloc),
            leaders,
            beside,
            proved,
            remarks,
            rows,
            folder,
        ),
    }
}

// Puts the files of a game with these operations there, which is built for it, and adds its summary.
fn put_built<S: Folder>(
    alloc: Global,
    held: &Record<Global>,
    code: Code,
    ops: &OpSet<Global>,
    leaders: &mut Leaders<Global>,
    beside: Beside,
    proved: &ProvedPeriods<Global>,
    remarks: &Remarks<'_, Global>,
    rows: &mut Vec<Summary>,
    folder: &mut S,
) -> Result<(), Fault>
    requires { ops.now ≡ summary.of_game held.now.ops code }
    ensures rows { OnOk result (rows.new.items ≡ rows.old.items ++ shown_summary remarks.now (game_sheet (listed held.now.ops) code) ∷ []) }
    ensures put { OnOk result (Filled S.puts folder.old (shown_files beside proved.now remarks.now (game_sheet (listed held.now.ops) code)) folder.new) }
    ensures err { IfErr result (IsPutFault S.refuses) }
{
    let game = game_after(held, code, leaders)?;
    let sheet = GameSheet::of_game(alloc, &game, ops)?;
    let found = game.find_period();
    let least = LeastPeriod::of(&sheet, &found);
    let shown = with_least(sheet, &found);
    Summary::add(rows, &shown, remarks)?;
    put_sheet(alloc, &shown, &least, beside, proved, remarks, folder)
}

// Puts the files of a game with this least period there.
fn put_sheet<S: Folder>(
    alloc: Global,
    game: &GameSheet<'_, Global>,
    least: &Option<LeastPeriod>,
    beside: Beside,
    proved: &ProvedPeriods<Global>,
    remarks: &Remarks<'_, Global>,
    folder: &mut S,
) -> Result<(), Fault>
    requires { least.now ≡ period_of (game_content game.now) }
    ensures ok { OnOk result (Filled S.puts folder.old (files_of beside proved.now remarks.now (game_content game.now)) folder.new) }
    ensures err { IfErr result (IsPutFault S.refuses) }
{
    put_picture(alloc, game, folder)?;
    put_bfile(alloc, game, folder)?;
    put_json(alloc, game, remarks, least, folder)?;
    put_html(alloc, game, beside, proved, remarks, folder)
}

// Puts the picture of a game there.
fn put_picture<S: Folder>(
    alloc: Global,
    game: &GameSheet<'_, Global>,
    folder: &mut S,
) -> Result<(), Fault>
    ensures ok { OnOk result (S.puts folder.old (picture_of (game_content game.now)).name (picture_of (game_content game.now)).bytes folder.new) }
    ensures err { IfErr result (IsPutFault S.refuses) }
{
    let mut bytes = Vec::new(alloc);
    write_plot(&game.code, game.values, &game.proved, &mut bytes)?;
    put_named(alloc, &game.code, b".svg", &bytes, folder)
}

// Puts the b-file of a game there.
fn put_bfile<S: Folder>(
    alloc: Global,
    game: &GameSheet<'_, Global>,
    folder: &mut S,
) -> Result<(), Fault>
    ensures ok { OnOk result (S.puts folder.old (bfile_of (game_content game.now)).name (bfile_of (game_content game.now)).bytes folder.new) }
    ensures err { IfErr result (IsPutFault S.refuses) }
{
    let mut bytes = Vec::new(alloc);
    write_bfile(game.values, &mut bytes)?;
    put_named(alloc, &game.code, b".txt", &bytes, folder)
}

// Puts the JSON document of a game with this least period there.
fn put_json<S: Folder>(
    alloc: Global,
    game: &GameSheet<'_, Global>,
    remarks: &Remarks<'_, Global>,
    least: &Option<LeastPeriod>,
    folder: &mut S,
) -> Result<(), Fault>
    requires { least.now ≡ period_of (game_content game.now) }
    ensures ok { OnOk result (S.puts folder.old (json_of remarks.now (game_content game.now)).name (json_of remarks.now (game_content game.now)).bytes folder.new) }
    ensures err { IfErr result (IsPutFault S.refuses) }
{
    let mut bytes = Vec::new(alloc);
    write_game_json(alloc, game, remarks, least, &mut bytes)?;
    bytes.extend_from_slice(b"\n")?;
    put_named(alloc, &game.code, b".json", &bytes, folder)
}

// Puts the HTML of a game there.
fn put_html<S: Folder>(
    alloc: Global,
    game: &GameSheet<'_, Global>,
    beside: Beside,
    proved: &ProvedPeriods<Global>,
    remarks: &Remarks<'_, Global>,
    folder: &mut S,
) -> Result<(), Fault>
    ensures ok { OnOk result (S.puts folder.old (html_of beside proved.now remarks.now (game_content game.now)).name (html_of beside proved.now remarks.now (game_content game.now)).bytes folder.new) }
    ensures err { IfErr result (IsPutFault S.refuses) }
{
    let mut bytes = Vec::new(alloc);
    write_game_html(beside, proved, remarks, game, &mut bytes)?;
    put_named(alloc, &game.code, b".html", &bytes, folder)
}

// Puts a file there whose name is a code and this end.
fn put_named<S: Folder>(
    alloc: Global,
    code: &Code,
    end: &[u8],
    bytes: &[u8],
    folder: &mut S,
) -> Result<(), Fault>
    ensures ok { OnOk result (S.puts folder.old (code_text code.now ++ end.now) bytes.now folder.new) }
    ensures err { IfErr result (IsPutFault S.refuses) }
{
    let mut name = Vec::new(alloc);
    code.append_text(&mut name)?;
    name.extend_from_slice(end)?;
    folder.put(&name, bytes)
}

// Puts the index of all games of these summaries there.
fn put_index<S: Folder>(
    alloc: Global,
    held: &Record<Global>,
    proved: &ProvedPeriods<Global>,
    rows: &[Summary],
    folder: &mut S,
) -> Result<(), Fault>
    ensures ok { OnOk result (S.puts folder.old (codes "index.html") (index_by proved.now rows.now (sheet (listed held.now.ops))) folder.new) }
    ensures err { IfErr result (IsPutFault S.refuses) }
{
    let mut bytes = Vec::new(alloc);
    write_index(held, proved, rows, &mut bytes)?;
    folder.put(b"index.html", &bytes)
}
