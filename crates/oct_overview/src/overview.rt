//! What is told of games, a line for each, and of each block and claim that is refuted.
#![tactic(auto, using(oct_ops::proofs::Growing::growing))]

ghost use Rattle.std.specs.Prelude.{◌≡◌, ◌++◌, slice_get, OnErr, OnOk};
ghost use Rattle.std.specs.List.{flat_map};
ghost use Rattle.oct_ops.specs.Operations.{listed};
ghost use Rattle.oct_pages.specs.Contents.{game_content};
ghost use Rattle.oct_ops.specs.Growth.{Extends};
ghost use Rattle.oct_pages.specs.Sheet.{game_sheet};
ghost use Rattle.oct_store.specs.Summary as summary;
ghost use Rattle.oct_overview.specs.Line.{line_of, selected};
ghost use Rattle.oct_overview.specs.Overview.{block_refutation, block_words, both_values, claim_refutation, claim_word, claim_words, foot, head, known_words, line_end, line_text, overview, pending_words, period_words, proved_words, refutations, refuted_claim, tally_words, told, told_if, withdrawn_count, withdrawn_word, wrong_block, wrong_claim};
ghost use Rattle.oct_overview.specs.Said.{word};

use crate::line::{GameLine, LeastPeriod};
use crate::listing::{Condition, Listing};
use crate::said::{append_name, append_said, append_word, word};
use crate::tables::{append_csv_row, append_latex_row};
use oct_code::Code;
use oct_join::OpSet;
use oct_ops::Dot;
use oct_pages::{BlockRow, GameProgress, GameSheet, PeriodRow, game_after};
use oct_period::{Leaders, PeriodStatus};
use oct_record::Record;
use oct_sheet::{GameTally, Remarks};
use oct_text::Piece::{Code as CodeText, Dot as DotText, Number, Text};
use oct_text::{Form, append_pieces, append_text};
use oct_verify::Status;
use std::alloc::{AllocError, Allocator};

/// Appends what is told of those games of these codes for which each of the conditions holds, as `specs/Overview` spells it. Behind
/// what is refuted stands whether it is withdrawn, and the name of the author; behind the line of a game, or in its object, stand the
/// long periods that somebody says of it. Each game is built in its turn, of which `progress` is told before, and let go before the
/// next; one of which nothing was said is told of too, if the conditions hold. The one error is that memory is refused, and then `out`
/// stays as it is.
pub fn write_overview<P: GameProgress, A: Allocator + Copy>(
    said: &Record<A>,
    codes: &[Code],
    which: &[Condition],
    listing: Listing,
    progress: &mut P,
    out: &mut Vec<u8, A>,
) -> Result<(), AllocError>
    ensures ok { OnOk result (out.new.items ≡ out.old.items ++ overview listing (listed said.now.ops) (selected which.now (listed said.now.ops) codes.now)) }
    ensures err { OnErr result (out.new.items ≡ out.old.items) }
{
    let before = out.len();
    let written = append_named(out, said, codes, which, listing, progress);
    if written.is_err() {
        out.truncate(before);
    }
    written
}

// Appends what is told of the games, with what notes say, between the head and the foot.
fn append_named<P: GameProgress, A: Allocator + Copy>(
    out: &mut Vec<u8, A>,
    said: &Record<A>,
    codes: &[Code],
    which: &[Condition],
    listing: Listing,
    progress: &mut P,
) -> Result<(), AllocError>
    ensures ok { OnOk result (out.new.items ≡ out.old.items ++ overview listing (listed said.now.ops) (selected which.now (listed said.now.ops) codes.now)) }
    ensures grown { Extends out.old.items out.new.items }
{
    let remarks = Remarks::of_record(said)?;
    append_text(out, head(listing))?;
    append_games(out, said, codes, &remarks, which, listing, progress)?;
    append_text(out, foot(listing))
}

// What stands before all games.
fn head(listing: Listing) -> &'static [u8]
    ensures { result.now ≡ head listing }
{
    match listing {
        Listing::Games(_) | Listing::Refuted(_) => b"",
        Listing::Csv =>
            b"code,known,period,start,claimed,blocks_proved,blocks_refuted,blocks_pending,claims_proved,claims_refuted,claims_pending\r\n",
        Listing::Latex => b"\\begin{tabular}{lrrr}\nCode & Known & Period & Start \\\\\n\\hline\n",
    }
}

// What stands behind all games.
fn foot(listing: Listing) -> &'static [u8]
    ensures { result.now ≡ foot listing }
{
    match listing {
        Listing::Games(_) | Listing::Refuted(_) | Listing::Csv => b"",
        Listing::Latex => b"\\end{tabular}\n",
    }
}

// Appends what is told of the games.
fn append_games<P: GameProgress, A: Allocator + Copy>(
    out: &mut Vec<u8, A>,
    said: &Record<A>,
    codes: &[Code],
    remarks: &Remarks<'_, A>,
    which: &[Condition],
    listing: Listing,
    progress: &mut P,
) -> Result<(), AllocError>
    ensures ok { OnOk result (out.new.items ≡ out.old.items ++ flat_map (λ c. told_if which.now listing remarks.now (game_sheet (listed said.now.ops) c)) codes.now) }
    ensures grown { Extends out.old.items out.new.items }
{
    let all = codes.len() as u64;
    let mut done = 0;
    let mut leaders = Leaders::new(said.allocator());
    for code in codes {
        progress.tell(*code, done, all);
        append_game(out, said, *code, &mut leaders, remarks, which, listing)?;
        done = done.saturating_add(1);
    }
    Ok(())
}

// Appends what is told of a game, if the conditions hold.
fn append_game<A: Allocator + Copy>(
    out: &mut Vec<u8, A>,
    said: &Record<A>,
    code: Code,
    leaders: &mut Leaders<A>,
    remarks: &Remarks<'_, A>,
    which: &[Condition],
    listing: Listing,
) -> Result<(), AllocError>
    ensures ok { OnOk result (out.new.items ≡ out.old.items ++ told_if which.now listing remarks.now (game_sheet (listed said.now.ops) code)) }
    ensures grown { Extends out.old.items out.new.items }
{
    match said.game(code) {
        Some(ops) => append_built(out, said, code, ops, leaders, remarks, which, listing),
        None => append_built(
            out,
            said,
            code,
            &OpSet::new(said.allocator()),
            leaders,
            remarks,
            which,
            listing,
        ),
    }
}

// Appends what is told of a game with these operations, which is built for it.
fn append_built<A: Allocator + Copy>(
    out: &mut Vec<u8, A>,
    said: &Record<A>,
    code: Code,
    ops: &OpSet<A>,
    leaders: &mut Leaders<A>,
    remarks: &Remarks<'_, A>,
    which: &[Condition],
    listing: Listing,
) -> Result<(), AllocError>
    requires { ops.now ≡ summary.of_game said.now.ops code }
    ensures ok { OnOk result (out.new.items ≡ out.old.items ++ told_if which.now listing remarks.now (game_sheet (listed said.now.ops) code)) }
    ensures grown { Extends out.old.items out.new.items }
{
    let game = game_after(said, code, leaders)?;
    let sheet = GameSheet::of_game(said.allocator(), &game, ops)?;
    let found = game.find_period();
    let line = GameLine::of(&sheet, remarks, &found);
    append_selected(out, &sheet, &line, remarks, which, listing)
}

// Appends what is told of a sheet, if the conditions hold of its line.
fn append_selected<A: Allocator + Copy>(
    out: &mut Vec<u8, A>,
    sheet: &GameSheet<'_, A>,
    line: &GameLine,
    remarks: &Remarks<'_, A>,
    which: &[Condition],
    listing: Listing,
) -> Result<(), AllocError>
    requires { line.now ≡ line_of remarks.now (game_content sheet.now) }
    ensures ok { OnOk result (out.new.items ≡ out.old.items ++ told_if which.now listing remarks.now (game_content sheet.now)) }
    ensures grown { Extends out.old.items out.new.items }
{
    if line.is_selected(which) {
        append_told(out, sheet, line, remarks, listing)
    } else {
        append_pieces(out, &[])
    }
}

// Appends what is told of a sheet.
fn append_told<A: Allocator + Copy>(
    out: &mut Vec<u8, A>,
    sheet: &GameSheet<'_, A>,
    line: &GameLine,
    remarks: &Remarks<'_, A>,
    listing: Listing,
) -> Result<(), AllocError>
    ensures ok { OnOk result (out.new.items ≡ out.old.items ++ told listing remarks.now (game_content sheet.now) line.now) }
    ensures grown { Extends out.old.items out.new.items }
{
    match listing {
        Listing::Games(form) => append_line(out, line, remarks, form),
        Listing::Refuted(form) => append_refutations(out, sheet, remarks, form),
        Listing::Csv => append_csv_row(out, line),
        Listing::Latex => append_latex_row(out, line),
    }
}

// ---- the line of a game

// Appends the line of a game.
fn append_line<A: Allocator, B: Allocator + Copy>(
    out: &mut Vec<u8, A>,
    line: &GameLine,
    remarks: &Remarks<'_, B>,
    form: Form,
) -> Result<(), AllocError>
    ensures ok { OnOk result (out.new.items ≡ out.old.items ++ line_text form remarks.now line.now) }
    ensures grown { Extends out.old.items out.new.items }
{
    let row = &line.summary;
    append_known(out, row.code, row.known, form)?;
    append_period(out, &line.least, form)?;
    append_blocks(out, row.blocks, form)?;
    append_claims(out, row.claims, form)?;
    append_said(out, row.code, remarks, form)
}

// Appends the game, and how many heaps are known.
fn append_known<A: Allocator>(
    out: &mut Vec<u8, A>,
    code: Code,
    known: usize,
    form: Form,
) -> Result<(), AllocError>
    ensures ok { OnOk result (out.new.items ≡ out.old.items ++ known_words form code known) }
    ensures grown { Extends out.old.items out.new.items }
{
    append_pieces(
        out,
        &[
            Text(word(form, b"", b"{\"code\":\"")),
            CodeText(code),
            Text(word(form, b" known ", b"\",\"known\":")),
            Number(known as u64),
        ],
    )
}

// Appends the least period that is proved, and whether nobody claimed it, or that there is none.
fn append_period<A: Allocator>(
    out: &mut Vec<u8, A>,
    least: &Option<LeastPeriod>,
    form: Form,
) -> Result<(), AllocError>
    ensures ok { OnOk result (out.new.items ≡ out.old.items ++ period_words form least.now) }
    ensures grown { Extends out.old.items out.new.items }
{
    match least {
        Some(least) => append_pieces(
            out,
            &[
                Text(word(form, b" period ", b",\"period\":")),
                Number(u64::from(least.period.period())),
                Text(word(form, b" from ", b",\"from\":")),
                Number(u64::from(least.period.start())),
                Text(claim_word(form, least.is_claimed)),
            ],
        ),
        None => append_pieces(out, &[Text(word(form, b" no period", b",\"period\":null"))]),
    }
}

// What stands behind a period: nothing where it is claimed.
fn claim_word(form: Form, is_claimed: bool) -> &'static [u8]
    ensures { result.now ≡ claim_word form is_claimed }
{
    if is_claimed {
        b""
    } else {
        word(form, b" unclaimed", b",\"claimed\":false")
    }
}

// Appends how many blocks are proved, refuted and pending.
fn append_blocks<A: Allocator>(
    out: &mut Vec<u8, A>,
    tally: GameTally,
    form: Form,
) -> Result<(), AllocError>
    ensures ok { OnOk result (out.new.items ≡ out.old.items ++ block_words form tally) }
    ensures grown { Extends out.old.items out.new.items }
{
    let front = word(form, b" blocks proved ", b",\"blocks\":{\"proved\":");
    append_tally(out, front, tally, form)
}

// Appends how many claims are proved, refuted and pending.
fn append_claims<A: Allocator>(
    out: &mut Vec<u8, A>,
    tally: GameTally,
    form: Form,
) -> Result<(), AllocError>
    ensures ok { OnOk result (out.new.items ≡ out.old.items ++ claim_words form tally) }
    ensures grown { Extends out.old.items out.new.items }
{
    let front = word(form, b" claims proved ", b"},\"claims\":{\"proved\":");
    append_tally(out, front, tally, form)
}

// Appends how many are proved, how many are refuted and stand or are withdrawn, and how many are pending.
fn append_tally<A: Allocator>(
    out: &mut Vec<u8, A>,
    front: &[u8],
    tally: GameTally,
    form: Form,
) -> Result<(), AllocError>
    ensures ok { OnOk result (out.new.items ≡ out.old.items ++ tally_words form front.now tally) }
    ensures grown { Extends out.old.items out.new.items }
{
    append_proved(out, front, tally, form)?;
    append_withdrawn_count(out, tally.withdrawn, form)?;
    append_pending(out, tally.pending, form)
}

// Appends how many are proved, and how many are refuted.
fn append_proved<A: Allocator>(
    out: &mut Vec<u8, A>,
    front: &[u8],
    tally: GameTally,
    form: Form,
) -> Result<(), AllocError>
    ensures ok { OnOk result (out.new.items ≡ out.old.items ++ proved_words form front.now tally) }
    ensures grown { Extends out.old.items out.new.items }
{
    append_pieces(
        out,
        &[
            Text(front),
            Number(tally.proved as u64),
            Text(word(form, b" refuted ", b",\"refuted\":")),
            Number(tally.refuted as u64),
        ],
    )
}

// Appends how many are withdrawn, where some are.
fn append_withdrawn_count<A: Allocator>(
    out: &mut Vec<u8, A>,
    withdrawn: usize,
    form: Form,
) -> Result<(), AllocError>
    ensures ok { OnOk result (out.new.items ≡ out.old.items ++ withdrawn_count form withdrawn) }
    ensures grown { Extends out.old.items out.new.items }
{
    if withdrawn == 0 {
        append_pieces(out, &[])
    } else {
        append_pieces(
            out,
            &[
                Text(word(form, b" withdrawn ", b",\"withdrawn\":")),
                Number(withdrawn as u64),
            ],
        )
    }
}

// Appends how many are pending.
fn append_pending<A: Allocator>(
    out: &mut Vec<u8, A>,
    pending: usize,
    form: Form,
) -> Result<(), AllocError>
    ensures ok { OnOk result (out.new.items ≡ out.old.items ++ pending_words form pending) }
    ensures grown { Extends out.old.items out.new.items }
{
    append_pieces(
        out,
        &[
            Text(word(form, b" pending ", b",\"pending\":")),
            Number(pending as u64),
        ],
    )
}

// ---- the lines of what is refuted

// Appends a line for each refuted block, and then for each refuted claim.
fn append_refutations<A: Allocator + Copy>(
    out: &mut Vec<u8, A>,
    sheet: &GameSheet<'_, A>,
    remarks: &Remarks<'_, A>,
    form: Form,
) -> Result<(), AllocError>
    ensures ok { OnOk result (out.new.items ≡ out.old.items ++ refutations form remarks.now (game_content sheet.now)) }
    ensures grown { Extends out.old.items out.new.items }
{
    append_wrong_blocks(out, sheet.code, &sheet.blocks, remarks, form)?;
    append_wrong_claims(out, sheet.code, sheet.values, &sheet.periods, remarks, form)
}

// Appends a line for each refuted block.
fn append_wrong_blocks<A: Allocator, B: Allocator + Copy>(
    out: &mut Vec<u8, A>,
    code: Code,
    rows: &[BlockRow],
    remarks: &Remarks<'_, B>,
    form: Form,
) -> Result<(), AllocError>
    ensures ok { OnOk result (out.new.items ≡ out.old.items ++ flat_map (block_refutation form remarks.now code) rows.now) }
    ensures grown { Extends out.old.items out.new.items }
{
    for row in rows {
        append_block_refutation(out, code, row, remarks, form)?;
    }
    Ok(())
}

// Appends the line of a block, if it is refuted.
fn append_block_refutation<A: Allocator, B: Allocator + Copy>(
    out: &mut Vec<u8, A>,
    code: Code,
    row: &BlockRow,
    remarks: &Remarks<'_, B>,
    form: Form,
) -> Result<(), AllocError>
    ensures ok { OnOk result (out.new.items ≡ out.old.items ++ block_refutation form remarks.now code row.now) }
    ensures grown { Extends out.old.items out.new.items }
{
    match row.status {
        Status::Refuted { at, claimed, truth } => {
            append_wrong_block(out, code, row, at, claimed, truth, form)?;
            append_line_end(out, remarks, row.dot, form)
        }
        Status::Proved | Status::Pending => Ok(()),
    }
}

// Appends a block, the heap at which it is wrong, the value that it claims there, and the true one.
fn append_wrong_block<A: Allocator>(
    out: &mut Vec<u8, A>,
    code: Code,
    row: &BlockRow,
    heap: u32,
    claimed: u32,
    truth: u32,
    form: Form,
) -> Result<(), AllocError>
    ensures ok { OnOk result (out.new.items ≡ out.old.items ++ wrong_block form code row.now heap claimed truth) }
    ensures grown { Extends out.old.items out.new.items }
{
    append_pieces(
        out,
        &[
            Text(word(form, b"", b"{\"code\":\"")),
            CodeText(code),
            Text(word(form, b" block ", b"\",\"block\":\"")),
            DotText(row.dot),
            Text(word(form, b" at ", b"\",\"at\":")),
            Number(u64::from(row.start)),
            Text(word(form, b" count ", b",\"count\":")),
            Number(u64::from(row.count)),
            Text(word(form, b" refuted at ", b",\"refuted\":")),
            Number(u64::from(heap)),
            Text(word(form, b" claimed ", b",\"claimed\":")),
            Number(u64::from(claimed)),
            Text(word(form, b" true ", b",\"true\":")),
            Number(u64::from(truth)),
        ],
    )
}

// Appends whether it is withdrawn, the name of the author, where there is one, and the end of the line.
fn append_line_end<A: Allocator, B: Allocator + Copy>(
    out: &mut Vec<u8, A>,
    remarks: &Remarks<'_, B>,
    dot: Dot,
    form: Form,
) -> Result<(), AllocError>
    ensures ok { OnOk result (out.new.items ≡ out.old.items ++ line_end form remarks.now dot) }
    ensures grown { Extends out.old.items out.new.items }
{
    append_withdrawn(out, remarks.is_withdrawn(dot), form)?;
    append_name(out, remarks.name_of(dot.author()), form)?;
    append_word(out, form, b"\n", b"}\n")
}

// Appends that it is withdrawn, where it is.
fn append_withdrawn<A: Allocator>(
    out: &mut Vec<u8, A>,
    is_withdrawn: bool,
    form: Form,
) -> Result<(), AllocError>
    ensures ok { OnOk result (out.new.items ≡ out.old.items ++ withdrawn_word form is_withdrawn) }
    ensures grown { Extends out.old.items out.new.items }
{
    if is_withdrawn {
        append_word(out, form, b" withdrawn", b",\"withdrawn\":true")
    } else {
        append_pieces(out, &[])
    }
}

// Appends a line for each refuted claim.
fn append_wrong_claims<A: Allocator, B: Allocator + Copy>(
    out: &mut Vec<u8, A>,
    code: Code,
    values: &[u32],
    rows: &[PeriodRow],
    remarks: &Remarks<'_, B>,
    form: Form,
) -> Result<(), AllocError>
    ensures ok { OnOk result (out.new.items ≡ out.old.items ++ flat_map (claim_refutation form remarks.now code values.now) rows.now) }
    ensures grown { Extends out.old.items out.new.items }
{
    for row in rows {
        append_claim_refutation(out, code, values, row, remarks, form)?;
    }
    Ok(())
}

// Appends the line of a claim, if it is refuted.
fn append_claim_refutation<A: Allocator, B: Allocator + Copy>(
    out: &mut Vec<u8, A>,
    code: Code,
    values: &[u32],
    row: &PeriodRow,
    remarks: &Remarks<'_, B>,
    form: Form,
) -> Result<(), AllocError>
    ensures ok { OnOk result (out.new.items ≡ out.old.items ++ claim_refutation form remarks.now code values.now row.now) }
    ensures grown { Extends out.old.items out.new.items }
{
    match row.status {
        PeriodStatus::Refuted { at } => {
            append_refuted_claim(out, code, values, row, at, remarks, form)
        }
        PeriodStatus::Proved | PeriodStatus::Pending { .. } => Ok(()),
    }
}

// Appends the line of a claim that breaks at this heap first.
fn append_refuted_claim<A: Allocator, B: Allocator + Copy>(
    out: &mut Vec<u8, A>,
    code: Code,
    values: &[u32],
    row: &PeriodRow,
    heap: u32,
    remarks: &Remarks<'_, B>,
    form: Form,
) -> Result<(), AllocError>
    ensures ok { OnOk result (out.new.items ≡ out.old.items ++ refuted_claim form remarks.now code values.now row.now heap) }
    ensures grown { Extends out.old.items out.new.items }
{
    append_wrong_claim(out, code, row, heap, form)?;
    let later = heap as usize + row.period.period() as usize;
    let value = value_at(values, heap as usize);
    let other = value_at(values, later);
    append_both_values(out, value, other, later, form)?;
    append_line_end(out, remarks, row.dot, form)
}

// Appends a claim, and the first heap at which it breaks.
fn append_wrong_claim<A: Allocator>(
    out: &mut Vec<u8, A>,
    code: Code,
    row: &PeriodRow,
    heap: u32,
    form: Form,
) -> Result<(), AllocError>
    ensures ok { OnOk result (out.new.items ≡ out.old.items ++ wrong_claim form code row.now heap) }
    ensures grown { Extends out.old.items out.new.items }
{
    append_pieces(
        out,
        &[
            Text(word(form, b"", b"{\"code\":\"")),
            CodeText(code),
            Text(word(form, b" period ", b"\",\"claim\":\"")),
            DotText(row.dot),
            Text(word(form, b" from ", b"\",\"from\":")),
            Number(u64::from(row.period.start())),
            Text(word(form, b" by ", b",\"by\":")),
            Number(u64::from(row.period.period())),
            Text(word(form, b" refuted at ", b",\"refuted\":")),
            Number(u64::from(heap)),
        ],
    )
}

// Appends the nim-values of the heap at which a claim breaks, and of the one that is a period larger, which are known.
fn append_both_values<A: Allocator>(
    out: &mut Vec<u8, A>,
    value: Option<u32>,
    other: Option<u32>,
    later: usize,
    form: Form,
) -> Result<(), AllocError>
    ensures ok { OnOk result (out.new.items ≡ out.old.items ++ both_values form value other later) }
    ensures grown { Extends out.old.items out.new.items }
{
    match (value, other) {
        (Some(value), Some(other)) => append_pieces(
            out,
            &[
                Text(word(form, b" value ", b",\"value\":")),
                Number(u64::from(value)),
                Text(word(form, b" at ", b",\"later\":")),
                Number(later as u64),
                Text(word(form, b" value ", b",\"later_value\":")),
                Number(u64::from(other)),
            ],
        ),
        _ => append_pieces(out, &[]),
    }
}

// The nim-value of a heap, if it is known.
fn value_at(values: &[u32], heap: usize) -> Option<u32>
    ensures { result ≡ slice_get values.now heap }
{
    values.get(heap).copied()
}
