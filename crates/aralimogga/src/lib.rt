// The entry points for a host program in C (include/aralimogga.h), which `aralimogga_c` exports. None trusts its
// caller, and none keeps anything between calls.
#![tactic(auto)]

ghost use Rattle.std.specs.Prelude.{◌≡◌};
ghost use Rattle.whole.specs.Digits.{decimal};
ghost use Rattle.page.specs.Writing.{writing, buffer_after};
ghost use Rattle.book.specs.Question.{outside_of, net_of};
ghost use Rattle.panel.specs.Bracket.{panel_of};
ghost use Rattle.panel.specs.Chart.{point_of};
ghost use Rattle.panel.specs.Pairs.{panel_of_newtons, point_of_pairs};
ghost use Rattle.job.specs.Walk.{verdict, judged};
ghost use Rattle.sheet.specs.Sheet.{reading, sheet_text, job_writing, job_buffer};
ghost use Rattle.slip.specs.Slip.{slip_of};
ghost use Rattle.plain.specs.Plain.{plainly};
ghost use Rattle.mend.specs.Mending.{mending_of, text_after, list_after};
ghost use Rattle.rose.specs.Rose.{no_lines};
ghost use Rattle.rose.specs.Taken.{part_taken, end_taken};
ghost use Rattle.report.specs.Report.{report_text, stored_text};
ghost use Rattle.edits.specs.Edits.{Add, Replace, TakeOut};
ghost use Rattle.worksheet.specs.Worksheet.{opened, edited};
ghost use Rattle.account.specs.Account.{account_of};
ghost use Rattle.column.specs.Setting.{judged_with};
ghost use Rattle.column.specs.Column.{column_verdict, column_after};
ghost use Rattle.answers.specs.Answers.{host_text, host_coefficient, host_double, host_total};

use account::Account;
use building::{Building, Dated};
use entry::Face;
use job::Setting;
use mend::Mending;
use pair::Pair;
use panel::Point;
use rose::Rose;
use slip::Slip;
use verdict::Verdict;
use worksheet::{Edited, Worksheet};

// ---- about a sheet

// Whether the sheet is accepted.
pub fn aral_read(sheet: &[u8]) -> Verdict
    ensures { result ≡ verdict (reading sheet.now) }
{
    sheet::read::verdict_of(sheet)
}

// Where its first fault lies, and what may stand there.
pub fn aral_where(sheet: &[u8]) -> Slip
    ensures { result ≡ slip_of sheet.now }
{
    slip::slip_of(sheet)
}

// The sheet read, and written again.
pub fn aral_rewrite(sheet: &[u8], out: &mut [u8]) -> answers::Text
    ensures { (result ≡ host_text (job_writing sheet_text (reading sheet.now) out.old))
        × (out.new ≡ job_buffer sheet_text (reading sheet.now) out.old) }
{
    let read = sheet::read::read_sheet(sheet);
    if read.verdict.number != 0 {
        return answers::no_text(read.verdict);
    }
    answers::text_of(sheet_written::write_sheet(read.job, out))
}

// Its report.
pub fn aral_report(sheet: &[u8], out: &mut [u8]) -> answers::Text
    ensures { (result ≡ host_text (job_writing report_text (reading sheet.now) out.old))
        × (out.new ≡ job_buffer report_text (reading sheet.now) out.old) }
{
    answers::text_of(report::write_read(sheet, out))
}

// Its report by the plain engine, which walks every case.
pub fn aral_plain(sheet: &[u8], out: &mut [u8]) -> answers::Text
    ensures { (result ≡ host_text (job_writing report_text (plainly (reading sheet.now)) out.old))
        × (out.new ≡ job_buffer report_text (plainly (reading sheet.now)) out.old) }
{
    let walked = sheet::read::read_sheet(sheet);
    if walked.verdict.number != 0 {
        return answers::no_text(walked.verdict);
    }
    answers::text_of(report::write_plain(walked.job, out))
}

// The sheet mended: its text into `out`, and into `list` three numbers for each change, line, kind and place.
pub fn aral_mend(sheet: &[u8], out: &mut [u8], list: &mut [u64]) -> Mending
    ensures { (result ≡ mending_of sheet.now out.old list.old)
        × (out.new ≡ text_after sheet.now out.old list.old)
        × (list.new ≡ list_after sheet.now out.old list.old) }
{
    mend::mend(sheet, out, list)
}

// One line of its report: 1 is x max, 2 x min, up to 6, z min.
pub fn aral_total(sheet: &[u8], line: i64) -> answers::Extreme
    ensures { result ≡ host_total (reading sheet.now) line }
{
    match worst::worst_in(sheet) {
        Ok(w) => answers::line_of(w.year, w.six, line),
        Err(v) => answers::no_extreme(v),
    }
}

// The account of one face, from 1, in the case of such a line.
pub fn aral_share(sheet: &[u8], line: i64, face: i64) -> Account
    ensures { result ≡ account_of (reading sheet.now) line face }
{
    let shared = sheet::read::read_sheet(sheet);
    if shared.verdict.number != 0 {
        return account::no_account(shared.verdict);
    }
    account::account_of(shared.job, line, face)
}

// ---- a worksheet

// The sheet, opened.
pub fn aral_open(sheet: &[u8]) -> Edited
    ensures { result ≡ opened (reading sheet.now) }
{
    worksheet::open(sheet)
}

pub fn aral_add(w: Worksheet, f: Face) -> Edited
    ensures { result ≡ edited (Add f) w }
{
    worksheet::add(w, f)
}

pub fn aral_replace(w: Worksheet, face: i64, f: Face) -> Edited
    ensures { result ≡ edited (Replace face f) w }
{
    worksheet::replace(w, face, f)
}

pub fn aral_take_out(w: Worksheet, face: i64) -> Edited
    ensures { result ≡ edited (TakeOut face) w }
{
    worksheet::take_out(w, face)
}

// Its six lines, which its sums tell.
pub fn aral_show(w: Worksheet, out: &mut [u8]) -> answers::Text
    ensures { (result ≡ host_text (job_writing (stored_text w.sums) (judged w.job) out.old))
        × (out.new ≡ job_buffer (stored_text w.sums) (judged w.job) out.old) }
{
    answers::text_of(report::write_stored(w.job, w.sums, out))
}

// Its sheet.
pub fn aral_write(w: Worksheet, out: &mut [u8]) -> answers::Text
    ensures { (result ≡ host_text (job_writing sheet_text (judged w.job) out.old))
        × (out.new ≡ job_buffer sheet_text (judged w.job) out.old) }
{
    answers::text_of(sheet_written::write_sheet(w.job, out))
}

// ---- a list of faces

// The newton column of a line of the report, for the job of a setting with these faces.
pub fn aral_column(s: Setting, faces: &[Face], line: i64, column: &mut [i64]) -> Verdict
    ensures { (result ≡ column_verdict (judged_with s faces.now) line column.old)
        × (column.new ≡ column_after (judged_with s faces.now) line column.old) }
{
    let listed = column::faces::gather(faces);
    column::column_in(s, listed, line, column)
}

// ---- a wind rose

// A rose of no lines.
pub fn aral_rose_new() -> Rose
    ensures { result ≡ no_lines }
{
    rose::new()
}

// The next part of the file of observations.
pub fn aral_rose_take(r: Rose, part: &[u8]) -> Rose
    ensures { result ≡ part_taken r part.now }
{
    rose::take(r, part)
}

// Its end.
pub fn aral_rose_end(r: Rose) -> Rose
    ensures { result ≡ end_taken r }
{
    rose::end(r)
}

// ---- about one place of a building

pub fn aral_outside(
    year: i64,
    h: i64,
    a: i64,
    b: i64,
    density: i64,
    kind: i64,
    x: i64,
    direction: i64,
    place: u8,
) -> answers::Coefficient
    ensures { result ≡ host_coefficient
        (outside_of year (record { h = h; a = a; b = b; density = density; kind = kind; x = x }) direction place) }
{
    let building = Building {
        h: h,
        a: a,
        b: b,
        density: density,
        kind: kind,
        x: x,
    };
    let d = Dated { year, building };
    answers::coefficient_of(book::outside(d, direction, place))
}

pub fn aral_net(
    year: i64,
    h: i64,
    a: i64,
    b: i64,
    density: i64,
    kind: i64,
    x: i64,
    direction: i64,
    place: u8,
    internal: i64,
) -> answers::Coefficient
    ensures { result ≡ host_coefficient
        (net_of year (record { h = h; a = a; b = b; density = density; kind = kind; x = x }) direction place
        internal) }
{
    let building = Building {
        h: h,
        a: a,
        b: b,
        density: density,
        kind: kind,
        x: x,
    };
    let d = Dated { year, building };
    answers::coefficient_of(book::net(d, direction, place, internal))
}

// ---- about numbers

// A number in decimal.
pub fn aral_digits(number: i64, out: &mut [u8]) -> answers::Text
    ensures { (result ≡ host_text (writing (decimal number) out.old))
        × (out.new ≡ buffer_after (decimal number) out.old) }
{
    answers::text_of(digits::write_decimal(number, out))
}

// The doubles of a total.
pub fn aral_panel(total: i64) -> answers::Double
    ensures { result ≡ host_double (panel_of total) }
{
    answers::double_of(panel::panel_of(total))
}

// The doubles of a total that is newtons with a remainder.
pub fn aral_panel_newtons(newtons: i64, remainder: u64) -> answers::Double
    ensures { result ≡ host_double (panel_of_newtons newtons remainder) }
{
    answers::double_of(panel::newtons::panel_of_newtons(newtons, remainder))
}

// The chart point of three totals.
pub fn aral_chart(x: i64, y: i64, z: i64) -> Point
    ensures { result ≡ point_of x y z }
{
    panel::chart(x, y, z)
}

// The chart point of three totals that are newtons with a remainder.
pub fn aral_chart_newtons(x: Pair, y: Pair, z: Pair) -> Point
    ensures { result ≡ point_of_pairs x y z }
{
    panel::newtons::chart_of_pairs(x, y, z)
}
