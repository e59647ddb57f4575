// The report: six lines, on each axis the greatest and the least total with the first case that reaches it.
#![tactic(auto)]

ghost use Rattle.std.specs.Prelude.{◌≡◌};
ghost use Rattle.page.specs.Writing.{writing, buffer_after};
ghost use Rattle.job.specs.Walk.{judged};
ghost use Rattle.sheet.specs.Sheet.{reading, job_writing, job_buffer};
ghost use Rattle.plain.specs.Plain.{plainly};
ghost use Rattle.report.specs.Lines.{six_text};
ghost use Rattle.report.specs.Report.{report_text, stored_text, totals_text};
ghost use Rattle.report.specs.Short.{SixPrintable};

use job::Job;
use verdict::Verdict;
use worst::{Reckoning, Stored};

mod refusal;
mod six;

// The six lines of what was reckoned of a job, at the start of `buf`.
fn write_six(w: &Reckoning, buf: &mut [u8]) -> Result<usize, Verdict>
    requires { SixPrintable w.now }
    ensures { (result ≡ writing (six_text w.now.year w.now.six) buf.old)
        × (buf.new ≡ buffer_after (six_text w.now.year w.now.six) buf.old) }
{
    if six::have_room(buf.len(), w.year, &w.six) {
        return Ok(six::put_six(buf, w.year, &w.six));
    }
    Err(Verdict { number: 7, line: 0 })
}

// The report of j at the start of `buf`. None is longer than 3084 bytes.
pub fn write_report(j: Job, buf: &mut [u8]) -> Result<usize, Verdict>
    ensures { (result ≡ job_writing report_text (judged j) buf.old)
        × (buf.new ≡ job_buffer report_text (judged j) buf.old) }
{
    let w = worst::worst_cases(j)?;
    write_six(&w, buf)
}

// The same with the six lines that stored sums tell.
pub fn write_stored(j: Job, stored: Stored, buf: &mut [u8]) -> Result<usize, Verdict>
    ensures { (result ≡ job_writing (stored_text stored) (judged j) buf.old)
        × (buf.new ≡ job_buffer (stored_text stored) (judged j) buf.old) }
{
    let w = worst::worst_stored(j, stored)?;
    write_six(&w, buf)
}

// The same by the plain engine, which takes a job with at most 8 faces that have two alternatives, and refuses
// another with 10.
pub fn write_plain(j: Job, buf: &mut [u8]) -> Result<usize, Verdict>
    ensures { (result ≡ job_writing report_text (plainly (judged j)) buf.old)
        × (buf.new ≡ job_buffer report_text (plainly (judged j)) buf.old) }
{
    let w = plain::plain_cases(j)?;
    write_six(&w, buf)
}

// The report of the sheet s, of which no record is made.
pub fn write_read(s: &[u8], buf: &mut [u8]) -> Result<usize, Verdict>
    ensures { (result ≡ job_writing report_text (reading s.now) buf.old)
        × (buf.new ≡ job_buffer report_text (reading s.now) buf.old) }
{
    let w = worst::worst_in(s)?;
    write_six(&w, buf)
}

// What the program `totals` writes for the sheet s: its report, or one line that refuses it.
pub fn write_totals(s: &[u8], buf: &mut [u8]) -> Result<usize, Verdict>
    ensures { (result ≡ writing (totals_text (reading s.now)) buf.old)
        × (buf.new ≡ buffer_after (totals_text (reading s.now)) buf.old) }
{
    match worst::worst_in(s) {
        Ok(w) => write_six(&w, buf),
        Err(v) => refusal::write_refused(v, buf),
    }
}
