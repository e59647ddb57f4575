// Edits of a job without stored sums, from C: what ./bench holds the worksheet against. `unkept_c` exports them.
#![tactic(auto)]

ghost use Rattle.std.specs.Prelude.{◌≡◌};
ghost use Rattle.job.specs.Walk.{judged};
ghost use Rattle.sheet.specs.Sheet.{job_writing, job_buffer};
ghost use Rattle.report.specs.Report.{report_text};
ghost use Rattle.edits.specs.Edits.{Replace, edited_job};
ghost use Rattle.answers.specs.Answers.{host_text};

use edits::EditedJob;
use entry::Face;
use job::Job;

pub fn unkept_replace(j: Job, face: i64, f: Face) -> EditedJob
    ensures { result ≡ edited_job (Replace face f) j }
{
    edits::replace(j, face, f)
}

// Its six lines.
pub fn unkept_show(j: Job, out: &mut [u8]) -> answers::Text
    ensures { (result ≡ host_text (job_writing report_text (judged j) out.old))
        × (out.new ≡ job_buffer report_text (judged j) out.old) }
{
    answers::text_of(report::write_report(j, out))
}
