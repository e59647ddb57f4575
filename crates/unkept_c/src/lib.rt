// What ./bench links beside libaralimogga.a, libunkept.a: the functions of `unkept` under their own names, with the
// contracts that they have there.
#![tactic(auto)]

ghost use Rattle.std.specs.Prelude.{◌≡◌};
ghost use Rattle.job.specs.Walk.{judged};
ghost use Rattle.sheet.specs.Sheet.{job_writing, job_buffer};
ghost use Rattle.report.specs.Report.{report_text};
ghost use Rattle.edits.specs.Edits.{Replace, edited_job};
ghost use Rattle.answers.specs.Answers.{host_text};

use edits::EditedJob;
use entry::Face;
use job::Job;

#[unsafe(no_mangle)]
pub extern "C" fn unkept_replace(j: Job, face: i64, f: Face) -> EditedJob
    ensures { result ≡ edited_job (Replace face f) j }
{
    unkept::unkept_replace(j, face, f)
}

// Its six lines.
#[unsafe(no_mangle)]
pub extern "C" fn unkept_show(j: Job, out: &mut [u8]) -> answers::Text
    ensures { (result ≡ host_text (job_writing report_text (judged j) out.old))
        × (out.new ≡ job_buffer report_text (judged j) out.old) }
{
    unkept::unkept_show(j, out)
}
