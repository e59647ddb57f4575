// One line in place of a report: `refused`, number and line with single spaces.
ghost use Rattle.std.specs.Prelude.{◌≡◌};
ghost use Rattle.page.specs.Writing.{Put, writing, buffer_after};
ghost use Rattle.report.specs.Report.{refused_text};

use verdict::Verdict;

fn put_refused(buf: &mut [u8], v: Verdict) -> usize
    ensures { Put buf.old 0 (refused_text v) buf.new result }
{
    let word = page::put_bytes(buf, 0, b"refused");
    let numbered = crate::six::put_spaced(buf, word, v.number);
    let placed = crate::six::put_spaced(buf, numbered, v.line);
    page::put_byte(buf, placed, b'\n')
}

pub(crate) fn write_refused(v: Verdict, buf: &mut [u8]) -> Result<usize, Verdict>
    ensures { (result ≡ writing (refused_text v) buf.old)
        × (buf.new ≡ buffer_after (refused_text v) buf.old) }
{
    let mut text = [0u8; 30];
    let n = put_refused(&mut text, v);
    page::emit(&text, n, buf)
}
