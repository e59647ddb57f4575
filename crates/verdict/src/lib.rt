// What a sheet, a job or a question is told: the number of its fault and the line that has it, counted from 1; or 0
// and 0 where it is accepted. The records for C begin with it.
#![tactic(auto)]

ghost use Rattle.std.specs.Prelude.{◌≡◌};
ghost use Rattle.verdict.specs.Verdict.{◌or_then◌};

#[repr(C)]
#[derive(Clone, Copy)]
pub struct Verdict {
    pub number: u32,
    pub line: u32,
}

// The earlier of two; then, where that accepts, the later.
pub fn or_then(earlier: Verdict, later: Verdict) -> Verdict
    ensures { result ≡ (earlier or_then later) }
{
    if earlier.number == 0 {
        return later;
    }
    earlier
}
