// What an edit is refused for, in its order: the held job's own, no such face, too many or too few, the new face's own.
ghost use Rattle.std.specs.Prelude.{◌≡◌, ◌+◌, ◌≤◌};
ghost use Rattle.verdict.specs.Verdict.{accepted, ◌or_then◌};
ghost use Rattle.job.specs.Carried.{carried, most_faces};
ghost use Rattle.job.specs.InOrder.{InOrder};
ghost use Rattle.job.specs.Lines.{face_line};
ghost use Rattle.edits.specs.Edits.{Add, Replace, TakeOut, no_such_face, full, only_face, new_face, edit_verdict};

use building::limits::beyond;
use building::year::{face_limit, has_heights};
use entry::Face;
use job::Job;
use job::judge::{judge, new_face_fault};
use verdict::{Verdict, or_then};

fn no_such_face(k: i64, j: Job) -> Verdict
    ensures { result ≡ no_such_face k j }
{
    if beyond(1, j.faces.count as i64, k) {
        return Verdict { number: 9, line: 0 };
    }
    Verdict { number: 0, line: 0 }
}

fn full(j: Job) -> Verdict
    ensures { result ≡ full j }
{
    if j.faces.count < face_limit(j.year) {
        return Verdict { number: 0, line: 0 };
    }
    Verdict { number: 2, line: 0 }
}

fn only_face(j: Job) -> Verdict
    ensures { result ≡ only_face j }
{
    if 1 < j.faces.count {
        return Verdict { number: 0, line: 0 };
    }
    Verdict { number: 2, line: 0 }
}

// The line of face k, from 1, in the sheet of a job that is in order.
fn line_of(j: Job, k: u32) -> u32
    requires { InOrder (carried j) × (k ≤ most_faces + 1) }
    ensures { result ≡ face_line (carried j) k }
{
    let plain = 2 + 1 + j.winds.count + 1 + j.internals.count + 1 + k;
    if has_heights(j.year) {
        return 2 + plain + 1 + j.profile.count;
    }
    plain
}

// The new face's own faults, as face k.
fn new_face(k: u32, f: Face, j: Job) -> Verdict
    requires { InOrder (carried j) × (k ≤ most_faces + 1) }
    ensures { result ≡ (new_face k f j or_then accepted) }
{
    let number = new_face_fault(j, f);
    if number == 0 {
        return Verdict { number: 0, line: 0 };
    }
    Verdict {
        number,
        line: line_of(j, k),
    }
}

pub(crate) fn of_add(j: Job, f: Face) -> Verdict
    ensures { result ≡ edit_verdict (Add f) j }
{
    let held = judge(j);
    if held.number != 0 {
        return held;
    }
    let own = new_face(j.faces.count + 1, f, j);
    or_then(full(j), own)
}

pub(crate) fn of_replace(j: Job, k: i64, f: Face) -> Verdict
    ensures { result ≡ edit_verdict (Replace k f) j }
{
    let held = judge(j);
    if held.number != 0 {
        return held;
    }
    let none = no_such_face(k, j);
    if none.number != 0 {
        return none;
    }
    new_face(whole::magnitude(k) as u32, f, j)
}

pub(crate) fn of_take_out(j: Job, k: i64) -> Verdict
    ensures { result ≡ edit_verdict (TakeOut k) j }
{
    let held = judge(j);
    if held.number != 0 {
        return held;
    }
    let none = no_such_face(k, j);
    let only = only_face(j);
    or_then(none, or_then(only, Verdict { number: 0, line: 0 }))
}
