// The newtons that are missing once each force is rounded down: those that the remainders come to.
ghost use Rattle.std.specs.Prelude.{◌≡◌, pos};
ghost use Rattle.sharing.specs.Column.{missing};

// The remainders are never summed: what they come to past the newtons counted so far stays below one.
pub(crate) fn missing_newtons(forces: &[i64]) -> usize
    ensures { pos result ≡ missing forces.now }
{
    let mut count: usize = 0;
    let mut past: u64 = 0;
    for &force in forces {
        past += whole::remainder(force);
        if past >= 20_000_000_000 {
            past -= 20_000_000_000;
            count += 1;
        }
    }
    count
}
