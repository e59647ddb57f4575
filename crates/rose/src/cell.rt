// The cell of an observation.
ghost use Rattle.std.specs.Prelude.{◌≡◌, ◌<◌};
ghost use Rattle.rose.specs.Observation.{sector, beaufort, cell_number};

// Table 2.2.2.2.1: the greatest speeds of the Beaufort numbers 0 to 11, in tenths of m/s.
const TOP_SPEEDS: [u32; 12] = [2, 15, 33, 54, 79, 107, 138, 171, 207, 244, 284, 326];

fn beaufort_of(speed: u32) -> u32
    ensures { (result ≡ beaufort speed) × (result < 13) }
{
    for (i, &top) in TOP_SPEEDS.iter().enumerate() {
        if speed <= top {
            return i as u32;
        }
    }
    12
}

fn sector_of(direction: u32) -> u32
    ensures { (result ≡ sector direction) × (result < 16) }
{
    let sector = (4 * (direction as u64) + 45) / 90 % 16;
    sector as u32
}

pub(crate) fn cell_at(direction: u32, speed: u32) -> u32
    ensures { result ≡ cell_number direction speed }
{
    13 * sector_of(direction) + beaufort_of(speed)
}
