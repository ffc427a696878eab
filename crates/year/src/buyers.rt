//! The buyers of a month.
ghost use Rattle.std.specs.Prelude.{◌≡◌, ◌≤◌, sum};
ghost use Rattle.sharing.specs.Rows.{mwhs};

use sharing::Row;

/// How many buyers there are.
pub const BUYERS: usize = 4;

/// A buyer that is not charged yet.
pub fn buyer(id: u32, mwh: u32) -> Row
    ensures { result ≡ record { id = id; mwh = mwh; charge = 0 } }
{
    Row { id, mwh, charge: 0 }
}

/// What the buyers consume in a month from October to March.
pub const WINTER: [u32; BUYERS] = [1_250, 0, 31_007, 7_743];
/// What they consume in a month from April to September.
const SUMMER: [u32; BUYERS] = [2_118, 640, 22_915, 9_001];

/// The buyers of a month, with what they consume in its half of the year.
pub fn of_month(month: u32) -> [Row; BUYERS]
    ensures { sum (mwhs result) ≤ 40_000_000 }
{
    match month {
        4..=9 => buyers(SUMMER),
        _ => buyers(WINTER),
    }
}

/// The buyers, with what each consumes.
pub fn buyers(mwh: [u32; BUYERS]) -> [Row; BUYERS]
    ensures { mwhs result ≡ mwh }
{
    let [first, second, third, fourth] = mwh;
    [
        buyer(101, first),
        buyer(102, second),
        buyer(103, third),
        buyer(104, fourth),
    ]
}
