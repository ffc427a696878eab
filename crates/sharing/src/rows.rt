//! A buyer's row, and what the rows of a month add up to.
ghost use Rattle.std.specs.Prelude.{◌≡◌, ◌+◌, ◌-◌, ◌^◌, min, sum};
ghost use Rattle.sharing.specs.Rows.{mwhs};

/// One buyer in one month: the MWh consumed, and the cents charged for them.
#[derive(Clone, Copy, PartialEq, Eq, Debug)]
pub struct Row {
    pub id: u32,
    pub mwh: u32,
    pub charge: u64,
}

/// The MWh of all rows together; a sum past 64 bits is given as the largest number of 64 bits.
pub fn total_mwh(rows: &[Row]) -> u64
    ensures { result ≡ min (sum (mwhs rows.now)) (2 ^ 64 - 1) }
{
    rows.iter().fold(0, with_row)
}

/// The MWh so far, with one row more.
fn with_row(all: u64, row: &Row) -> u64
    ensures { result ≡ min (all + row.now.mwh) (2 ^ 64 - 1) }
{
    all.saturating_add(u64::from(row.mwh))
}
