//! A total that can be shared: what the rows that share it weigh together.
ghost use Rattle.std.specs.Prelude.{◌≡◌, ◌<◌, ◌≤◌, sum, MatchResult};
ghost use Rattle.sharing.specs.Rows.{mwhs};
ghost use Rattle.sharing.specs.Rule.{Shareable};
ghost use Rattle.sharing.specs.declared.fault.SharingFault.TheVariants.{NoWeight};

use crate::{Row, RunningSplit, SharingFault, total_mwh};

/// A total, and the MWh of all rows that share it: without MWh there is nothing to share.
#[derive(Clone, Copy)]
pub(crate) struct Weighed {
    pub(crate) total: u64,
    pub(crate) whole: u64,
    ghost cents: { total ≤ 30_000_000_000 },
    ghost mwh: { whole ≤ 40_000_000 },
    ghost some: { whole ≡ 0 → total ≡ 0 },
}

impl Weighed {
    /// The total over the MWh of these rows; refused where there is a total and no MWh.
    pub(crate) fn over(total: u64, rows: &[Row]) -> Result<Weighed, SharingFault>
        requires { Shareable total (mwhs rows.now) }
        ensures { MatchResult result
            (λ w. (w.total ≡ total) × (w.whole ≡ sum (mwhs rows.now)))
            (λ fault. (sum (mwhs rows.now) ≡ 0) × (0 < total) × (fault ≡ NoWeight)) }
    {
        let whole = total_mwh(rows);
        if whole == 0 && total > 0 {
            return Err(SharingFault::NoWeight);
        }
        Ok(Weighed { total, whole })
    }

    /// The running split of the total over the MWh, which has handed out nothing yet.
    pub(crate) fn split(self) -> RunningSplit
        ensures { (result.total ≡ self.total) × (result.whole ≡ self.whole) × (result.before ≡ 0) }
    {
        RunningSplit::new(self.total, self.whole).unwrap()
    }
}
