//! What a sharing rule means, and what every rule keeps.
ghost use Rattle.sharing.specs.Rows.{mwhs};
ghost use Rattle.sharing.specs.Rule.{RuleMeaning, Shareable, IsLawful, Shares};

use crate::{Row, SharingFault};

/// The most rows that a total is shared over.
pub const MOST_ROWS: usize = 1_024;

/// A way to share a month's total. It means two lists made from the total and the rows' MWh: a weight for each row,
/// and a charge for each row.
pub trait SharingRule {
    ghost meaning: { Self → RuleMeaning };

    /// Puts each row's charge in place, or refuses and leaves the rows as they are.
    fn share(&self, total: u64, rows: &mut [Row]) -> Result<(), SharingFault>
        requires { Shareable total (mwhs rows.old) }
        ensures { Shares (meaning self.now) total rows.old result rows.new };

    /// What each rule has to show: its charges add up to the total, each less than a cent from the exact share.
    ghost lawful: { (rule : Self) → IsLawful (meaning rule) };
}
