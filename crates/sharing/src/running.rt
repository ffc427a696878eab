//! The running rule: rows 1 to i together pay the whole cents of their share.
ghost use Rattle.std.specs.Prelude.{◌≡◌, ◌+◌, ◌-◌, ◌≤◌};
ghost use Rattle.sharing.specs.Rows.{with_charge};
ghost use Rattle.sharing.specs.Split.{cents_of};
ghost use Rattle.sharing.specs.Running.{running_meaning};
ghost use Rattle.sharing.specs.RunningLaws.{running_lawful};

use crate::weighed::Weighed;
use crate::{Row, RunningSplit, SharingFault, SharingRule};

/// Shares by the MWh, each row paying what rows 1 to itself owe less what the rows before it pay.
#[derive(Clone, Copy)]
pub struct Running;

impl SharingRule for Running {
    ghost meaning = { λ rule. running_meaning };

    ghost lawful = { λ rule. running_lawful };

    fn share(&self, total: u64, rows: &mut [Row]) -> Result<(), SharingFault> {
        let weighed = Weighed::over(total, rows)?;
        let mut split = weighed.split();
        for row in rows.iter_mut() {
            charge_next(&mut split, row);
        }
        Ok(())
    }
}

/// Charges the row with what the split hands out for its MWh.
fn charge_next(split: &mut RunningSplit, row: &mut Row)
    requires { split.old.before + row.old.mwh ≤ split.old.whole }
    ensures same { (split.new.total ≡ split.old.total) × (split.new.whole ≡ split.old.whole) }
    ensures next { split.new.before ≡ split.old.before + row.old.mwh }
    ensures charged { row.new ≡ with_charge row.old
        (cents_of split.old.total split.old.whole (split.old.before + row.old.mwh)
        - cents_of split.old.total split.old.whole split.old.before) }
{
    let cents = split.hand(row.mwh).unwrap();
    row.charge = cents;
}
