//! The rule of the largest remainder: each row pays the whole cents of its share, and the cents left over go one each to
//! the rows that the division left most of, among equals to the earlier row.
ghost use Rattle.std.specs.Prelude.{◌≡◌, ◌+◌, ◌-◌, ◌*◌, ◌^◌, ◌<◌, ◌≤◌, true, [], length, is_ok, sum};
ghost use Rattle.sharing.specs.Rows.{mwhs, charges_in, with_charge, charged};
ghost use Rattle.sharing.specs.Rule.{Shareable, Shares};
ghost use Rattle.sharing.specs.Split.{cents_of};
ghost use Rattle.sharing.specs.Remainder.{whole_cents, remainder_of, remainders, left_over, with_more, remainder_meaning, Fair};
ghost use Rattle.sharing.specs.Cut.{count_above};
ghost use Rattle.sharing.specs.RemainderLaws.{remainder_lawful};

use crate::cut::{Cut, LeftOver};
use crate::split::whole_cents;
use crate::weighed::Weighed;
use crate::{MOST_ROWS, Row, SharingFault, SharingRule};
use arrayvec::ArrayVec;

/// Shares by the MWh, the cents left over going to the largest remainders.
#[derive(Clone, Copy)]
pub struct Remainder;

impl SharingRule for Remainder {
    ghost meaning = { λ rule. remainder_meaning };

    ghost lawful = { λ rule. remainder_lawful };

    /// Puts each row's charge in place, or refuses and leaves the rows as they are. What it charges is fair.
    fn share(&self, total: u64, rows: &mut [Row]) -> Result<(), SharingFault>
        requires { Shareable total (mwhs rows.old) }
        ensures shares { Shares remainder_meaning total rows.old result rows.new }
        ensures fair { is_ok result ≡ true → Fair total (mwhs rows.old) (charges_in rows.new) }
    {
        let weighed = Weighed::over(total, rows)?;
        let mut rems = ArrayVec::new();
        let cents = divide_all(weighed, rows, &mut rems);
        let most = weighed.whole as u32;
        let rems = rems.as_slice();
        hand_out(&LeftOver { cents, rems, most }, rows);
        Ok(())
    }
}

/// Charges each row with the whole cents of its share, and notes what each division leaves; gives the cents left over.
fn divide_all(weighed: Weighed, rows: &mut [Row], rems: &mut ArrayVec<u32, MOST_ROWS>) -> u64
    requires few { length rows.old ≤ 1_024 }
    requires weighed { weighed.whole ≡ sum (mwhs rows.old) }
    requires none { rems.old.items ≡ [] }
    ensures charges { rows.new ≡ charged rows.old (whole_cents weighed.total weighed.whole (mwhs rows.old)) }
    ensures rests { rems.new.items ≡ remainders weighed.total weighed.whole (mwhs rows.old) }
    ensures left { result ≡ left_over weighed.total weighed.whole (mwhs rows.old) }
{
    let mut left = weighed.total;
    for row in rows.iter_mut() {
        rems.push(weighed.divide(row));
        left = left.saturating_sub(row.charge);
    }
    left
}

impl Weighed {
    /// Charges the row with the whole cents of its share, and gives what the division leaves.
    fn divide(self, row: &mut Row) -> u32
        requires { row.old.mwh ≤ self.whole }
        ensures charges { row.new ≡ with_charge row.old (cents_of self.total self.whole row.old.mwh) }
        ensures rest { result ≡ remainder_of self.total self.whole row.old.mwh }
    {
        let mwh = u64::from(row.mwh);
        row.charge = whole_cents(self.total, self.whole, mwh);
        let left = (self.total * mwh).checked_rem(self.whole);
        left.unwrap_or(0) as u32
    }
}

/// Charges one cent more to each of the rows that come first by their remainders, as many as cents are left over.
fn hand_out(left: &LeftOver, rows: &mut [Row])
    requires each { length left.now.rems.now ≡ length rows.old }
    requires fits { sum (charges_in rows.old) < 2 ^ 63 }
    ensures { rows.new ≡ charged rows.old (with_more (charges_in rows.old) left.now.rems.now left.now.cents) }
{
    let mut cut = Cut::find(left);
    for (i, rem) in left.rems.iter().enumerate() {
        charge_more(&mut rows[i], cut.next(*rem));
    }
}

/// Adds to the row's charge.
fn charge_more(row: &mut Row, cents: u64)
    requires { row.old.charge + cents < 2 ^ 64 }
    ensures { row.new ≡ with_charge row.old (row.old.charge + cents) }
{
    row.charge += cents;
}
