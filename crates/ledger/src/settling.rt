//! What the advance and the closing share: the limits of the rows, and sharing the month's total over them.
ghost use Rattle.std.specs.Prelude.{◌≡◌, ◌≤◌};
ghost use Rattle.sharing.specs.Rows.{mwhs};
ghost use Rattle.sharing.specs.Rule.{Shareable};
ghost use Rattle.ledger.specs.Judged.{judged, ruled, kept_or};
ghost use Rattle.ledger.specs.Settling.{rows_within, limit_rows, shared_answer, charged_rows};

use crate::{LedgerFault, Refusal};
use sharing::{MOST_ROWS, Row, SharingRule, total_mwh};

/// The most MWh that the rows have together.
const MOST_MWH: u64 = 40_000_000;

/// Shares the total over the rows by the rule, and answers it, or refuses rows outside their limits.
pub(crate) fn share_within<R: SharingRule>(
    rule: &R,
    total: u64,
    rows: &mut [Row],
) -> Result<u64, LedgerFault>
    requires { total ≤ 30_000_000_000 }
    ensures answer { result ≡ ruled (limit_rows rows.old) (shared_answer (R.meaning rule.now) total rows.old) }
    ensures rows { rows.new ≡ kept_or result (charged_rows (R.meaning rule.now) total rows.old) rows.old }
{
    check_rows(rows)?;
    share(rule, total, rows)
}

/// Refuses rows that are too many, or have too many MWh.
fn check_rows(rows: &[Row]) -> Result<(), Refusal>
    ensures { result ≡ judged (limit_rows rows.now) tt }
{
    if !rows_within(rows) {
        return Err(Refusal::RowsOutOfLimits);
    }
    Ok(())
}

/// Whether there are not too many rows, and not too many MWh.
fn rows_within(rows: &[Row]) -> bool
    ensures { result ≡ rows_within rows.now }
{
    rows.len() <= MOST_ROWS && total_mwh(rows) <= MOST_MWH
}

/// Shares the total over the rows by the rule, and answers it.
fn share<R: SharingRule>(rule: &R, total: u64, rows: &mut [Row]) -> Result<u64, LedgerFault>
    requires { Shareable total (mwhs rows.old) }
    ensures answer { result ≡ shared_answer (R.meaning rule.now) total rows.old }
    ensures rows { rows.new ≡ kept_or result (charged_rows (R.meaning rule.now) total rows.old) rows.old }
{
    rule.share(total, rows)?;
    Ok(total)
}
