//! A January that is worked out by hand, kept in a ledger of its own and held against its figures.
ghost use Rattle.std.specs.Prelude.{◌≡◌, true, [], ◌∷◌};
ghost use Rattle.sharing.specs.Rows.{charges_in};

use crate::answers::{accepted, numbered};
use crate::buyers::buyer;
use crate::print::print_rows;
use crate::records::{Hours, records};
use crate::year::Year;
use anyhow::anyhow;
use calendar::COMMON_YEAR;
use ledger::{Line, MOST_MODULES, Module};
use metering::{Kind, Thermal, ThermalHour};
use sharing::{Row, Running};

/// The facility's number.
const FACILITY: u32 = 1;
/// The award's number.
const AWARD: u32 = 1;
/// The kW of the award, which are the firm power too.
const KW: u32 = 50_000;
/// The price of the award.
const PRICE: u32 = 24_000;
/// The hours of January, all of them stress hours.
const STRESS: u16 = 744;
/// How many of them are poor.
const POOR: usize = 44;
/// What the facility declares.
const HOURS: Hours<ThermalHour> = Hours {
    first: ThermalHour {
        declared: 20_000,
        least: 10_000,
    },
    after: ThermalHour {
        declared: KW,
        least: 10_000,
    },
};
/// How many buyers there are, all equal.
const BUYERS: usize = 3;
/// The line that is booked: the right is 50,000 × 24,000 / 120, and 1,320,000 kWh of 37,200,000 are missing.
const JANUARY: Line = Line {
    right: 10_000_000,
    penalty: 354_838,
};
/// What the buyers owe together.
const TOTAL: u64 = 9_645_162;
/// What each of them pays.
const CHARGE: u64 = 3_215_054;

/// Keeps the January, prints it, and ends the program where a figure is another.
pub fn check_january(rt: &HostRuntime) -> anyhow::Result<()> {
    println!(rt; "The worked January")?;
    let mut year = Year::new(rt);
    year.begin_january()?;
    let hours = records(rt.alloc(), HOURS, POOR, STRESS as usize)?;
    year.report::<Thermal>("the report", FACILITY, &hours, None)?;
    let mut rows = [buyer(1, 1), buyer(2, 1), buyer(3, 1)];
    year.advance(&mut rows)?;
    let total = year.close(&Running, &mut rows)?;
    year.print_lines(1)?;
    println!(rt; "{:>10} {total:>12}", "closed")?;
    print_rows(rt, &rows)?;
    let answer = year.ledger.line(1, FACILITY);
    let line = accepted(rt, "the line of January", answer)?;
    if !as_worked(line, total, rows) {
        return Err(anyhow!("a figure of the worked January differs"));
    }
    Ok(())
}

impl Year<'_> {
    /// From the opening to the cut-off.
    fn begin_january(&mut self) -> anyhow::Result<()> {
        let answer = self.ledger.open(COMMON_YEAR, &[0], &[STRESS]);
        accepted(self.rt, "opening", answer)?;
        let modules = [Module::new(KW, 1_000); MOST_MODULES];
        let answer = self.ledger.register(Thermal::LETTER, modules, 1, KW);
        numbered(self.rt, "registering", FACILITY, answer)?;
        self.switch("switching on", FACILITY, true)?;
        let answer = self.ledger.award(FACILITY, KW, PRICE);
        numbered(self.rt, "awarding", AWARD, answer)?;
        self.cut_off()
    }
}

/// Whether the figures are those that were worked out.
fn as_worked(line: Line, total: u64, rows: [Row; BUYERS]) -> bool
    ensures booked { result ≡ true → (line.right ≡ 10_000_000) × (line.penalty ≡ 354_838) }
    ensures total { result ≡ true → total ≡ 9_645_162 }
    ensures charged { result ≡ true → charges_in rows ≡ 3_215_054 ∷ 3_215_054 ∷ 3_215_054 ∷ [] }
{
    line == JANUARY && total == TOTAL && rows.iter().all(|row| row.charge == CHARGE)
}
