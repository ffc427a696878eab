//! A short run of calls over two months: the same that the law of the journal is worked out for.
use crate::answers::{accepted, numbered, refused};
use crate::buyers::buyer;
use crate::print::print_rows;
use crate::year::Year;
use anyhow::anyhow;
use calendar::COMMON_YEAR;
use journal::{law_cases, worked_run};
use ledger::{Ledger, LedgerFault, MOST_MODULES, Module, Refusal};
use metering::{Kind, Thermal, ThermalHour};
use sharing::{Remainder, Row, Running};

/// The facility that wins the award.
const WINNER: u32 = 1;
/// The facility that takes half of it.
const TAKER: u32 = 2;
/// The award.
const AWARD: u32 = 1;
/// The facilities' firm power.
const FIRM: u32 = 2_000;
/// The kW of the award.
const KW: u32 = 1_000;
/// The kW that are ceded.
const CEDED: u32 = 500;
/// The price of the award.
const PRICE: u32 = 12;

/// Makes the run, and prints its lines, its charges and its totals.
pub fn print_run(rt: &HostRuntime) -> anyhow::Result<()> {
    worked_run();
    law_cases();
    println!(rt; "The worked run")?;
    let mut year = Year::new(rt);
    let mut rows = [buyer(1, 1), buyer(2, 1), buyer(3, 1)];
    year.begin_run()?;
    year.award_winner()?;
    year.cut_off()?;
    year.advance(&mut rows)?;
    year.close(&Running, &mut rows)?;
    year.print_last_month(&rows)?;
    year.cede_to_taker()?;
    year.cut_off()?;
    year.report_hour(WINNER, CEDED)?;
    year.report_hour(TAKER, 0)?;
    year.report_hour(TAKER, 240)?;
    year.advance(&mut rows)?;
    year.close(&Remainder, &mut rows)?;
    year.print_last_month(&rows)?;
    year.print_totals()
}

impl Year<'_> {
    /// Opens the year, of which February has the first stress hour, and registers both facilities.
    fn begin_run(&mut self) -> anyhow::Result<()> {
        let answer = self.ledger.open(COMMON_YEAR, &[1_415], &[438]);
        accepted(self.rt, "opening", answer)?;
        numbered(self.rt, "registering", WINNER, register(&mut self.ledger))?;
        numbered(self.rt, "registering", TAKER, register(&mut self.ledger))?;
        self.switch("switching on", WINNER, true)
    }

    /// Awards, after an award that is too small.
    fn award_winner(&mut self) -> anyhow::Result<()> {
        refused(
            self.rt,
            "awarding too few kW",
            Refusal::OutOfLimits.into(),
            self.ledger.award(WINNER, 600, PRICE),
        )?;
        let answer = self.ledger.award(WINNER, KW, PRICE);
        numbered(self.rt, "awarding", AWARD, answer)
    }

    /// Cedes half of the award, and prints who holds it.
    fn cede_to_taker(&mut self) -> anyhow::Result<()> {
        self.switch("switching on", TAKER, true)?;
        let answer = self.ledger.cede(AWARD, WINNER, TAKER, CEDED);
        accepted(self.rt, "ceding", answer)?;
        let (winner, taker) = (self.holding(WINNER)?, self.holding(TAKER)?);
        println!(self.rt; "held after the cession: {winner} and {taker} kW")?;
        Ok(())
    }

    /// The kW of the award that a facility holds.
    fn holding(&self, facility: u32) -> anyhow::Result<u32> {
        let held = self.ledger.holding(AWARD, facility);
        held.ok_or_else(|| anyhow!("a holding was asked of a number that was not given out"))
    }

    /// A facility's report of February's one stress hour.
    fn report_hour(&mut self, facility: u32, declared: u32) -> anyhow::Result<()> {
        let hours = [ThermalHour {
            declared,
            least: 100,
        }];
        self.report::<Thermal>("the report", facility, &hours, None)
    }

    /// Prints the month that was closed last.
    fn print_last_month(&self, rows: &[Row]) -> anyhow::Result<()> {
        self.print_lines(self.ledger.closed_months())?;
        print_rows(self.rt, rows)
    }
}

/// Registers a thermal facility of one module.
fn register(ledger: &mut Ledger) -> Result<u32, LedgerFault> {
    let mut modules = [Module::default(); MOST_MODULES];
    modules[0] = Module::new(FIRM, 1_000);
    ledger.register(Thermal::LETTER, modules, 1, FIRM)
}
