//! The worked January, made of both and held against its figures.
use crate::call::{Call, Kind, Module, Report, Rule};
use crate::comparison::Comparison;

/// The kW that the facility holds.
const KW: u32 = 50_000;

/// Its right and its penalty, and what the three buyers pay together.
const LINE: (u64, u64) = (10_000_000, 354_838);

const TOTAL: u64 = 9_645_162;

/// What each of them pays.
const CHARGE: u64 = 3_215_054;

impl Comparison<'_> {
    /// Plays the worked January.
    pub fn play_january(&mut self) -> anyhow::Result<()> {
        self.begin(0);
        self.trade_in_january()?;
        self.make(Call::CutOff)?;
        let report = self.report_of_january()?;
        self.make(Call::Report {
            facility: 1,
            report,
        })?;
        self.charge_january(false)?;
        self.charge_january(true)?;
        let line = self.ledger.line(1, 1)?;
        self.compare("January's line", &(line.right, line.penalty), &LINE)
    }

    /// Opens the year, and awards the facility what it holds.
    fn trade_in_january(&mut self) -> anyhow::Result<()> {
        let module = Module {
            installed: KW,
            coefficient: 1_000,
        };
        self.make(Call::Open {
            year_hours: 8_760,
            firsts: vec![in self.heap; 0]?,
            lengths: vec![in self.heap; 744]?,
        })?;
        self.make(Call::Register {
            letter: b'T',
            modules: [module; 4],
            count: 1,
            access: KW,
        })?;
        self.make(Call::Switch {
            facility: 1,
            on: true,
        })?;
        self.make(Call::Award {
            facility: 1,
            kw: KW,
            price: 24_000,
        })?;
        Ok(())
    }

    /// The report of its 744 hours: 700 of them at all of its kW, and 44 at less.
    fn report_of_january(&self) -> anyhow::Result<Report> {
        let mut hours = vec![in self.heap; (KW, 10_000); 700]?;
        for _ in 0..44 {
            hours.push((20_000, 10_000))?;
        }
        Ok(Report {
            kind: Kind::Thermal,
            hours,
            test: None,
        })
    }

    /// Advances or closes it over three equal buyers.
    fn charge_january(&mut self, closes: bool) -> anyhow::Result<()> {
        let mwhs = vec![in self.heap; 1; 3]?;
        let rule = Rule::Running;
        let call = match closes {
            true => Call::Close { rule, mwhs },
            false => Call::Advance { rule, mwhs },
        };
        let answer = self.make(call)?;
        self.compare("January's total", &answer.value, &Ok(TOTAL))?;
        for charge in answer.charges.iter() {
            self.compare("January's charge", charge, &CHARGE)?;
        }
        self.compare("January's rows", &answer.charges.len(), &3)
    }
}
