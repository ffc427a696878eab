//! Registering a facility, and its firm power.
ghost use Rattle.std.specs.Prelude.{◌≡◌, ◌+◌, ◌≤◌, ◌↔◌, true, ◌∷◌, take, length, sum_by, IsTrue, Err};
ghost use Rattle.ledger.specs.Judged.{judged};
ghost use Rattle.ledger.specs.Course.{belongs};
ghost use Rattle.ledger.specs.Registering.{right_module, right_modules, right_count, right_figures, watts, firm_power, register_rows, Registers};
ghost use Rattle.ledger.specs.Entries.{Journal, registering};
ghost use Rattle.ledger.specs.Runs.{Recorded};

use crate::course::{Call, turn};
use crate::kept::Ledger;
use crate::state::{Facility, MOST_FACILITIES};
use crate::{LedgerFault, Refusal};

/// The most modules of a facility.
pub const MOST_MODULES: usize = 4;
/// The most kW that a module has installed, and the most that a facility has access for.
const MOST_KW: u32 = 1_000_000;
/// The whole of a coefficient, in thousandths.
const WHOLE: u32 = 1_000;
/// The watts of a kW.
const WATTS: u64 = 1_000;

/// A module of a facility: its installed kW, and the thousandths of them that are firm.
#[derive(Clone, Copy, Default)]
pub struct Module {
    pub installed: u32,
    pub coefficient: u32,
}

impl Module {
    /// A module of these kW, with this coefficient.
    pub fn new(installed: u32, coefficient: u32) -> Module
        ensures { result ≡ record { installed = installed; coefficient = coefficient } }
    {
        Module {
            installed,
            coefficient,
        }
    }
}

impl Ledger {
    /// Registers a facility, switched off, and answers its number.
    #[tactic(auto, using(crate::specs::Runs::noted))]
    pub fn register(
        &mut self,
        letter: u8,
        modules: [Module; MOST_MODULES],
        count: u32,
        access: u32,
    ) -> Result<u32, LedgerFault>
        ensures registers { Registers self.old.book letter modules count access result self.new.book }
        ensures full { (result ≡ Err (LedgerFault.Own Refusal.NoRoom))
            ↔ (IsTrue (belongs Call.Register self.old.book.stage)
            × (length self.old.book.register.items ≡ MOST_FACILITIES)) }
        ensures count { IsTrue (right_count count) ↔ ((1 ≤ count) × (count ≤ MOST_MODULES)) }
        ensures recorded { (j : Journal) → Recorded j self.old →
            Recorded (registering letter modules count access result ∷ j) self.new }
    {
        let figures = Figures {
            letter,
            modules,
            count,
            access,
        };
        let number = self.may_register(&figures)?;
        let firm = figures.firm_power();
        self.book.register.push(Facility {
            letter,
            firm,
            on: false,
        });
        Ok(number)
    }

    /// The number that the facility gets, or why it is not registered.
    fn may_register(&self, figures: &Figures) -> Result<u32, Refusal>
        ensures { result ≡ judged
            (register_rows self.now.book figures.now.letter figures.now.modules figures.now.count figures.now.access)
            (length self.now.book.register.items + 1) }
    {
        turn(self.book.stage, Call::Register)?;
        if self.book.register.is_full() {
            return Err(Refusal::NoRoom);
        }
        if !figures.are_right() {
            return Err(Refusal::OutOfLimits);
        }
        Ok(self.book.register.len() as u32 + 1)
    }
}

/// What a facility is registered with. Modules behind the count are not looked at.
#[derive(Clone, Copy)]
struct Figures {
    letter: u8,
    modules: [Module; MOST_MODULES],
    count: u32,
    access: u32,
}

impl Figures {
    /// Whether the figures are within their limits.
    fn are_right(&self) -> bool
        ensures { result ≡ right_figures self.now.letter self.now.modules self.now.count self.now.access }
    {
        self.letter.is_ascii_uppercase()
            && self.count >= 1
            && self.count as usize <= MOST_MODULES
            && right_modules(self.given())
            && self.access <= MOST_KW
    }

    /// The lesser of the access and the whole kW that the modules have firm together.
    fn firm_power(&self) -> u32
        requires few { self.now.count ≤ 4 }
        requires right { right_modules (take self.now.count self.now.modules) ≡ true }
        requires access { self.now.access ≤ 1_000_000 }
        ensures value { result ≡ firm_power self.now.modules self.now.count self.now.access }
        ensures bound { result ≤ 1_000_000 }
    {
        let kw = watts_together(self.given()) / WATTS;
        u64::from(self.access).min(kw) as u32
    }

    /// The modules within the count.
    fn given(&self) -> &[Module]
        requires { self.now.count ≤ 4 }
        ensures { result.now ≡ take self.now.count self.now.modules }
    {
        &self.modules[..self.count as usize]
    }
}

/// Whether each module's figures are within their limits.
fn right_modules(modules: &[Module]) -> bool
    ensures { result ≡ right_modules modules.now }
{
    modules.iter().all(|module| right_module(*module))
}

/// Whether a module's figures are within their limits.
fn right_module(module: Module) -> bool
    ensures { result ≡ right_module «module» }
{
    module.installed <= MOST_KW && module.coefficient <= WHOLE
}

/// The watts that modules have firm together.
fn watts_together(modules: &[Module]) -> u64
    requires few { length modules.now ≤ 4 }
    requires right { right_modules modules.now ≡ true }
    ensures { result ≡ sum_by watts modules.now }
{
    modules.iter().map(|module| watts(*module)).sum()
}

/// A module's firm power in watts.
fn watts(module: Module) -> u64
    ensures { result ≡ watts «module» }
{
    u64::from(module.installed) * u64::from(module.coefficient)
}
