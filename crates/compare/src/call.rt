//! Calls as data: what a ledger is asked, and what it answers.

/// A module: its installed kW and its coefficient in thousandths.
#[derive(Clone, Copy, PartialEq, Eq, Debug)]
pub struct Module {
    pub installed: u32,
    pub coefficient: u32,
}

/// The kind that a report is of.
#[derive(Clone, Copy, PartialEq, Eq, Debug)]
pub enum Kind {
    Thermal,
    Storage,
    Demand,
}

/// A test: its first hour, and each hour's ordered and delivered kWh.
#[derive(Drop)]
pub struct Test {
    pub first: u32,
    pub pairs: Vec<(u32, u32)>,
}

/// A report: its kind, the two figures of each hour record in the order in which the rules name them, and its test.
#[derive(Drop)]
pub struct Report {
    pub kind: Kind,
    pub hours: Vec<(u32, u32)>,
    pub test: Option<Test>,
}

/// A built-in rule of sharing.
#[derive(Clone, Copy, PartialEq, Eq, Debug)]
pub enum Rule {
    Running,
    Remainder,
}

/// A call that may change a ledger, with all that it is given. Of the buyers' rows only the MWh are given.
#[derive(Drop)]
pub enum Call {
    Open {
        year_hours: u32,
        firsts: Vec<u16>,
        lengths: Vec<u16>,
    },
    Register {
        letter: u8,
        modules: [Module; 4],
        count: u32,
        access: u32,
    },
    Switch {
        facility: u32,
        on: bool,
    },
    Award {
        facility: u32,
        kw: u32,
        price: u32,
    },
    Cede {
        award: u32,
        giver: u32,
        taker: u32,
        kw: u32,
    },
    CutOff,
    Report {
        facility: u32,
        report: Report,
    },
    Advance {
        rule: Rule,
        mwhs: Vec<u32>,
    },
    Claim {
        facility: u32,
    },
    Dismiss {
        facility: u32,
    },
    Uphold {
        facility: u32,
        report: Report,
    },
    Close {
        rule: Rule,
        mwhs: Vec<u32>,
    },
}

/// A refusal: its number, the name of its layer, and its place or 0.
#[derive(Clone, Copy, PartialEq, Eq, Debug)]
pub struct Refusal {
    pub number: u32,
    pub layer: &'static str,
    pub place: u32,
}

/// What a call asks for.
#[derive(Clone, Copy, PartialEq, Eq)]
pub enum Sort {
    Opening,
    Registering,
    Switching,
    Awarding,
    Ceding,
    CuttingOff,
    Reporting,
    Advancing,
    Claiming,
    Dismissing,
    Upholding,
    Closing,
}

/// What each sort of call is called, in their order.
pub const SORTS: [&str; 12] = [
    "opening",
    "registering",
    "switching",
    "awarding",
    "ceding",
    "cutting off",
    "reporting",
    "advancing",
    "claiming",
    "dismissing",
    "upholding",
    "closing",
];

impl Sort {
    /// The sort that a call is of.
    pub fn of(call: &Call) -> Sort {
        match call {
            Call::Open { .. } => Sort::Opening,
            Call::Register { .. } => Sort::Registering,
            Call::Switch { .. } => Sort::Switching,
            Call::Award { .. } => Sort::Awarding,
            Call::Cede { .. } => Sort::Ceding,
            Call::CutOff => Sort::CuttingOff,
            Call::Report { .. } => Sort::Reporting,
            Call::Advance { .. } => Sort::Advancing,
            Call::Claim { .. } => Sort::Claiming,
            Call::Dismiss { .. } => Sort::Dismissing,
            Call::Uphold { .. } => Sort::Upholding,
            Call::Close { .. } => Sort::Closing,
        }
    }

    /// What it is called.
    pub fn name(self) -> &'static str {
        SORTS[self as usize]
    }
}

/// What a call answers: its value, 0 where it answers none; and what each buyer's row is charged, in order, where the
/// call was accepted and had rows.
#[derive(Drop)]
pub struct Answer {
    pub value: Result<u64, Refusal>,
    pub charges: Vec<u64>,
}
