//! Calls of trading: registering, switching, awarding and ceding.
use crate::call::{Call, Module};
use crate::dice::Dice;
use crate::notes::{Notes, held_in_all, held_under, month_of};
use ledger::Ledger;

/// The most kW of a module and of an access, and of an award.
const MOST_KW: u32 = 1_000_000;

/// The most euros for a MW and a year.
const MOST_PRICE: u32 = 100_000;

/// A call of trading. After the first month nothing is awarded, so it is then seldom tried.
pub fn trade(dice: &mut Dice, notes: &Notes, ledger: &Ledger) -> Call {
    match dice.within(1, 12) {
        1 => registering(dice),
        2..=4 => switching(dice, ledger),
        5..=8 if month_of(ledger) == 1 || dice.one_in(10) => awarding(dice, notes, ledger),
        _ => ceding(dice, notes, ledger),
    }
}

/// Registering a facility, mostly of a built-in kind and with figures that are right.
pub fn registering(dice: &mut Dice) -> Call {
    let mut letter = dice.pick(&[84, 83, 68]);
    if dice.one_in(10) {
        letter = dice.pick(&[0, 64, 65, 90, 91, 97, 116, 255]);
    }
    let modules = [module(dice), module(dice), module(dice), module(dice)];
    let (mut count, mut access) = (dice.within(1, 4), dice.within(20_000, MOST_KW));
    if dice.one_in(8) {
        count = dice.pick(&[0, 1, 4, 5, u32::MAX]);
        access = dice.about(0, MOST_KW);
    }
    Call::Register {
        letter: u8::try_from(letter).unwrap_or(0),
        modules,
        count,
        access,
    }
}

/// A module, mostly with figures that are right.
fn module(dice: &mut Dice) -> Module {
    let mut installed = dice.within(2_000, 400_000);
    let mut coefficient = dice.within(300, 1_000);
    if dice.one_in(16) {
        installed = dice.about(0, MOST_KW);
        coefficient = dice.about(0, 1_000);
    }
    Module {
        installed,
        coefficient,
    }
}

/// Switching a facility, mostly on.
fn switching(dice: &mut Dice, ledger: &Ledger) -> Call {
    Call::Switch {
        facility: dice.number(ledger.facilities()),
        on: !dice.one_in(5),
    }
}

/// Awarding kW to a facility, about as many as its firm power still admits.
fn awarding(dice: &mut Dice, notes: &Notes, ledger: &Ledger) -> Call {
    let facility = dice.number(ledger.facilities());
    let firm = notes.facility(facility).map_or(0, |found| found.firm);
    let rest = firm.saturating_sub(held_in_all(ledger, facility));
    let kw = match dice.within(1, 8) {
        1 => dice.about(1_000, MOST_KW),
        2 => rest,
        3 => rest.saturating_add(1),
        _ => dice.within(1_000, rest.max(1_000)),
    };
    Call::Award {
        facility,
        kw,
        price: dice.about(1, MOST_PRICE),
    }
}

/// Ceding kW, mostly of an award that the giver holds.
fn ceding(dice: &mut Dice, notes: &Notes, ledger: &Ledger) -> Call {
    let award = dice.number(ledger.awards());
    let taker = dice.number(ledger.facilities());
    let giver = match dice.one_in(12) {
        true => taker,
        false => holder(dice, ledger, award),
    };
    let held = held_under(ledger, award, giver);
    let firm = notes.facility(taker).map_or(0, |found| found.firm);
    let rest = firm.saturating_sub(held_in_all(ledger, taker));
    let kw = match dice.within(1, 12) {
        1 => 0,
        2 => held,
        3 => held.saturating_add(1),
        4 => rest.min(held),
        5 => rest.saturating_add(1),
        6 => u32::MAX,
        _ => dice.within(1, held.min(rest).max(1)),
    };
    Call::Cede {
        award,
        giver,
        taker,
        kw,
    }
}

/// A facility that holds kW of an award, as far as a few draws find one.
fn holder(dice: &mut Dice, ledger: &Ledger, award: u32) -> u32 {
    let mut facility = dice.number(ledger.facilities());
    for _ in 0..6 {
        if held_under(ledger, award, facility) > 0 {
            return facility;
        }
        facility = dice.number(ledger.facilities());
    }
    facility
}
