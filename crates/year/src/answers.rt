//! What the ledger answered, held against what the year expects: an expected refusal is printed and the year goes on,
//! any other surprise ends the program.
ghost use Rattle.std.specs.Prelude.{◌≡◌, IfOk, Ok, Err, OnOk};

use anyhow::anyhow;
use ledger::LedgerFault;
use std::fmt::Display;

/// What an accepted call answered. Where it was refused, the refusal is printed and the year cannot go on.
pub fn accepted<T: Drop, E: Display + Drop>(
    rt: &HostRuntime,
    call: &str,
    answer: Result<T, E>,
) -> anyhow::Result<T>
    ensures { IfOk result (λ value. answer ≡ Ok value) }
{
    match answer {
        Ok(value) => Ok(value),
        Err(fault) => {
            println!(rt; "refused: {call}: {fault}")?;
            Err(anyhow!("a call was refused that is to be accepted"))
        }
    }
}

/// Holds the number that a call gave out against the one that it is to give out.
pub fn numbered(
    rt: &HostRuntime,
    call: &str,
    number: u32,
    answer: Result<u32, LedgerFault>,
) -> anyhow::Result<()>
    ensures { OnOk result (answer ≡ Ok number) }
{
    if accepted(rt, call, answer)? != number {
        return Err(anyhow!("a number was given out that is not the next"));
    }
    Ok(())
}

/// Prints a refusal that is met on the way. Where the call was accepted, or refused for another reason, the year cannot
/// go on.
pub fn refused<T: Drop>(
    rt: &HostRuntime,
    call: &str,
    expected: LedgerFault,
    answer: Result<T, LedgerFault>,
) -> anyhow::Result<()>
    ensures { OnOk result (answer ≡ Err expected) }
{
    let Err(fault) = answer else {
        return Err(anyhow!("a call was accepted that is to be refused"));
    };
    println!(rt; "refused: {call}: {fault}")?;
    if fault != expected {
        return Err(anyhow!("a call was refused for another reason"));
    }
    Ok(())
}
