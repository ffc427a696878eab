//! The ledger's answers, each held against the one that a call is to get. A call is named by its number, or by its month
//! and its number there.
use ledger::LedgerFault;
use std::fmt::Debug;
use std::process::Abort;
use std::test::Fail;

/// The call was accepted, and answered this.
pub fn accepted<T: PartialEq + Debug + Drop>(
    rt: &impl Abort,
    call: impl Debug + Drop,
    answer: Result<T, LedgerFault>,
    value: T,
) -> Result<(), Fail> {
    match answer {
        Ok(given) => {
            assert_eq!(rt; given, value, "call {call:?}");
            Ok(())
        },
        Err(fault) => Err(Fail::new(format_args!("call {call:?}: refused by {}", fault.number()))),
    }
}

/// The call was refused by this number, layer and place.
pub fn refused<T: Drop>(
    rt: &impl Abort,
    call: impl Debug + Drop,
    answer: Result<T, LedgerFault>,
    number: u32,
    layer: &str,
    place: u32,
) -> Result<(), Fail> {
    match answer {
        Ok(_) => Err(Fail::new(format_args!("call {call:?}: accepted"))),
        Err(fault) => {
            assert_eq!(rt;
                (fault.number(), fault.layer(), fault.place()),
                (number, layer, place),
                "call {call:?}"
            );
            Ok(())
        },
    }
}

/// The call was refused by the ledger itself, by this number.
pub fn barred<T: Drop>(
    rt: &impl Abort,
    call: impl Debug + Drop,
    answer: Result<T, LedgerFault>,
    number: u32,
) -> Result<(), Fail> {
    refused(rt, call, answer, number, "ledger", 0)
}
