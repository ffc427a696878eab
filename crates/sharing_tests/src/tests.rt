//! The built-in rules on examples, and the rule of the largest remainder against a plain computation by sorting.
use sharing::{MOST_ROWS, Remainder, Row, Running, RunningSplit, SharingRule, total_mwh};
use std::alloc::{AllocError, Global};
use std::process::Abort;
use std::test::Fail;

const MOST_CENTS: u64 = 30_000_000_000;

const MOST_MWH: u64 = 40_000_000;

/// A row's claim to a cent: how far its remainder is short of one, so that sorted claims begin with the largest
/// remainder, and among equals with the earlier row.
#[derive(Clone, Copy, PartialEq, Eq, PartialOrd, Ord)]
struct Claim {
    short: u64,
    row: usize,
}

/// What each row is to pay by the rule of the largest remainder, from a sorted list of claims.
fn by_sorting(heap: Global, total: u64, rows: &[Row]) -> Result<Vec<u64>, AllocError> {
    let whole = total_mwh(rows);
    let mut left = total;
    let mut charges = Vec::new(heap);
    let mut claims = Vec::new(heap);
    for (i, row) in rows.iter().enumerate() {
        let product = total.saturating_mul(u64::from(row.mwh));
        let cents = product.checked_div(whole).unwrap_or(0);
        let rest = product.checked_rem(whole).unwrap_or(0);
        left = left.saturating_sub(cents);
        charges.push(cents)?;
        claims.push(Claim {
            short: whole.saturating_sub(rest),
            row: i,
        })?;
    }
    claims.sort()?;
    for claim in claims.iter().take(left as usize) {
        if let Some(cents) = charges.get_mut(claim.row) {
            *cents = cents.saturating_add(1);
        }
    }
    Ok(charges)
}

/// Rows of these MWh, with an old charge on each.
fn rows_of(heap: Global, mwhs: &[u32]) -> Result<Vec<Row>, AllocError> {
    let (id, charge) = (7, 99);
    mwhs.iter()
        .map(|&mwh| Row { id, mwh, charge })
        .collect(heap)
}

/// What the rows are charged.
fn charges_of(heap: Global, rows: &[Row]) -> Result<Vec<u64>, AllocError> {
    rows.iter().map(|row| row.charge).collect(heap)
}

/// What the rule charges rows of these MWh.
fn shared<R: SharingRule>(
    rt: &impl Abort,
    heap: Global,
    rule: &R,
    total: u64,
    mwhs: &[u32],
) -> Result<Vec<u64>, Fail> {
    let mut rows = rows_of(heap, mwhs)?;
    assert!(rt; total <= MOST_CENTS && rows.len() <= MOST_ROWS && total_mwh(&rows) <= MOST_MWH);
    assert!(rt; rule.share(total, &mut rows).is_ok());
    Ok(charges_of(heap, &rows)?)
}

/// Checks the rule of the largest remainder against the sorted claims.
fn agrees(rt: &impl Abort, heap: Global, total: u64, mwhs: &[u32]) -> Result<(), Fail> {
    let rows = rows_of(heap, mwhs)?;
    let expected = by_sorting(heap, total, &rows)?;
    assert_eq!(rt; shared(rt, heap, &Remainder, total, mwhs)?, expected);
    Ok(())
}

/// As many rows as there may be, of as many MWh as there may be together.
fn most_rows(heap: Global) -> Result<Vec<u32>, AllocError> {
    let mut mwhs: Vec<u32> = (0..1_023u32).map(|i| 39_000 + i * 37 % 61).collect(heap)?;
    let rest = mwhs
        .iter()
        .fold(40_000_000u32, |rest, &mwh| rest.saturating_sub(mwh));
    mwhs.push(rest)?;
    Ok(mwhs)
}

#[test]
fn thirds(rt: HostRuntime) -> Result<(), Fail> {
    let heap = rt.alloc();
    assert_eq!(rt;
        shared(&rt, heap, &Remainder, 100, &[1, 1, 1])?,
        vec![in heap; 34, 33, 33]?
    );
    assert_eq!(rt;
        shared(&rt, heap, &Running, 100, &[1, 1, 1])?,
        vec![in heap; 33, 33, 34]?
    );
    Ok(())
}

#[test]
fn short_lists(rt: HostRuntime) -> Result<(), Fail> {
    let table: [(u64, &[u32]); 8] = [
        (0, &[]),
        (0, &[0, 0, 0]),
        (12_345, &[9]),
        (100, &[1, 1, 1]),
        (7, &[0, 5, 0, 5, 0]),
        (1, &[3, 2, 1, 2, 3]),
        (1_000, &[6, 1, 6, 1, 6, 1, 6]),
        (30_000_000_000, &[40_000_000]),
    ];
    for (total, mwhs) in table {
        agrees(&rt, rt.alloc(), total, mwhs)?;
    }
    Ok(())
}

#[test]
fn nothing_to_share_by(rt: HostRuntime) {
    let weightless = [Row {
        id: 7,
        mwh: 0,
        charge: 99,
    }; 2];
    let mut rows = weightless;
    assert!(rt; Remainder.share(1, &mut rows).is_err());
    assert_eq!(rt; rows, weightless);
}

#[test]
fn long_lists(rt: HostRuntime) -> Result<(), Fail> {
    let heap = rt.alloc();
    agrees(&rt, heap, 1_000_003, &[3; 1_024])?;
    let most = most_rows(heap)?;
    assert_eq!(rt; total_mwh(&rows_of(heap, &most)?), 40_000_000);
    agrees(&rt, heap, 29_999_999_999, &most)?;
    agrees(&rt, heap, 30_000_000_000, &most)
}

#[test]
fn the_running_split(rt: HostRuntime) {
    // The product passes 64 bits, or just does not.
    assert!(rt; RunningSplit::new(4_294_967_296, 4_294_967_296).is_none());
    assert!(rt; RunningSplit::new(4_294_967_297, 4_294_967_295).is_some());
    let mut split = RunningSplit::new(9, 1_000).unwrap();
    assert_eq!(rt; split.hand(500), Some(4));
    // More than is left is not handed out, and changes nothing.
    assert_eq!(rt; split.hand(501), None);
    assert_eq!(rt; split.hand(500), Some(5));
}
