//! A new calendar has its stress hours in January, all 744 of them, and none in February.
ghost use Rattle.std.specs.Prelude.{ℕ, ◌/◌, min};
ghost use Rattle.std.proofs.Common.{rules};

use calendar::Calendar;
use metering::{
    Demand, DemandHour, Energy, Kind, Measured, MeteringFault, Report, Storage, StorageHour, Test,
    Thermal, ThermalHour, measure, unreported,
};
use std::process::Abort;
use std::test::Fail;

/// A wind farm, credited with a tenth of its forecast.
struct Wind;

/// The forecast of an hour, in kW.
#[derive(Clone, Copy)]
struct WindHour {
    forecast: u32,
}

impl Kind for Wind {
    type Hour = WindHour;

    const LETTER: u8 = b'W';

    const SHORTEST: u32 = 2;

    const LONGEST: u32 = 2;

    ghost LETTER = { 87 };

    ghost SHORTEST = { 2 };

    ghost LONGEST = { 2 };

    ghost credit = { λ hour commitment. min commitment (hour.forecast / 10) };

    ghost bounded = { Prim.search rules };

    ghost lasting = { Prim.search rules };

    fn credit(hour: &WindHour, commitment: u32) -> u32 {
        commitment.min(hour.forecast / 10)
    }
}

/// Measures a report of these records and this test.
fn month<K: Kind>(
    month: u32,
    commitment: u32,
    hours: &[K::Hour],
    test: Option<Test>,
) -> Result<Measured, MeteringFault> {
    let report: Report<K> = Report { hours, test };
    measure::<K>(&Calendar::new(), month, commitment, &report)
}

/// Measures a January's report of these records, without a test.
fn january<K: Kind>(commitment: u32, hours: &[K::Hour]) -> Result<Measured, MeteringFault> {
    month::<K>(1, commitment, hours, None)
}

/// The month came to these counted hours and this credited energy.
fn comes_to(rt: &impl Abort, answer: Result<Measured, MeteringFault>, counted: u32, credited: u64) {
    assert_eq!(rt; answer, Ok(Measured { counted, credited }));
}

/// The month was refused by this number at this place.
fn refused(
    rt: &impl Abort,
    answer: Result<Measured, MeteringFault>,
    number: u32,
    place: u32,
) -> Result<(), Fail> {
    match answer {
        Ok(_) => Err(Fail::new("accepted")),
        Err(fault) => {
            assert_eq!(rt; fault.number(), number);
            assert_eq!(rt; fault.place(), place);
            Ok(())
        }
    }
}

const FULL: [StorageHour; 744] = [StorageHour {
    power: 2_000,
    stored: 1_500,
}; 744];

const IDLE: [DemandHour; 0] = [];

const GOOD: Energy = Energy {
    ordered: 1_000,
    delivered: 951,
};

const FAILED: Energy = Energy {
    ordered: 1_000,
    delivered: 950,
};

#[test]
fn a_january_with_44_poor_hours(rt: HostRuntime) {
    let hours: [ThermalHour; 744] = std::array::from_fn(|i| ThermalHour {
        declared: if i < 700 { 50_000 } else { 20_000 },
        least: 10_000,
    });
    comes_to(&rt, january::<Thermal>(50_000, &hours), 744, 35_880_000);
    let test = Some(Test {
        first: 100,
        hours: &[GOOD, FAILED, GOOD],
    });
    comes_to(
        &rt,
        month::<Thermal>(1, 50_000, &hours, test),
        744,
        35_830_000,
    );
}

#[test]
fn a_failed_stress_hour_counts_once_and_credits_nothing(rt: HostRuntime) {
    let passed = Some(Test {
        first: 743,
        hours: &[GOOD],
    });
    comes_to(&rt, month::<Storage>(1, 1_000, &FULL, passed), 744, 744_000);
    let failed = Some(Test {
        first: 743,
        hours: &[FAILED],
    });
    comes_to(&rt, month::<Storage>(1, 1_000, &FULL, failed), 744, 743_000);
}

#[test]
fn a_failed_hour_that_is_no_stress_hour_adds_one(rt: HostRuntime) {
    comes_to(&rt, month::<Demand>(2, 1_000, &IDLE, None), 0, 0);
    let test = Some(Test {
        first: 744,
        hours: &[FAILED, GOOD, FAILED],
    });
    comes_to(&rt, month::<Demand>(2, 1_000, &IDLE, test), 2, 0);
    let generous = Some(Test {
        first: 1_415,
        hours: &[Energy {
            ordered: 1_000_000,
            delivered: 4_294_967_295,
        }],
    });
    comes_to(&rt, month::<Demand>(2, 1_000, &IDLE, generous), 0, 0);
}

#[test]
fn credits_of_the_kinds(rt: HostRuntime) {
    let thermal = [ThermalHour {
        declared: 20_000,
        least: 20_000,
    }; 744];
    comes_to(&rt, january::<Thermal>(50_000, &thermal), 744, 14_880_000);
    comes_to(&rt, january::<Thermal>(10_000, &thermal), 744, 7_440_000);
    let stopped = [ThermalHour {
        declared: 9_999,
        least: 10_000,
    }; 744];
    comes_to(&rt, january::<Thermal>(50_000, &stopped), 744, 0);
    let demand = [DemandHour {
        consumption: 900,
        residual: 400,
    }; 744];
    comes_to(&rt, january::<Demand>(600, &demand), 744, 372_000);
    let wind = [WindHour {
        forecast: 4_294_967_295,
    }; 744];
    comes_to(
        &rt,
        january::<Wind>(4_294_967_295, &wind),
        744,
        319_545_566_376,
    );
}

#[test]
fn each_hour_is_credited_by_its_own_record(rt: HostRuntime) {
    let mut hours = [ThermalHour {
        declared: 0,
        least: 0,
    }; 744];
    hours[0].declared = 100;
    hours[1].declared = 200;
    hours[743].declared = 300;
    // 100 + 200 + 300
    comes_to(&rt, january::<Thermal>(1_000, &hours), 744, 600);
    // The second hour failed: 100 + 300.
    let test = Some(Test {
        first: 0,
        hours: &[GOOD, FAILED, GOOD],
    });
    comes_to(&rt, month::<Thermal>(1, 1_000, &hours, test), 744, 400);
    // The same under 250 kW: 100 + 250.
    comes_to(&rt, month::<Thermal>(1, 250, &hours, test), 744, 350);
}

#[test]
fn refusals(rt: HostRuntime) -> Result<(), Fail> {
    let good = Some(Test {
        first: 0,
        hours: &[GOOD],
    });
    refused(&rt, month::<Storage>(1, 1_000, &FULL[0..743], good), 17, 0)?;
    refused(&rt, month::<Storage>(2, 1_000, &FULL, good), 17, 0)?;
    let nothing = Some(Test {
        first: 0,
        hours: &[],
    });
    refused(&rt, month::<Storage>(1, 1_000, &FULL, nothing), 18, 0)?;
    let long = Some(Test {
        first: 0,
        hours: &[GOOD, GOOD],
    });
    refused(&rt, month::<Storage>(1, 1_000, &FULL, long), 18, 0)?;
    let late = Some(Test {
        first: 744,
        hours: &[GOOD],
    });
    refused(&rt, month::<Storage>(1, 1_000, &FULL, late), 18, 0)?;
    let last = Some(Test {
        first: 4_294_967_295,
        hours: &[GOOD],
    });
    refused(&rt, month::<Storage>(1, 1_000, &FULL, last), 18, 0)
}

#[test]
fn the_place_of_a_wrong_order(rt: HostRuntime) -> Result<(), Fail> {
    let zero = Energy {
        ordered: 0,
        delivered: 0,
    };
    let large = Energy {
        ordered: 1_000_001,
        delivered: 0,
    };
    let second = Some(Test {
        first: 0,
        hours: &[GOOD, zero, large],
    });
    refused(&rt, month::<Storage>(1, 1_000, &FULL, second), 18, 2)?;
    let first = Some(Test {
        first: 9_000,
        hours: &[large],
    });
    refused(&rt, month::<Storage>(1, 1_000, &FULL, first), 18, 1)
}

#[test]
fn without_a_report(rt: HostRuntime) {
    let calendar = Calendar::new();
    comes_to(&rt, Ok(unreported(&calendar, 1)), 744, 0);
    comes_to(&rt, Ok(unreported(&calendar, 2)), 0, 0);
    assert_eq!(rt; unreported(&calendar, 1).required(50_000), 37_200_000);
}
