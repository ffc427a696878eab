//! What the measured hours of a facility are worth: kinds of facility, reports with their tests, and the counted hours
//! and credited energy that come of them.

#![tactic(auto)]

mod fault;
mod kind;
mod measuring;
mod report;
mod testing;

pub use fault::MeteringFault;
pub use kind::{Demand, DemandHour, Kind, Storage, StorageHour, Thermal, ThermalHour};
pub use measuring::{Measured, measure, unreported};
pub use report::{Energy, Report, Test};
