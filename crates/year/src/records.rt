//! The records of a month's stress hours.
ghost use Rattle.std.specs.Prelude.{◌≡◌, ◌-◌, min, ◌++◌, replicate, IfOk};

use std::alloc::{AllocError, Global};

/// What a facility records: the same in each of a month's first hours, and the same in each hour after them.
#[derive(Clone, Copy)]
pub struct Hours<H> {
    pub first: H,
    pub after: H,
}

/// A month of the year: its number, and how many stress hours it has.
#[derive(Clone, Copy)]
pub struct Month {
    pub number: u32,
    pub stress: usize,
}

impl Month {
    /// A facility's records of the month. As many are of its first hours as the month has for a number.
    pub fn records<H: Copy>(self, heap: Global, hours: Hours<H>) -> Result<Vec<H>, AllocError>
        ensures { IfOk result (λ v. v.items
            ≡ replicate (min self.number self.stress) hours.first ++ replicate (self.stress - self.number) hours.after) }
    {
        records(heap, hours, self.number as usize, self.stress)
    }
}

/// So many records, of which the first ones are those of the first hours.
pub fn records<H: Copy>(
    heap: Global,
    hours: Hours<H>,
    first: usize,
    count: usize,
) -> Result<Vec<H>, AllocError>
    ensures { IfOk result (λ v. v.items ≡ replicate (min first count) hours.first ++ replicate (count - first) hours.after) }
{
    let mut all = Vec::new(heap);
    all.resize(first.min(count), hours.first)?;
    all.resize(count, hours.after)?;
    Ok(all)
}
