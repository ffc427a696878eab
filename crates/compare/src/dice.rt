//! A generator of pseudo-random numbers: the same seed gives the same numbers.

/// What is added to the state before each number.
const STEP: u64 = 0x9E37_79B9_7F4A_7C15;

/// A sequence of numbers.
#[derive(Drop)]
pub struct Dice {
    state: u64,
}

impl Dice {
    /// The sequence that begins at a seed.
    pub fn new(seed: u64) -> Dice {
        Dice { state: seed }
    }

    /// The next number.
    fn roll(&mut self) -> u64 {
        self.state = self.state.wrapping_add(STEP);
        let mixed = self.state;
        let mixed = (mixed ^ (mixed >> 30)).wrapping_mul(0xBF58_476D_1CE4_E5B9);
        let mixed = (mixed ^ (mixed >> 27)).wrapping_mul(0x94D0_49BB_1331_11EB);
        mixed ^ (mixed >> 31)
    }

    /// A number from the low one to the high one; the low one where there is none between.
    pub fn within(&mut self, low: u32, high: u32) -> u32 {
        let span = u64::from(high.saturating_sub(low)).saturating_add(1);
        let over = self.roll().checked_rem(span).unwrap_or(0);
        low.saturating_add(u32::try_from(over).unwrap_or(0))
    }

    /// Whether one of so many cases comes up.
    pub fn one_in(&mut self, cases: u32) -> bool {
        self.within(1, cases) == 1
    }

    /// One of the numbers listed; 0 of none.
    pub fn pick(&mut self, list: &[u32]) -> u32 {
        let last = list.len().saturating_sub(1);
        let place = self.within(0, u32::try_from(last).unwrap_or(0));
        list.get(place as usize).copied().unwrap_or(0)
    }

    /// A number about limits: mostly one within them, else a limit or a neighbour of one.
    pub fn about(&mut self, low: u32, high: u32) -> u32 {
        if !self.one_in(4) {
            return self.within(low, high);
        }
        let (under, over) = (low.saturating_sub(1), high.saturating_add(1));
        self.pick(&[under, low, high, over, u32::MAX])
    }

    /// A number given out, of so many; now and then one that is not.
    pub fn number(&mut self, count: u32) -> u32 {
        if !self.one_in(16) && count > 0 {
            return self.within(1, count);
        }
        self.pick(&[0, count.saturating_add(1), 65, u32::MAX])
    }
}
