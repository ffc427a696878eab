//! Where the cents left over end, when they go to the largest remainders first.
ghost use Rattle.std.specs.Prelude.{◌≡◌, ◌≤◌, ◌-◌, if◌then◌else◌, nat_eq, nat_le, length};
ghost use Rattle.sharing.specs.Cut.{count_above, Least, cent_at};

/// The cents left over, and the remainders of all rows, the largest of which they go to; none is above `most`.
#[derive(Clone, Copy)]
pub(crate) struct LeftOver<'a> {
    pub(crate) cents: u64,
    pub(crate) rems: &'a [u32],
    pub(crate) most: u32,
    ghost top: { count_above rems.now most ≡ 0 },
    ghost few: { length rems.now ≤ 1_024 },
}

impl LeftOver<'_> {
    /// The least number that no more remainders are above than cents are left: each turn halves what it may be.
    fn least(&self) -> u32
        ensures { Least self.now.rems.now self.now.cents result }
    {
        let mut low = 0;
        let mut high = self.most;
        while low < high {
            let mid = low + (high - low) / 2;
            if self.is_enough(mid) {
                high = mid;
            } else {
                low = mid + 1;
            }
        }
        low
    }

    /// Whether there is a cent for each remainder above `at`.
    fn is_enough(&self, at: u32) -> bool
        ensures { result ≡ nat_le (count_above self.now.rems.now at) self.now.cents }
    {
        self.count_above(at) <= self.cents
    }

    /// How many remainders are above `at`.
    fn count_above(&self, at: u32) -> u64
        ensures { result ≡ count_above self.now.rems.now at }
    {
        // The sum has no branch, and as many bits as a remainder, so that several are counted at once.
        let above: u32 = self.rems.iter().map(|rem| u32::from(*rem > at)).sum();
        u64::from(above)
    }
}

/// A remainder such that each row above it has a cent of those left over, and of the rows at it the next `ties`.
#[derive(Clone, Copy)]
pub struct Cut {
    at: u32,
    ties: u64,
}

impl Cut {
    /// The cut for the cents left over.
    pub(crate) fn find(left: &LeftOver) -> Cut
        ensures at { Least left.now.rems.now left.now.cents result.at }
        ensures ties { result.ties ≡ left.now.cents - count_above left.now.rems.now result.at }
    {
        let at = left.least();
        let ties = left.cents - left.count_above(at);
        Cut { at, ties }
    }

    /// The cent, or none, of the next row, which has this remainder.
    pub(crate) fn next(&mut self, rem: u32) -> u64
        ensures same { self.new.at ≡ self.old.at }
        ensures ties { self.new.ties ≡ self.old.ties - (if nat_eq rem self.old.at then 1 else 0) }
        ensures cent { result ≡ cent_at self.old.at self.old.ties rem }
    {
        if rem != self.at {
            return u64::from(rem > self.at);
        }
        let tied = self.ties > 0;
        self.ties = self.ties.saturating_sub(1);
        u64::from(tied)
    }
}
