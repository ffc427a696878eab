//! A run of hours: its span, and its part of a span of the year.
ghost use Rattle.std.specs.Prelude.{◌≡◌, ◌≤◌, max, min};
ghost use Rattle.calendar.specs.Runs.{ends, covers, part_hours};

use std::ops::Range;

/// Hours of the year that follow one another.
#[derive(Clone, Copy, Default, PartialEq, Eq, Debug)]
pub struct Run {
    /// The first hour, counted from 0.
    pub first: u16,
    /// How many hours there are.
    pub len: u16,
}

impl Run {
    /// From the first hour to the hour after the last, which may lie beyond 16 bits.
    pub(crate) fn span(self) -> Range<u32>
        ensures start { result.start ≡ self.first }
        ensures end { result.end ≡ ends self }
        ensures bound { result.end ≤ 131_070 }
    {
        let first = u32::from(self.first);
        first..first + u32::from(self.len)
    }

    /// Whether this hour is one of the run's.
    pub(crate) fn covers(self, hour: u32) -> bool
        ensures { result ≡ covers self hour }
    {
        self.span().contains(&hour)
    }

    /// The run's part of some hours that follow one another. It is empty where it ends before it begins.
    pub(crate) fn part(self, hours: &Range<u32>) -> Range<u32>
        ensures start { result.start ≡ max hours.now.start self.first }
        ensures end { result.end ≡ min hours.now.end (ends self) }
    {
        let span = self.span();
        hours.start.max(span.start)..hours.end.min(span.end)
    }

    /// How many hours the run's part has.
    pub(crate) fn part_hours(self, hours: &Range<u32>) -> u32
        ensures { result ≡ part_hours hours.now.start hours.now.end self }
    {
        let part = self.part(hours);
        part.end.saturating_sub(part.start)
    }
}
