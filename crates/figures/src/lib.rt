//! The worked figures of the rules, and cases that its laws decide: they hold of the definitions that the library's
//! contracts cite.

#![tactic(auto)]

ghost use Rattle.std.specs.List.{AllByRecursion};
ghost use Rattle.figures.specs.Figures.{Holds, figures};
ghost use Rattle.figures.specs.Laws.{Decided, calendar_cases, shareable_cases, near_cases, lawful_cases, fair_cases};

/// Does nothing: every worked figure holds.
pub fn worked_figures()
    ensures { AllByRecursion Holds figures }
{}

/// Does nothing: calendars and the laws of sharing allow what they should, and no more.
pub fn worked_laws()
    ensures calendar { AllByRecursion Decided calendar_cases }
    ensures shareable { AllByRecursion Decided shareable_cases }
    ensures near { AllByRecursion Decided near_cases }
    ensures lawful { AllByRecursion Decided lawful_cases }
    ensures fair { AllByRecursion Decided fair_cases }
{}
