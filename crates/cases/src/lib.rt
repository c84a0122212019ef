// The worked cases of the rules, proved together from the definitions.
#![tactic(auto)]

ghost use Rattle.cases.specs.Marked.{MarkedCases};

// Holds nothing: its contract is the table of worked cases.
pub fn marked_cases()
    ensures { MarkedCases }
{}
