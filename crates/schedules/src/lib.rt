// Timetables on benches: the dispatch rule, and what is proved of it.
#![tactic(auto)]

ghost use Rattle.schedules.specs.Theorems.{DispatchValid, GreedyBound, DispatchBound, LowerBounds, FirstEndsLast, DispatchMeetsRule, RuleUnique};

// Whatever the policy, dispatching gives a valid timetable.
pub fn timetables_stand()
    ensures { DispatchValid }
{}

// How late a timetable ends, at most and at least.
pub fn bounds_stand()
    ensures greedy { GreedyBound }
    ensures most { DispatchBound }
    ensures least { LowerBounds }
    ensures last { FirstEndsLast }
{}

// Dispatching meets the rule that says what a dispatched timetable is, and nothing else does.
pub fn rule_stands()
    ensures met { DispatchMeetsRule }
    ensures unique { RuleUnique }
{}
