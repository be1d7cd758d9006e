// The planned way of a sheet: definitions, and what is proved of them.
#![tactic(auto)]

ghost use Rattle.plans.specs.Leaves.{LeavesRight};
ghost use Rattle.plans.specs.Limits.{LimitsRight};
ghost use Rattle.plans.specs.Chains.{TailsRight, ChainsRight};
ghost use Rattle.plans.specs.Limited.{TakenRight};
ghost use Rattle.plans.specs.Planned.{PlannedRight};
ghost use Rattle.plans.specs.Rule.{PlannedKeeps, PlannedOnly};
ghost use Rattle.plans.specs.Cases.{CasesRight};

// The minutes of a way, and its chain.
#[derive(Clone, Copy, PartialEq, Eq, Debug)]
pub struct Sums {
    pub work: u32,
    pub long: u32,
}

// The limit at which a way is taken, and the score of that way.
#[derive(Clone, Copy, PartialEq, Eq, Debug)]
pub struct Plan {
    pub limit: u32,
    pub score: u32,
}

// Leaves are the steps of join AND without feeders; the limits are the paths of those that are not closed, ascending.
pub fn limits_stand()
    ensures leaves { LeavesRight }
    ensures limits { LimitsRight }
{}

// A tail adds up the minutes along the targets, and the chain of a way is the greatest path of a leaf on it.
pub fn chains_stand()
    ensures tails { TailsRight }
    ensures chains { ChainsRight }
{}

// The way taken at a limit is the open way of the fewest minutes that has its chain within it.
pub fn limited_stands()
    ensures { TakenRight }
{}

// The planned way is open, and no open way has a lower score; there is one exactly if a way is open.
pub fn plans_stand()
    ensures { PlannedRight }
{}

// The planned way is the one way that keeps the rule.
pub fn rule_stands()
    ensures keeps { PlannedKeeps }
    ensures only { PlannedOnly }
{}

// The planned ways of small sheets.
pub fn cases_stand()
    ensures { CasesRight }
{}
