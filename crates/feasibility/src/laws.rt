// Theorems about the definitions alone. A call does nothing; what it ensures is the theorem.
ghost use Rattle.feasibility.specs.Cases.{CasesStand, ExampleStands};
ghost use Rattle.feasibility.specs.Hopeless.{RefusalsAreDeserved, SchedulesExist};
ghost use Rattle.feasibility.specs.Laws.{OneVerdict};

// Of any rows exactly one of the three verdicts is right.
#[tactic(auto, using(crate::proofs::OneVerdict::one_verdict))]
pub fn exactly_one_verdict()
    ensures { OneVerdict }
{}

// The tables A to I have the hyperperiods, loads and verdicts that are worked out by hand.
#[tactic(auto, using(crate::proofs::CaseTests::cases_stand_lem))]
pub fn cases_stand()
    ensures { CasesStand }
{}

// The same of the table of the example session.
#[tactic(auto, using(crate::proofs::CaseTests::example_stands_lem))]
pub fn example_stands()
    ensures { ExampleStands }
{}

// Of a table that is told to be overloaded or blocked: under the requests that the verdict names, which are lawful,
// every schedule is late (if blocked, every busy one that shares no store).
#[tactic(auto, using(crate::proofs::Refused::refusals_are_deserved_lem))]
pub fn refusals_are_deserved()
    ensures { RefusalsAreDeserved }
{}

// Under the requests that the verdicts on D and F name there are busy schedules that share no store: each is late, and
// not for want of schedules.
#[tactic(auto, using(crate::proofs::Planned::schedules_exist_lem))]
pub fn schedules_exist()
    ensures { SchedulesExist }
{}
