// Theorems about the definitions alone. A call does nothing; what it ensures is the theorem.
ghost use Rattle.guarantee.specs.Cases.{CaseJStands};
ghost use Rattle.guarantee.specs.Laws.{LivesAreGuaranteed};

// Over every life of a dispatcher, over every ready list and in every arrangement of the calls: on a fit table no
// request is unfinished at its due time; on every table no store is shared and the schedule is busy; and a table that
// is refused is hopeless.
#[tactic(auto, using(crate::proofs::Alive::lives_are_guaranteed_lem))]
pub fn lives_are_guaranteed()
    ensures { LivesAreGuaranteed }
{}

// The calls of the example session, J, with the answers that it prints, are the record of a life.
#[tactic(auto, using(crate::proofs::Example::case_j_stands_lem))]
pub fn case_j_stands()
    ensures { CaseJStands }
{}
