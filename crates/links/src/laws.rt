// What holds of the definitions. Each function's contract is a theorem.
ghost use Rattle.links.specs.Building.{BuildingKeepsTrees};
ghost use Rattle.links.specs.Reach.{LiveIsReached};
ghost use Rattle.links.specs.Ring.{RoomIsLeft};
ghost use Rattle.links.specs.Stands.{LevelsAreFew, TreesStand};

// Under the counting invariant the counts of references are exact: above 0 for what is reached from outside, and then the number of references.
#[tactic(auto, using(crate::proofs::Reaching::live_is_reached))]
pub fn live_is_reached()
    ensures { LiveIsReached }
{}

// How many levels a balanced tree has at most.
pub fn levels_are_few()
    ensures { LevelsAreFew }
{}

// Which tree stands at a link, and what leaves it standing.
#[tactic(auto, using(crate::proofs::Standing::standing))]
pub fn trees_stand()
    ensures { TreesStand }
{}

// What a call that takes and writes cells leaves standing.
#[tactic(auto, using(crate::proofs::Settling::building))]
pub fn building_keeps_trees()
    ensures { BuildingKeepsTrees }
{}

// Live and available cells are no more than there are.
#[tactic(auto, using(crate::proofs::Rings::room))]
pub fn room_is_left()
    ensures { RoomIsLeft }
{}
