//! That each opened store has a world.
ghost use Rattle.fkv_core.specs.Openings.{IsOpeningWorld};
ghost use Rattle.law_paper.specs.Below.fkv_opening.TheOpened.{Opened};
ghost use Rattle.law_refine.specs.Below.fkv_world.World.{Now};

/// For each opened store there is a world with which its life begins: words, sessions and a keeper, such as `World::open` makes where memory is granted.
pub fn law_world_exists()
    ensures { (o : Opened) → (n : Now) × IsOpeningWorld o n }
{}
