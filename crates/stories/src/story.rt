//! What the turns of a story did, one after the other.
ghost use Rattle.std.specs.Prelude.{◌≡◌, IfOk, true};
ghost use Rattle.std.specs.List.{list_all};
ghost use Rattle.incidents.specs.Calls.{IsCalm};
ghost use Rattle.stories.specs.Plays.{first_scene, first_world, is_calm, moments_of, world_after};

use crate::happening::Happening;
use crate::player::Player;
use crate::reading::StoryScript;
use crate::turn::Turn;
use dealer::Plans;
use incidents::IncidentWorld;
use std::alloc::{AllocError, Global};

/// A turn, and what it did.
#[derive(Clone, Copy)]
pub struct Moment {
    /// The turn.
    pub turn: Turn,
    /// What it did.
    pub happening: Happening,
}

/// A world after a story, and what each turn of the story did.
#[derive(Drop)]
pub struct Story {
    /// The world after the last turn.
    pub world: IncidentWorld,
    /// The turns, in order.
    pub moments: Vec<Moment>,
}

/// Plays a story by these plans. Returns a moment for each turn, in order. Fails only if memory runs
/// out.
pub fn story_of(alloc: Global, plans: Plans, script: &StoryScript) -> Result<Story, AllocError>
    ensures world { IfOk result (λ story.
        story.world ≡ world_after script.now.steps (first_world plans script.now.clients script.now.limit)) }
    ensures moments { IfOk result (λ story. story.moments.items
        ≡ moments_of script.now.steps (first_scene plans script.now.clients script.now.limit)) }
    // Without evictions, rebirths and clients anew all holds that holds of a saved world.
    ensures calm { IfOk result (λ story. list_all is_calm script.now.steps ≡ true → IsCalm story.world) }
{
    let mut player = Player::new(alloc, plans, script)?;
    let mut moments = Vec::new(alloc);
    let turns = script.steps();
    for turn in turns {
        let happening = player.play(*turn)?;
        moments.push(Moment {
            turn: *turn,
            happening,
        })?;
    }
    let world = player.end();
    Ok(Story { world, moments })
}
