//! A world that some list of actions led to from its beginning. Its calls stand in `play`.
ghost use Rattle.world.specs.Promise.{Reached};
ghost use Rattle.world.specs.Step.{WorldView};

use crate::stage::Stage;
use std::marker::Model;

#[derive(Drop)]
pub struct World {
    pub(crate) stage: Stage,
}

impl Model for World {
    ghost Value = { WorldView };

    ghost view = { λ w. w.stage };

    ghost invariant = { λ w. ∥ Reached w.stage ∥₁ };
}
