//! What a general with a script keeps: what the script has it send in its current round.
use crate::scripted::Planned;
use std::marker::Model;

/// A general that has a script. A contract sees what it sends in this round.
#[derive(Drop)]
pub(crate) struct Traitor {
    pub(crate) planned: Vec<Planned>,
}

impl Model for Traitor {
    ghost use Rattle.std.specs.Prelude.{List};
    ghost use Rattle.gen_general.specs.declared.scripted.Planned.{Planned};

    ghost Value = { List Planned };

    ghost view = { λ t. t.planned.items };
}
