use ots_model::Vote;
use ots_model::tree::Outcome;
use std::marker::Model;

/// What happened to a family in a step, beside what was said and sent.
#[derive(Clone, Copy, Debug, PartialEq, Eq)]
pub enum Effect {
    /// The vote of that registration was counted.
    Voted(u32, Vote),
    /// The outcome was fixed.
    Decided(Outcome),
    /// That subtransaction ended, and whether it was committed.
    SubtransactionEnded(u32, bool),
    /// That transaction was marked.
    Marked(u32),
    /// Nobody knows whether the decision record stands.
    Doubted,
    /// The decision record is done.
    Done,
}

/// Some effects, in order. Contracts see them as a list.
#[derive(Debug, Drop)]
pub struct Effects {
    items: Vec<Effect>,
}

impl Model for Effects {
    ghost use Rattle.std.specs.Prelude.{List};
    ghost use Rattle.coordinator.specs.declared.effect.Effect.{Effect};

    ghost Value = { List Effect };

    ghost view = { λ e. e.items.items };
}

impl Effects {
    ghost use Rattle.std.specs.Prelude.{◌≡◌};

    /// The effects of a vector. It needs no memory.
    pub fn from_vec(items: Vec<Effect>) -> Effects
        ensures same { result ≡ items.items }
    {
        Effects { items }
    }

    /// The effects.
    pub fn items(&self) -> &[Effect]
        ensures same { result.now ≡ self.now }
    {
        self.items.as_slice()
    }
}
