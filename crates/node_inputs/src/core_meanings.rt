//! What a core means to the clauses that cite it.
ghost use Rattle.std.specs.Prelude.{List};
ghost use Rattle.effect_form.specs.declared.effects.Effect.{Effect};
ghost use Rattle.world_core.specs.Walks.{Base, Life};
ghost use Rattle.node_inputs.specs.CoreParts.{CoreParts};

use medium_port::Medium;

/// The meanings of a type of cores over media of one type. Clauses take them all as one record,
/// `K.Meanings`, beside those of its media, `M.Medium`.
pub trait Meanings<M: Medium> {
    /// Its node, whether it can be given inputs, and its medium.
    ghost parts: { Self → CoreParts M };

    /// It is one of the run that a walk with this base is of.
    ghost fits: { Base → Self → Type 0 };

    /// Its medium has the durable log of this life, and its core the new effects beside it, and its
    /// mind.
    ghost lives: { Base → Self → Life → Type 0 };

    /// These are the effects that it gave since its last append.
    ghost owes: { Self → List Effect → Type 0 };
}
