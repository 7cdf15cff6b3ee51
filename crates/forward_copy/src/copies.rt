//! What a retirement makes of a log.
use effect_form::Effect;

/// What a retirement makes of a log: the effects that it carries forward, between its mark and the Whole,
/// and those that it leaves behind.
#[derive(Debug, Drop)]
pub struct Forward {
    pub kept: Vec<Effect>,
    pub dropped: Vec<Effect>,
}
