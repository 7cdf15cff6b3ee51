//! What a node has beside its pass.
use crate::conditions::Condition;

/// What a node has beside its pass.
pub struct Hand<K> {
    pub core: K,
    pub condition: Condition,
    /// It went since it was opened, a broker.
    pub gone: bool,
    /// How many effects of its log are durable.
    pub durable: usize,
}
