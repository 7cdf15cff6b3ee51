//! A node, whichever of the two kinds it is.
/// A node of one of the two kinds.
#[derive(Drop)]
pub enum AnyNode<R, B> {
    Repository(R),
    Broker(B),
}
