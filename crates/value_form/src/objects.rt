//! The names of objects.
/// The name of an object: the repository that keeps it, from 1 to 16, and its number there.
#[derive(Clone, Copy, Debug, PartialEq, Eq, PartialOrd, Ord)]
pub struct ObjectId {
    pub repository: u8,
    pub number: u32,
}
