//! The media of the three members.
use medium_port::Medium;

/// The media of the three members. None where one is missing.
#[derive(Drop)]
pub struct MemberMedia<M: Medium> {
    pub first: Option<M>,
    pub second: Option<M>,
    pub third: Option<M>,
}
