//! A member between its turns.
use medium_port::Medium;
use record_votes::Member;
use version_store::Store;

/// A member between its turns.
#[derive(Drop)]
pub enum Seat<M: Medium> {
    /// It is up, over the store of its log, which has so many effects. Told is whether a tick stands
    /// that it hasn't heard.
    Up(Member, Store<M>, usize, bool),
    /// It is down. None where its medium is missing.
    Fallen(Option<M>),
    /// Memory ran out.
    Wanting(M),
}

impl<M: Medium> Seat<M> {
    ghost use Rattle.std.specs.Prelude.{◌≡◌};
    ghost use Rattle.vote_run.specs.Lasts.{medium_in};

    /// The medium, unless it is missing.
    pub fn release(self) -> Option<M>
        ensures { result ≡ medium_in self }
    {
        match self {
            Seat::Up(_, store, _, _) => Some(store.release()),
            Seat::Fallen(medium) => medium,
            Seat::Wanting(medium) => Some(medium),
        }
    }
}
