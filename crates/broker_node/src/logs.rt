//! A broker's log: in a store, or left on a medium after a fault.
use medium_port::Medium;
use version_store::Store;

/// Where a broker's log stands: in a store, or, after a fault, on a medium that is to be opened anew.
#[derive(Drop)]
pub enum Log<M: Medium> {
    Open(Store<M>),
    Shut(M),
}
