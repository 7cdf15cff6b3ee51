//! The rule of a watch, and the callback that carries it out.
ghost use Rattle.std.specs.Prelude.{◌≡◌, Option, IfOk};
ghost use Rattle.commit_watch.specs.declared.versions.Version.{Version};
ghost use Rattle.commit_watch.specs.Followed.{Follows};

use crate::versions::Version;
use std::alloc::{AllocError, Global};

/// What a watch makes of the versions of an object.
pub trait WatchRule {
    type Total: Drop;

    /// The total over no versions.
    ghost first: { Self.Total };

    /// The total after one version more. None where there is none.
    ghost next: { Self.Total → Version → Option Self.Total };

    fn begin(alloc: Global) -> Result<Self::Total, AllocError>
        ensures { IfOk result (λ t. t ≡ first) };
}

/// What is called at each version. Every closure of this form is one.
pub trait Callback<R: WatchRule> {
    /// It may be called on every total and version, and then answers what the rule says, unless
    /// memory runs out.
    ghost follows: { Self → Type 0 };

    fn next(&self, total: &R::Total, version: &Version) -> Result<Option<R::Total>, AllocError>
        requires { follows self.now }
        ensures { IfOk result (λ t. t ≡ R.next total.now version.now) };
}

impl<R: WatchRule, F: Fn(&R::Total, &Version) -> Result<Option<R::Total>, AllocError>> Callback<R>
    for F {
    ghost follows = { λ f. Follows F.Fn R.next f };

    fn next(&self, total: &R::Total, version: &Version) -> Result<Option<R::Total>, AllocError> {
        self(total, version)
    }
}
