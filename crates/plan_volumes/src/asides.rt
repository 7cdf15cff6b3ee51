//! A node's volumes stand aside, but for one.
ghost use Rattle.std.specs.Prelude.{◌≡◌, ◌≤◌, ◌<◌, false, map, slice_get, slice_set, Some, vec_len};
ghost use Rattle.pseudo_time.specs.Lists.{Every};
ghost use Rattle.run_volumes.specs.Openings.{IsWanting, medium_in};
ghost use Rattle.plan_volumes.specs.Volumes as spec;

use medium_port::Medium;
use pseudo_time::DownCause;
use run_volumes::{Opening, current};
use std::mem;

/// A node's volumes while a run has one of them.
#[derive(Drop)]
pub struct Aside<M: Medium> {
    /// All of them. In the place of the one that the run has stands a missing medium.
    pub rest: Vec<Opening<M>>,
    /// Which one the run has.
    pub working: usize,
}

fn is_open<M: Medium>(opening: &Opening<M>) -> bool
    ensures { result ≡ spec.is_open opening.now }
{
    match opening {
        Opening::Open(_, _) => true,
        Opening::Shut(_, _) => false,
        Opening::Wanting(_) => false,
    }
}

// Which of a node's volumes a run is given.
fn working<M: Medium>(openings: &[Opening<M>]) -> usize
    ensures { result ≡ spec.working openings.now }
{
    for (volume, opening) in openings.iter().enumerate() {
        if !is_open(opening) {
            return volume;
        }
    }
    current(openings)
}

/// Whether memory ran out when one of these was opened.
pub fn is_wanting<M: Medium>(openings: &[Opening<M>]) -> bool
    ensures { result ≡ false → Every (λ opening. IsWanting opening → ⊥) openings.now }
{
    for opening in openings {
        match opening {
            Opening::Wanting(_) => return true,
            _ => {}
        }
    }
    false
}

/// Takes the volume that a run is given out of a node's volumes, which aren't none.
pub fn set_aside<M: Medium>(volumes: Vec<Opening<M>>) -> (Opening<M>, Aside<M>)
    requires place { spec.working volumes.items < vec_len volumes }
    ensures given { slice_get volumes.items (spec.working volumes.items) ≡ Some result.0 }
    ensures place { result.1.working ≡ spec.working volumes.items }
    ensures rest { (missing : _) ×
        (result.1.rest.items ≡ slice_set volumes.items (spec.working volumes.items) missing) }
    ensures count { vec_len result.1.rest ≡ vec_len volumes }
{
    let mut rest = volumes;
    let working = working(rest.as_slice());
    let missing = Opening::Shut(None, DownCause::Medium);
    let opening = mem::replace(&mut rest[working], missing);
    (opening, Aside { rest, working })
}

/// Puts back what is left of the volume that the run had. Only the media count from here on.
pub fn put_back<M: Medium>(aside: Aside<M>, medium: Option<M>) -> Vec<Opening<M>>
    requires place { aside.working < vec_len aside.rest }
    ensures back { map medium_in result.items ≡ slice_set (map medium_in aside.rest.items) aside.working medium }
    ensures count { vec_len result ≡ vec_len aside.rest }
{
    let Aside { rest, working } = aside;
    let mut volumes = rest;
    volumes[working] = Opening::Shut(medium, DownCause::Medium);
    volumes
}
