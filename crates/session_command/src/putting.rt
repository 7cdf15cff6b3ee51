//! The media of a batch are put back.
ghost use Rattle.std.specs.Prelude.{◌≡◌, ◌⊎◌, true};
ghost use Rattle.session_command.specs.Standings.{ArePutBack};

use held_shelf::HoldingShelf;
use medium_port::MediumName;
use run_command::Kept;

// Puts the media back under their names, the last one first. The answer is false if memory ran out.
fn put_all_back<H: HoldingShelf>(shelf: &mut H, media: Vec<Kept<H::Medium>>) -> bool
    ensures { result ≡ true → ArePutBack H.Shelf H.Medium.Medium media.items shelf.old shelf.new }
{
    let mut media = media;
    while let Some(
        Kept {
            node,
            volume,
            medium,
        },
    ) = media.pop()
    {
        let name = MediumName {
            kind: node.kind,
            number: node.number,
            volume,
        };
        if shelf.put_back(name, medium).is_err() {
            return false;
        }
    }
    true
}

/// Puts the media of a run of this status back. The answer is the status, or 7 if memory ran out for that.
pub fn put_back_after<H: HoldingShelf>(shelf: &mut H, media: Vec<Kept<H::Medium>>, status: u8) -> u8
    ensures { ((result ≡ status) × ArePutBack H.Shelf H.Medium.Medium media.items shelf.old shelf.new)
        ⊎ (result ≡ 7) }
{
    if put_all_back(shelf, media) {
        return status;
    }
    7
}
