//! What a page knows about a folder.
use effect_form::Effect;
use pseudo_time::{NodeKind, PseudoTime};
use value_form::{Items, ObjectId, Value};

/// A version, as the page shows it.
#[derive(Drop)]
pub struct VersionRow {
    pub start: PseudoTime,
    /// How far it was read.
    pub end: Option<PseudoTime>,
    /// Whether its attempt was committed. None if that is undecided.
    pub state: Option<bool>,
    /// Whether its repository knows that. If not, it is what the log of the attempt's home says.
    pub settled: bool,
    pub value: Value,
    /// The older volume that alone has it. None where its repository's current volume has it.
    pub older: Option<u64>,
}

/// An object with its versions, as the page shows it.
#[derive(Drop)]
pub struct ObjectRow {
    pub object: ObjectId,
    /// How far its origin was read.
    pub origin: Option<PseudoTime>,
    /// The floor of its repository's log.
    pub floor: Option<PseudoTime>,
    /// Those of the older volumes first; of a volume in rising order of start.
    pub versions: Items<VersionRow>,
    /// How many more versions it has that would be shown.
    pub hidden: u64,
    /// How many versions it has together.
    pub count: u64,
    /// How many of them are undecided.
    pub undecided: u64,
    /// The last one that is committed, if the current volume has one.
    pub last: Option<VersionRow>,
}

/// Whether a medium could be read.
#[derive(Clone, Copy)]
pub enum MediumState {
    /// Its pages have a log.
    Whole,
    /// No log has such a page there.
    Damaged { page: u32 },
    /// It can't be opened, or couldn't be read to its end.
    Shut,
}

/// A medium of a folder, as it was read.
#[derive(Drop)]
pub struct MediumLook {
    pub kind: NodeKind,
    pub number: u8,
    pub volume: u32,
    /// How many pages it has.
    pub pages: u32,
    /// How many of them are gated.
    pub gated: u32,
    /// Those that are spoiled, in order.
    pub spoiled: Items<u32>,
    pub state: MediumState,
    /// Its effects, the first one first. None where it has no log.
    pub log: Items<Effect>,
}
