use crate::phase::CopyPhase;
use smc_words::{Dir, Number};

/// What a walk over a collection has counted.
#[derive(Clone, Copy)]
pub struct Count {
    /// Objects present in the slots that it has passed.
    pub objects: u32,
    /// Blocks that have one of them.
    pub blocks: u32,
    /// The blocks from this one on are not counted yet.
    pub next: u32,
}

/// A walk that counts objects and blocks, of a begin or a survey.
#[derive(Clone, Copy)]
pub enum CountPhase {
    /// Loads the directory word of a slot.
    Directory {
        coll: u8,
        slot: u32,
        count: Count,
    },
    /// Loads the owner of that slot.
    Back {
        coll: u8,
        slot: u32,
        count: Count,
    },
    /// Loads the owner's entry.
    Entry {
        coll: u8,
        slot: u32,
        count: Count,
        number: Number,
    },
}

/// Where a counting walk is after a step.
#[derive(Clone, Copy)]
pub enum Counting {
    Walks(CountPhase),
    /// All slots are passed.
    Counted { coll: u8, count: Count },
}

/// How far a begin has come among sources and targets.
#[derive(Clone, Copy)]
pub struct Walk {
    pub coll: u8,
    /// The source that it is at.
    pub source: u32,
    /// The target that it is at.
    pub target: u32,
    /// Targets are below this slot, sources are not.
    pub kept: u32,
    /// Entries frozen so far.
    pub moves: u32,
}

/// A begin in progress whose round was free.
#[derive(Clone, Copy)]
pub enum BeginPhase {
    Count(CountPhase),
    /// Stores that there is no round, as no block would be freed.
    Nothing {
        coll: u8,
    },
    /// Loads the directory word of the source.
    SourceDirectory(Walk),
    /// Loads the owner of the source.
    SourceBack(Walk),
    /// Loads the owner's entry.
    SourceEntry {
        walk: Walk,
        number: Number,
    },
    /// Loads the directory word of the target.
    TargetDirectory {
        walk: Walk,
        number: Number,
    },
    /// Exchanges it from what was seen, which is ripe, to claimed.
    ClaimTarget {
        walk: Walk,
        number: Number,
        seen: Dir,
    },
    /// Stores blank in a field of the target.
    BlankField {
        walk: Walk,
        number: Number,
        field: u32,
    },
    /// Stores the owner of the target.
    StoreBack {
        walk: Walk,
        number: Number,
    },
    /// Stores the target in the forwarding word of the source.
    StoreForward {
        walk: Walk,
        number: Number,
    },
    /// Stores that the target is incoming.
    StoreIncoming {
        walk: Walk,
        number: Number,
    },
    /// Exchanges the entry from unmarked at the source to frozen.
    Freeze {
        walk: Walk,
        number: Number,
    },
    /// Stores that the target is in limbo, as the entry was not frozen.
    GiveUp(Walk),
}

/// How far a finish has come, and what became of the targets that it has passed.
#[derive(Clone, Copy)]
pub struct Targets {
    pub coll: u8,
    pub slot: u32,
    pub moved: u32,
    pub abandoned: u32,
    pub gone: u32,
}

/// A finish in progress that is not too early.
#[derive(Clone, Copy)]
pub enum FinishPhase {
    /// Loads the directory word of the slot.
    Directory(Targets),
    /// Loads the owner of the target.
    Back(Targets),
    /// Loads the owner's entry.
    Entry {
        targets: Targets,
        number: Number,
    },
    /// Exchanges the entry from frozen at the source to locked.
    Lock {
        targets: Targets,
        number: Number,
        source: u32,
    },
    /// Moves the object from the source to the target.
    Move {
        targets: Targets,
        number: Number,
        source: u32,
        copy: CopyPhase,
    },
    /// Exchanges the directory word of the target from incoming to valid.
    Settle {
        targets: Targets,
        source: u32,
    },
    /// Stores that the source is in limbo.
    LeaveSource {
        targets: Targets,
        source: u32,
    },
    /// Stores that the target is in limbo, its object gone or left where it was.
    GiveUp {
        targets: Targets,
        gone: bool,
    },
    /// Stores that there is no round.
    End(Targets),
}

/// A cancel in progress.
#[derive(Clone, Copy)]
pub enum CancelPhase {
    /// Loads the directory word of a slot.
    Directory {
        coll: u8,
        slot: u32,
    },
    /// Loads the owner of the target.
    Back {
        coll: u8,
        slot: u32,
    },
    /// Loads the owner's entry.
    Entry {
        coll: u8,
        slot: u32,
        number: Number,
    },
    /// Exchanges the entry from frozen at the source to unmarked.
    Unfreeze {
        coll: u8,
        slot: u32,
        number: Number,
        source: u32,
    },
    /// Stores that the target is in limbo.
    GiveUp {
        coll: u8,
        slot: u32,
    },
    /// Stores that there is no round.
    End,
}
