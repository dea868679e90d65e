use smc_words::{Dir, Number};

/// Who looks an object up.
#[derive(Clone, Copy)]
pub enum Seeker {
    Caller,
    /// A scan, at a slot of its collection.
    Scan { scan: u64, coll: u8, slot: u32 },
}

/// A step of copying an object to the slot that it is to move to.
#[derive(Clone, Copy)]
pub enum CopyPhase {
    /// Loads the target from the forwarding word of the source.
    Target,
    /// Loads a field of the source.
    Load { target: u32, field: u32 },
    /// Exchanges that field of the target from blank to what was loaded.
    Put { target: u32, field: u32, value: u64 },
    /// Exchanges the entry from the locked source to the target.
    Swing { target: u32 },
}

/// A look-up in progress.
#[derive(Clone, Copy)]
pub enum LookPhase {
    /// Loads the entry.
    Load {
        seeker: Seeker,
        number: Number,
    },
    /// Exchanges the entry from frozen at this slot to unmarked.
    Abandon {
        seeker: Seeker,
        number: Number,
        slot: u32,
    },
    /// Helps to move the object away from this slot.
    Help {
        seeker: Seeker,
        number: Number,
        slot: u32,
        copy: CopyPhase,
    },
}

/// What a look-up learns from a step.
#[derive(Clone, Copy)]
pub enum Finding {
    /// There is no such object.
    Absent,
    /// The object is held in this slot.
    Stays { slot: u32 },
    /// The move from this slot is to be abandoned.
    Abandons { slot: u32 },
    /// The move from this slot is to be helped, from this step on.
    Helps { slot: u32, copy: CopyPhase },
}

/// An add in progress.
#[derive(Clone, Copy)]
pub enum AddPhase {
    /// Loads the directory word of a slot, after so many others.
    FindSlot {
        coll: u8,
        from: u32,
        slot: u32,
        tried: u32,
    },
    /// Exchanges it from what was seen, which is ripe, to claimed.
    ClaimSlot {
        coll: u8,
        from: u32,
        slot: u32,
        tried: u32,
        seen: Dir,
    },
    /// Loads an entry, after so many others.
    FindEntry {
        coll: u8,
        slot: u32,
        entry: u32,
        tried: u32,
    },
    /// Exchanges it from what was seen, which is ripe, to claimed with the next incarnation.
    ClaimEntry {
        coll: u8,
        slot: u32,
        entry: u32,
        tried: u32,
        incarnation: u32,
        stamp: u64,
    },
    /// Stores that the slot is free again, as no entry was found.
    DropSlot {
        coll: u8,
        slot: u32,
    },
    /// Stores the owner of the slot.
    StoreBack {
        slot: u32,
        number: Number,
    },
    /// Stores a field.
    StoreField {
        slot: u32,
        number: Number,
        field: u32,
    },
    /// Stores that the slot is valid.
    StoreValid {
        slot: u32,
        number: Number,
    },
    /// Stores the live entry.
    StoreLive {
        slot: u32,
        number: Number,
    },
}

/// A remove in progress that is the first.
#[derive(Clone, Copy)]
pub enum RemovePhase {
    /// Stores that the slot is in limbo.
    LeaveSlot { slot: u32, number: Number },
    /// Stores that the entry is free.
    FreeEntry { number: Number },
}

/// A scan on its way to its next object. Its look-ups are phases of a look-up.
#[derive(Clone, Copy)]
pub enum ScanPhase {
    /// Loads the directory word of a slot.
    Directory { scan: u64, coll: u8, slot: u32 },
    /// Loads the owner of that slot.
    Back { scan: u64, coll: u8, slot: u32 },
    /// Loads the own section word, as no slot is left.
    End { scan: u64 },
}
