ghost use Rattle.std.specs.Prelude.{◌≡◌};
ghost use Rattle.smc_core.specs.Kinds.{deed_of};

/// The kinds of step, each with its number. docs/WORDS.md says in which calls each is taken, and what it tells.
#[derive(Clone, Copy)]
pub enum Kind {
    /// Loads the epoch, at the beginning of a section, a note or a learning.
    LoadEpoch = 1,
    /// Stores that epoch in the own section word.
    Announce,
    /// Loads the epoch once more.
    LoadEpochAgain,
    /// Stores it in the own section word. From here on the section lasts.
    AnnounceAgain,
    /// Loads the round word, by which the section knows whether it is calm.
    LoadRound,
    /// Stores 0 in the own section word.
    Leave,
    /// Loads the epoch that an advance is to move on.
    StartAdvance,
    /// Loads a section word.
    LoadSection,
    /// Exchanges the epoch for the next one.
    AdvanceEpoch,
    /// Loads the directory word of a slot.
    LoadDirectory,
    /// Exchanges it from free or ripe to claimed.
    ClaimSlot,
    /// Stores that the claimed slot is free again.
    DropSlot,
    /// Loads an entry, except in a look-up.
    LoadEntry,
    /// Exchanges it from free and ripe to claimed.
    ClaimEntry,
    /// Stores the owner of the claimed slot.
    StoreBack,
    /// Stores a field of the claimed slot.
    StoreField,
    /// Stores that the claimed slot is valid.
    StoreValid,
    /// Stores the live entry of an object that is added.
    StoreLive,
    /// Loads a field.
    LoadField,
    /// Stores a field of an object that is held.
    WriteField,
    /// Sets the mark that an entry's object is gone.
    MarkGone,
    /// Stores that a slot is in limbo.
    LeaveSlot,
    /// Stores that the entry of a removed object is free.
    FreeEntry,
    /// Loads the owner of a slot.
    LoadBack,
    /// Loads the entry that a look-up seeks.
    LookUp,
    /// Exchanges the round word from none to a round.
    OpenRound,
    /// Stores the target of a source in its forwarding word.
    StoreForward,
    /// Stores that the claimed slot is the target of a move.
    StoreIncoming,
    /// Exchanges an entry from unmarked to frozen.
    Freeze,
    /// Exchanges it from frozen to unmarked.
    Unfreeze,
    /// Exchanges it from frozen to locked.
    Lock,
    /// Loads the target of a locked source.
    LoadForward,
    /// Exchanges a field of the target from blank to the field of the source.
    CopyField,
    /// Exchanges the entry from the locked source to the target.
    Swing,
    /// Exchanges the directory word of the target from incoming to valid.
    Settle,
    /// Stores that there is no round.
    CloseRound,
}

/// What a step does to its word.
#[derive(Clone, Copy)]
pub enum Deed {
    Load,
    Store,
    Exchange,
    /// Sets the mark that an entry's object is gone.
    Mark,
}

impl Kind {
    /// What a step of this kind does to its word.
    #[inline(always)]
    pub fn deed(self) -> Deed
        ensures { result ≡ deed_of self }
    {
        match self {
            Kind::Announce
            | Kind::AnnounceAgain
            | Kind::Leave
            | Kind::DropSlot
            | Kind::StoreBack
            | Kind::StoreField
            | Kind::StoreValid
            | Kind::StoreLive
            | Kind::WriteField
            | Kind::LeaveSlot
            | Kind::FreeEntry
            | Kind::StoreForward
            | Kind::StoreIncoming
            | Kind::CloseRound => Deed::Store,
            Kind::AdvanceEpoch
            | Kind::ClaimSlot
            | Kind::ClaimEntry
            | Kind::OpenRound
            | Kind::Freeze
            | Kind::Unfreeze
            | Kind::Lock
            | Kind::CopyField
            | Kind::Swing
            | Kind::Settle => Deed::Exchange,
            Kind::MarkGone => Deed::Mark,
            _ => Deed::Load,
        }
    }
}
