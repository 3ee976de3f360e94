// The records of the nodes, and the links between them.

/// What a record is.
#[derive(Clone, Copy, Drop)]
pub(crate) enum RecordState {
    /// Of no node: its number is free.
    Free,
    /// Of a node that is found by its key.
    Linked,
    /// Of a node that is found by its number alone.
    Detached,
}

/// What is kept for a number, beside its hash and its links.
#[derive(Clone, Copy, Drop)]
pub(crate) struct Record {
    /// A number that the layer above gives; part of the node's key.
    pub(crate) place: u32,
    /// The run of the node's list starts here, and no other node's does.
    pub(crate) start: u32,
    /// The length of that run.
    pub(crate) length: u32,
    /// The number that follows among the free records, or in the chain of the node's bucket while that
    /// chain stands.
    pub(crate) next: u32,
    /// How often the layer above uses the node.
    pub(crate) uses: u64,
    /// A word of the layer above.
    pub(crate) mark: u32,
    /// Says in which chain, where that stands, and in which list the record stands.
    pub(crate) state: RecordState,
}

/// The links of a record that no look-up follows, kept from `list_places` on.
#[derive(Clone, Copy, Drop)]
pub(crate) struct Links {
    /// The number before in the list of the node's place, or in that of the detached.
    pub(crate) before: u32,
    /// The number after in that list.
    pub(crate) after: u32,
}

/// Ends a chain: no record has this number.
pub(crate) const NO_RECORD: u32 = u32::MAX;

impl Record {
    ghost use Rattle.std.specs.Prelude.{◌≡◌};

    // Of a linked node that is not used yet.
    pub(crate) fn linked(place: u32, run: (u32, u32), next: u32) -> Record
        ensures { result ≡ record {
          place = place;
          start = run.0;
          length = run.1;
          next = next;
          uses = 0;
          mark = 0;
          state = RecordState.Linked;
        } }
    {
        Record {
            place,
            start: run.0,
            length: run.1,
            next,
            uses: 0,
            mark: 0,
            state: RecordState::Linked,
        }
    }
}

impl Links {
    ghost use Rattle.std.specs.Prelude.{◌≡◌};
    ghost use Rattle.sd_unique.specs.Chains.{no_links};

    // Of a number that stands in no list.
    pub(crate) fn new() -> Links
        ensures { result ≡ no_links }
    {
        Links {
            before: NO_RECORD,
            after: NO_RECORD,
        }
    }
}
