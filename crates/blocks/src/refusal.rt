//! Why a call did nothing, and the numbers that C sees.
ghost use Rattle.std.specs.Prelude.{◌≡◌, ◌≢◌, OnErr};
ghost use Rattle.blocks.specs.Numbers.{client_refusal, done, fence_refusal, refused, returned};

use fence::FenceFault;
use requester::ClientFault;
use session_rows::RowFault;
use starts::StartFault;
use token_bucket::BucketFault;
use voter::VoterFault;

/// The reason why a call wrote nothing.
#[derive(Clone, Copy, Debug, PartialEq, Eq)]
pub enum Refusal {
    /// A number is out of range.
    BadArgument,
    /// The bytes are no saved voter, client, guard or row.
    BadState,
    /// The bytes are no line of a message to this voter or client.
    BadMessage,
    /// `out` is too short for the lines.
    NoRoom,
    /// The client is asking already, or is inside.
    Busy,
    /// The client is not inside.
    NotInside,
    /// The client is not asking.
    NotAsking,
    /// The client's clock is at the limit, so no stamp is left for a request.
    StampsSpent,
    /// The message needs a new grant, and none is left within the limit.
    GrantsSpent,
    /// The pass shows an older grant than the guard saw before.
    OlderGrant,
    /// What is shown to the guard has no grant, so it is no pass.
    NoPass,
    /// The pass shows a newer grant, and the guard has no turn left.
    TurnsSpent,
    /// The claim's epoch is not above the row's.
    OldEpoch,
    /// The claim's epoch is too far above the row's.
    FarEpoch,
    /// Another session has the number, and is not silent.
    InUse,
    /// The number is not the session's under its epoch.
    NotOwner,
    /// The row has the last epoch.
    EpochsSpent,
    /// Another voter has the place.
    Place,
    /// The process is of an older copy of the state, or another process has a copy of it.
    Older,
    /// The bucket has fewer tokens.
    TokensSpent,
}

/// What a call returns to C if it was done.
pub const DONE: i32 = 0;

impl Refusal {
    /// Returns the refusal of a guard's fault.
    pub fn of_fence(fault: FenceFault) -> Refusal
        ensures { result ≡ fence_refusal fault }
    {
        match fault {
            FenceFault::OlderGrant => Refusal::OlderGrant,
            FenceFault::TurnsSpent => Refusal::TurnsSpent,
        }
    }

    /// Returns the number of this refusal.
    fn number(self) -> i32
        ensures { result ≡ refused self }
    {
        match self {
            Refusal::BadArgument => 1,
            Refusal::BadState => 2,
            Refusal::BadMessage => 3,
            Refusal::NoRoom => 4,
            Refusal::Busy => 5,
            Refusal::NotInside => 6,
            Refusal::NotAsking => 7,
            Refusal::StampsSpent => 8,
            Refusal::GrantsSpent => 9,
            Refusal::OlderGrant => 10,
            Refusal::NoPass => 13,
            Refusal::TurnsSpent => 14,
            Refusal::OldEpoch => 15,
            Refusal::FarEpoch => 16,
            Refusal::InUse => 17,
            Refusal::NotOwner => 18,
            Refusal::EpochsSpent => 19,
            Refusal::Place => 20,
            Refusal::Older => 21,
            Refusal::TokensSpent => 22,
        }
    }
}

/// Returns what a call with this result returns to C.
pub fn number_of(call: Result<(), Refusal>) -> i32
    ensures number { result ≡ returned call }
    ensures some { OnErr call (result ≢ done) }
{
    match call {
        Ok(()) => DONE,
        Err(refusal) => refusal.number(),
    }
}

impl From<ClientFault> for Refusal {
    ghost from_gives = { λ fault r. r ≡ client_refusal fault };

    fn from(fault: ClientFault) -> Self {
        match fault {
            ClientFault::Busy => Refusal::Busy,
            ClientFault::NotInside => Refusal::NotInside,
            ClientFault::NotAsking => Refusal::NotAsking,
            ClientFault::StampsSpent => Refusal::StampsSpent,
        }
    }
}

impl From<VoterFault> for Refusal {
    ghost use Rattle.blocks.specs.declared.refusal.Refusal.TheVariants.{GrantsSpent};

    ghost from_gives = { λ _ r. r ≡ GrantsSpent };

    fn from(fault: VoterFault) -> Self {
        match fault {
            VoterFault::GrantsSpent => Refusal::GrantsSpent,
        }
    }
}

impl From<RowFault> for Refusal {
    ghost use Rattle.blocks.specs.Numbers.{row_refusal};

    ghost from_gives = { λ fault r. r ≡ row_refusal fault };

    fn from(fault: RowFault) -> Self {
        match fault {
            RowFault::OldEpoch => Refusal::OldEpoch,
            RowFault::FarEpoch => Refusal::FarEpoch,
            RowFault::InUse => Refusal::InUse,
            RowFault::NotOwner => Refusal::NotOwner,
            RowFault::EpochsSpent => Refusal::EpochsSpent,
        }
    }
}

impl From<BucketFault> for Refusal {
    ghost use Rattle.blocks.specs.declared.refusal.Refusal.TheVariants.{TokensSpent};

    ghost from_gives = { λ _ r. r ≡ TokensSpent };

    fn from(fault: BucketFault) -> Self {
        match fault {
            BucketFault::TokensSpent => Refusal::TokensSpent,
        }
    }
}

impl From<StartFault> for Refusal {
    ghost use Rattle.blocks.specs.Numbers.{start_refusal};

    ghost from_gives = { λ fault r. r ≡ start_refusal fault };

    fn from(fault: StartFault) -> Self {
        match fault {
            StartFault::Place => Refusal::Place,
            StartFault::Older => Refusal::Older,
        }
    }
}
