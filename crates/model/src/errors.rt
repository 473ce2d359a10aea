// Why a call is refused, with the code, the reason and the place that its answer gives.
ghost use Rattle.std.specs.Prelude.{◌≡◌};
ghost use Rattle.model.specs.declared.errors.CallError.TheVariants as error;
ghost use Rattle.model.specs.Errors.{refusal_of};

use crate::{
    ALREADY_FREE, E_CTX, E_ID, E_OBJ, E_PAR, E_SYS, E_TMOUT, HeaderPlace, INSIDE_BLOCK, MISALIGNED,
    OUT_OF_RANGE,
};

// Why an offset is not that of a live block; the place is the header of the block that holds it.
#[derive(Clone, Copy, Debug, PartialEq, Eq)]
pub enum Misplaced {
    // It is below 8, or at or past the pool's end.
    OutOfRange,
    // It is no multiple of 4.
    Misaligned,
    // It is that of a free block.
    AlreadyFree(HeaderPlace),
    // It is any other spot.
    InsideBlock(HeaderPlace),
}

// Why a call is refused.
#[derive(Clone, Copy, Debug, PartialEq, Eq)]
pub enum CallError {
    // The state is not sound.
    Unsound,
    // A number that may not be asked.
    Parameter,
    // The offset of a release is not that of a live block.
    Misplaced(Misplaced),
    // No task has the number.
    UnknownTask,
    // The task that asks waits already.
    AlreadyWaiting,
    // The task whose wait is to end does not wait.
    NotWaiting,
    // A poll is not granted at once.
    NotGranted,
}

impl CallError {
    // The code of the refusal.
    pub fn code(self) -> i32
        ensures { result ≡ (refusal_of self).code }
    {
        match self {
            CallError::Unsound => E_SYS,
            CallError::Parameter | CallError::Misplaced(_) => E_PAR,
            CallError::UnknownTask => E_ID,
            CallError::AlreadyWaiting => E_CTX,
            CallError::NotWaiting => E_OBJ,
            CallError::NotGranted => E_TMOUT,
        }
    }

    // Why the release of an offset is refused; 0 in every other refusal.
    pub fn reason(self) -> u32
        ensures { result ≡ (refusal_of self).reason }
    {
        match self {
            CallError::Misplaced(Misplaced::OutOfRange) => OUT_OF_RANGE,
            CallError::Misplaced(Misplaced::Misaligned) => MISALIGNED,
            CallError::Misplaced(Misplaced::AlreadyFree(_)) => ALREADY_FREE,
            CallError::Misplaced(Misplaced::InsideBlock(_)) => INSIDE_BLOCK,
            _ => 0,
        }
    }

    // The header of the block that holds the offset of a release; 0 where there is none to tell.
    pub fn place(self) -> HeaderPlace
        ensures { result ≡ (refusal_of self).place }
    {
        match self {
            CallError::Misplaced(Misplaced::AlreadyFree(place)) => place,
            CallError::Misplaced(Misplaced::InsideBlock(place)) => place,
            _ => HeaderPlace(0),
        }
    }
}

impl From<Misplaced> for CallError {
    ghost from_gives = { λ why e. e ≡ error.Misplaced why };

    fn from(why: Misplaced) -> CallError {
        CallError::Misplaced(why)
    }
}
