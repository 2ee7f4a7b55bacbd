//! Why levels are refused.

ghost use Rattle.std.specs.Prelude.{◌≡◌};
ghost use Rattle.level_bytes.specs.declared.fault.LevelFault.TheVariants.{Unreadable as unreadable};
ghost use Rattle.level.specs.declared.refusal.LevelRefusal.TheVariants.{Fault as to_fault, NoRoom as to_no_room};

use area::area::NoRoom;
use level_bytes::fault::LevelFault;
use run::kind::StreamFault;

/// Why a call for levels is refused.
#[derive(Clone, Copy, Debug, PartialEq, Eq)]
pub enum LevelRefusal {
    /// The levels cannot be had.
    Fault(LevelFault),
    /// They do not fit: refusal 16.
    NoRoom,
}

impl From<LevelFault> for LevelRefusal {
    ghost from_gives = { λ e r. r ≡ to_fault e };

    fn from(e: LevelFault) -> LevelRefusal {
        LevelRefusal::Fault(e)
    }
}

impl From<StreamFault> for LevelRefusal {
    ghost from_gives = { λ e r. r ≡ to_fault unreadable };

    fn from(_e: StreamFault) -> LevelRefusal {
        LevelRefusal::Fault(LevelFault::Unreadable)
    }
}

impl From<NoRoom> for LevelRefusal {
    ghost from_gives = { λ e r. r ≡ to_no_room };

    fn from(_e: NoRoom) -> LevelRefusal {
        LevelRefusal::NoRoom
    }
}
