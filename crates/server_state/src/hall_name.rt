//! Names the opening and the configuration of a hall, and the lists of turns of each desk and of the
//! author's room, in the proofs.

use mds_snapshot::OpeningName;
use std::marker::Brand;

/// Names the opening and the configuration of a hall, and the lists of turns of each desk and of the
/// author's room: all that lies behind its locks belongs to them. A program passes what it opens to a
/// function that is generic over this, and calls it with `Brand`; the proof of that call picks the
/// `Blank`'s book, the configuration and the books of the `TurnLists`.
pub trait HallName: OpeningName {
    ghost use Rattle.std.specs.Prelude.{ℕ};
    ghost use Rattle.logbook.specs.Pages.{Book};
    ghost use Rattle.mds_request.specs.Configuration.{Configuration};

    ghost configuration: { Configuration };

    ghost turns: { ℕ → Book };

    ghost room_turns: { Book };
}

/// The name of a hall that several threads have. `Brand` alone has it, so that the proof of a call
/// with `Brand` can pick what the name stands for.
pub trait SharedHallName: HallName + Send + Sync {}

impl SharedHallName for Brand {}

impl HallName for Brand {
    ghost use Rattle.std.specs.Prelude.{[], pos};
    ghost use Rattle.mds_match.specs.Zone.{fixed};

    ghost configuration = { record { author = []; operators = []; zone = fixed (pos 0) } };

    ghost turns = { λ place. record { number = 0; log_name = 0; cells_name = 0 } };

    ghost room_turns = { record { number = 0; log_name = 0; cells_name = 0 } };
}
