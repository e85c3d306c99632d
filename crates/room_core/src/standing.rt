//! Gives a job of a room in memory its next standing. The server does this over tables, in
//! `store_events`.

ghost use Rattle.std.specs.Prelude.{◌≡◌, OnOk, OnErr};
ghost use Rattle.room_core.specs.Prelude.{CanMove, with_moved};

use crate::room::Room;
use account_rules::Standing;
use std::alloc::AllocError;

/// Gives the job with the number its next standing. One that ends loses its documents.
pub(crate) fn stand(room: &mut Room, number: u32, standing: &Standing) -> Result<(), AllocError>
    requires { CanMove room.old number standing.now }
    ensures changed { OnOk result (room.new ≡ with_moved room.old number standing.now) }
    ensures unchanged { OnErr result (room.new ≡ room.old) }
{
    if standing.state.is_unfinished() {
        return room.restand(number, *standing, None);
    }
    room.finish(number, *standing);
    Ok(())
}
