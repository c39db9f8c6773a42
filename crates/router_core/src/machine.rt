//! The core as a machine: what those who drive it through the trait may use.
ghost use Rattle.std.specs.Prelude.{◌≡◌, ◌⊎◌, ◌+◌, ◌<◌, ◌≤◌, ◌∷◌, ◌&&◌, ◌||◌, not, nat_lt, length, true, false, Err, None, option_map, is_some};
ghost use Rattle.router_core.specs.Machine.{core_meaning};

use crate::router::Core;
use amqp_model::Item;
use core_machine::{CoreFault, Counts, Done, Fused, Machine, Taken};
use disk_core::{CrashTwin, Twin};
use router_trace::{ConnectionId, Event};

impl<T: Twin> Machine for Core<T> {
    ghost meaning = { core_meaning T.seen T.may_leave T.failures };

    fn handle(&mut self, event: Event) -> Result<Done, CoreFault> {
        Core::handle(self, event)
    }

    fn hold(&mut self, event: Event) -> Result<Done, CoreFault> {
        Core::hold(self, event)
    }

    fn write_held(&mut self) -> Result<(), CoreFault> {
        Core::write_held(self)
    }

    fn held(&self) -> usize {
        Core::held(self)
    }

    fn take_items(&mut self, conn: ConnectionId, most: usize) -> Result<Taken, CoreFault> {
        self.take_out(conn, most)
    }

    fn is_failed(&self) -> bool {
        Core::is_failed(self)
    }

    fn is_live(&self, conn: ConnectionId) -> bool {
        Core::is_live(self, conn)
    }

    fn answers(&self, conn: ConnectionId) -> bool {
        Core::is_failed(self) || Core::is_ready(self, conn) || !Core::knows(self, conn)
    }

    fn ready(&self) -> Option<ConnectionId> {
        Core::ready(self)
    }

    fn ready_after(&self, conn: ConnectionId) -> Option<ConnectionId> {
        Core::ready_after(self, conn)
    }

    fn waits(&self, conn: ConnectionId) -> usize {
        Core::waits(self, conn)
    }

    fn waiting(&self, conn: ConnectionId, place: usize) -> Option<&Item> {
        Core::waiting(self, conn, place)
    }

    fn counts(&self) -> Counts {
        Core::counts(self)
    }

    fn batch(&self) -> u64 {
        Core::batch(self)
    }
}

impl<T: CrashTwin> Fused for Core<T> {
    fn fuse(&mut self, calls: u64) {
        Core::fuse(self, calls);
    }
}
