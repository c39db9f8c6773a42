//! The writers that sleep.
ghost use Rattle.std.specs.Prelude.{◌≡◌, ◌==◌, ◌<◌, ◌%◌, ◌⊎◌, ◌&&◌, ◌||◌, not, ℕ, true, false, is_some, IfSome};
ghost use Rattle.router_trace.specs.Trace.{Trace};
ghost use Rattle.router_trace.specs.Connection.{conn as known, is_ready};
ghost use Rattle.serve_lock.specs.Ringing.{is_set};

use crate::bells::{BELLS, Bells, bell_of};
use core_machine::Machine;
use router_trace::ConnectionId;

/// The bells at which a writer may sleep.
#[derive(Drop)]
pub struct Sleepers {
    noted: Bells,
}

impl Sleepers {
    /// Nobody sleeps.
    pub fn none() -> Sleepers
        ensures { (b : ℕ) → is_set result.noted.words b ≡ false }
    {
        Sleepers {
            noted: Bells::none(),
        }
    }

    /// Whether the writer of a connection has to wait: the connection is known and not ready, and the router works. If so, its bell is noted.
    pub fn sleeps<M: Machine>(&mut self, router: &M, conn: ConnectionId) -> bool
        ensures waits { (t : Trace) → M.meaning.fits router.now t → result ≡ not (M.meaning.is_failed router.now || is_ready (known t conn.0) || not (is_some (known t conn.0))) }
        ensures noted { (b : ℕ) → is_set self.new.noted.words b ≡ ((result && (conn.0 % 256 == b)) || is_set self.old.noted.words b) }
    {
        let waits = !router.answers(conn);
        if waits {
            self.noted.add(bell_of(conn));
        }
        waits
    }

    /// The bells of the writers that sleep and needn't: of connections that are ready, of one that is lost, and all of
    /// them if the router failed. No bell that was noted is forgotten: it is given, or is still noted.
    pub fn wake<M: Machine>(&mut self, router: &M, lost: Option<ConnectionId>) -> Bells
        ensures ready { (t : Trace) → M.meaning.fits router.now t → (c : ℕ) → is_ready (known t c) ≡ true
            → is_set self.old.noted.words (c % 256) ≡ true → is_set result.words (c % 256) ≡ true }
        ensures lost { IfSome lost (λ conn. is_set self.old.noted.words (conn.0 % 256) ≡ true → is_set result.words (conn.0 % 256) ≡ true) }
        ensures failed { M.meaning.is_failed router.now ≡ true → (b : ℕ) → b < 256 → is_set self.old.noted.words b ≡ true → is_set result.words b ≡ true }
        ensures still { (b : ℕ) → b < 256 → is_set self.old.noted.words b ≡ true → (is_set result.words b ≡ true) ⊎ (is_set self.new.noted.words b ≡ true) }
    {
        let mut woken = Bells::none();
        if self.noted.is_empty() {
            return woken;
        }
        if router.is_failed() {
            return self.wake_all();
        }
        if let Some(conn) = lost {
            self.noted.give(&mut woken, bell_of(conn));
        }
        let mut next = router.ready();
        for _turn in 0..BELLS {
            match next {
                None => return woken,
                Some(conn) => {
                    self.noted.give(&mut woken, bell_of(conn));
                    next = router.ready_after(conn);
                }
            }
        }
        self.wake_all()
    }

    /// All bells; none is noted any more.
    fn wake_all(&mut self) -> Bells
        ensures { (b : ℕ) → b < 256 → is_set result.words b ≡ true }
    {
        self.noted = Bells::none();
        Bells::all()
    }
}
