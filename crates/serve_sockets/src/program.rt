//! What the threads of a serving program share.
use crate::state::ProgramState;
use serve_streams::Service;
use std::sync::Wait;
use std::time::Clock;

/// The router with its seats, and everything else that the threads share. The threads know the router as a service, so that they are proved
/// without its tables, and what needs no router is a part by itself.
#[derive(Drop)]
pub struct Program<S: Service> {
    /// The router, its seats and the numbers of its connections.
    pub router: S,
    /// Everything else.
    pub state: ProgramState,
}

impl<S: Service> Program<S> {
    /// Starts the router.
    pub fn start<R: Wait + Clock>(&self, rt: &R) {
        if let Err(fault) = self.router.start(rt) {
            self.state.failed(rt, fault);
        }
    }
}
