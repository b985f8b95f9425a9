//! What lies under the lock.
use fabric_core::fabric::Fabric;
use legal_journal::events::Event;
use legal_journal::rules::Rules;
use loglet_api::loglet::Loglet;
use pass_lock::Chronicled;
use register_api::Register;

/// A fabric under a lock. The lock's journal is the fabric's, each event of which is signed by the user whose it is.
#[derive(Drop)]
pub struct Desk<L: Loglet, R: Register, P: Rules> {
    pub fabric: Fabric<L, R, P>,
}

impl<L: Loglet, R: Register, P: Rules> Chronicled for Desk<L, R, P> {
    type Entry = Event;

    ghost journal = { λ d. d.fabric.journal };

    ghost signer = { λ e. e.who };
}
