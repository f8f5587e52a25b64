use history::ledger::Ledger;
use sharing::scheme::Scheme;

// What is kept of a key beside its shares, whose memory the caller lends to each call.
#[derive(Drop)]
pub struct Cabinet<G> {
    pub(crate) group: G,
    pub(crate) scheme: Scheme,
    pub(crate) number: u32,
    pub(crate) ledger: Ledger,
}
