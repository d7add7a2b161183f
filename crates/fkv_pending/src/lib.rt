//! The requests of a session that wait, its mailbox, and what is attempted for one request: a look into the mailbox, a try,
//! and the address that is put into the mailbox where a record of the device is awaited.
#![tactic(auto)]

mod attempting;
mod laws;
mod mailing;
mod pending_lists;
mod pending_requests;

pub use attempting::Attempt;
pub use laws::{law_attempts, law_mailbox};
pub use mailing::{Mail, MailAnswer, MailRecord, MailTask};
pub use pending_lists::PendingList;
pub use pending_requests::{PendingRequest, RequestName, Ticket};
