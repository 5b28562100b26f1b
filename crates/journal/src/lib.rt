//! The journal of a network: what is to outlive the bouncer, as batches of records. A record is a
//! line of IRC, a batch a frame of lines.
#![tactic(auto)]

mod batching;
mod changes;
mod damage;
mod header;
mod kept;
pub mod laws;
mod lines;
mod number;
mod recalling;
mod record;
mod redoing;
mod replaying;
mod shown;
mod sizes;
mod snapshotting;
mod texts;

pub use batching::push_batches;
pub use changes::{Changes, Written, what_changed};
pub use damage::Damage;
pub use header::push_header;
pub use kept::{Channel, Kept};
pub use recalling::{Recalled, recall};
pub use record::Record;
pub use replaying::RecallError;
pub use shown::messages_text;
pub use snapshotting::{has_rings, snapshot};
pub use texts::{PushError, push_batch};
