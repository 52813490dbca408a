//! A gateway over a stream of recorded messages: it verifies each (RFC 9421 section 3.2), remembers
//! its nonce (section 7.2.2), takes the configured steps that the accepted signature permits
//! (section 1.1), and signs what comes out (section 3.1).
//!
//! ```text
//! let record = gateway.step(alloc, 1618884473, Arrival::Request(bytes), &mut steps)?;
//! serve(alloc, &conf, &mut source, &mut sink)? // the same for each message of a recording
//! ```
#![tactic(auto)]

mod accepted;
mod arrival;
mod fault;
mod forward;
mod gateway;
mod gateway_record;
mod laws;
mod own_signature;
mod record_text;
mod seen;
mod serving;
mod stream;

pub use arrival::Arrival;
pub use fault::StreamFault;
pub use gateway::Gateway;
pub use gateway_record::{BadFault, GatewayRecord, HeldFault};
pub use laws::{
    a_passed_message_keeps_its_signature, a_stream_has_one_list_of_records,
    no_nonce_is_accepted_twice, records_are_one,
};
pub use recording::MAX_ITEMS;
pub use serving::serve;
