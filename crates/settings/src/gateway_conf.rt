//! What a gateway does.

use rewrite_script::Script;
use sfv_text::Text;

/// What a gateway does to the messages that come to it: the table `gateway`.
#[derive(Drop)]
pub struct GatewayConf {
    /// The label that has to be accepted, a key of a Dictionary (RFC 9421 section 4). Where none is
    /// given, any label of the message may be.
    pub label: Option<Text>,
    /// The steps that are taken on an accepted message, each where its signature permits it.
    pub steps: Script,
}
