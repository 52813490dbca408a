//! Items of a recording.

/// What a message is in its recording.
#[derive(Clone, Copy, PartialEq, Eq)]
pub enum Role {
    /// A request.
    Request,
    /// A response.
    Response,
    /// The request that a response answers.
    Related,
}

/// What an item of a recording says. Its bytes are borrowed from the recording.
#[derive(Clone, Copy)]
pub enum ItemBody<'r> {
    /// The moment of what comes after it, in seconds since 1970 (`created` of RFC 9421 section 2.3
    /// counts so).
    At(u64),
    /// The bytes of a message, whether they are one or not.
    Message(Role, &'r [u8]),
    /// The bytes of a script, whether they are one or not.
    Script(&'r [u8]),
}

/// An item of a recording.
#[derive(Clone, Copy)]
pub struct Item<'r> {
    /// The offset of its line in the recording.
    pub offset: u64,
    /// What it says.
    pub body: ItemBody<'r>,
}
