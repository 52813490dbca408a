//! Messages as they come to a gateway.

/// A message as it comes: its bytes, whether they are a message or not.
#[derive(Clone, Copy)]
pub enum Arrival<'t> {
    /// What is to be a request.
    Request(&'t [u8]),
    /// What is to be a response, and the request that it answers, where that came with it.
    Response {
        text: &'t [u8],
        related: Option<&'t [u8]>,
    },
}

impl<'t> Arrival<'t> {
    ghost use Rattle.std.specs.Prelude.{◌≡◌, option_copied};
    ghost use Rattle.gateway.specs.Arrivals.{arrival_of};

    /// Its bytes.
    pub(crate) fn text(self) -> &'t [u8]
        ensures { result.now ≡ (arrival_of self.entry).text }
    {
        match self {
            Arrival::Request(text) => text,
            Arrival::Response { text, .. } => text,
        }
    }

    /// The bytes of the request that it answers.
    pub(crate) fn related(self) -> Option<&'t [u8]>
        ensures { option_copied result ≡ (arrival_of self.entry).related }
    {
        match self {
            Arrival::Request(_) => None,
            Arrival::Response { related, .. } => related,
        }
    }
}
