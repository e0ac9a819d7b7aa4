//! Whether a request may write the file and its journal.
ghost use Rattle.std.specs.Prelude.{◌≡◌, ◌≢◌};
ghost use Rattle.rec_tools.specs.Requests.{IsChange};

use rec_tools::Request;

/// What a request may do with the file and its journal.
#[derive(Clone, Copy)]
pub enum Access {
    /// It only reads.
    Look,
    /// It reads, and may then replace the journal, or both.
    Change,
}

pub fn access_of(request: &Request) -> Access
    ensures look { result ≡ Access.Look → ¬ IsChange request.now }
    ensures change { result ≢ Access.Look → IsChange request.now }
{
    match request {
        Request::Look(_) | Request::Preview(_, _) => Access::Look,
        Request::Change(_) => Access::Change,
    }
}
