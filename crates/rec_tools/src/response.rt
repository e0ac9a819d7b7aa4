//! The answer to a request that isn't refused, with the texts that it is of.
ghost use Rattle.std.specs.Prelude.{◌≡◌};
ghost use Rattle.rec_tools.specs.proving.Courses.{replied};

use crate::decision::{Decision, NewFile};
use crate::request::Reply;
use rec_text::{Bytes, Refusal};
use std::marker::Model;

/// The text of a file as it was read, and what a change makes of the file and of its journal.
#[derive(Drop)]
pub struct Texts {
    pub file: Bytes,
    pub after: Option<Bytes>,
    pub journal: Option<Bytes>,
}

/// The answer to a request that isn't refused, with the texts that it is of. Contracts see the reply alone.
#[derive(Drop)]
pub struct Response {
    reply: Reply,
    texts: Option<Texts>,
}

impl Model for Response {
    ghost use Rattle.rec_tools.specs.declared.request.Reply.{Reply};

    ghost Value = { Reply };

    ghost view = { λ response. response.reply };
}

impl Response {
    ghost use Rattle.std.specs.Prelude.{◌≡◌};

    /// A reply, with the texts that it is of, if they are handed back.
    fn of_texts(reply: Reply, texts: Option<Texts>) -> Response
        ensures { result ≡ reply }
    {
        Response { reply, texts }
    }

    /// A reply, with the text of the file as it was read, and what is put in place, if anything is.
    pub(crate) fn of_change(
        reply: Reply,
        file: Bytes,
        after: Option<NewFile>,
        journal: Option<Bytes>,
    ) -> Response
        ensures { result ≡ reply }
    {
        let texts = Texts {
            file,
            after: text_after(after),
            journal,
        };
        Response::of_texts(reply, Some(texts))
    }

    pub fn reply(&self) -> Reply
        ensures { result ≡ self.now }
    {
        self.reply
    }

    /// The texts that it is of, where they are handed back. Contracts don't see them.
    pub fn texts(&self) -> Option<&Texts> {
        self.texts.as_ref()
    }
}

impl From<Reply> for Response {
    ghost use Rattle.std.specs.Prelude.{◌≡◌};

    ghost from_gives = { λ reply response. response ≡ reply };

    fn from(reply: Reply) -> Response {
        Response::of_texts(reply, None)
    }
}

/// The text of a new file, if there is one.
fn text_after(file: Option<NewFile>) -> Option<Bytes> {
    match file {
        Some(NewFile { text, .. }) => Some(text),
        None => None,
    }
}

/// The reply of a decision on a file, with its texts.
pub(crate) fn decided(decision: Result<Decision, Refusal>, file: Bytes) -> Result<Response, Refusal>
    ensures { result ≡ replied decision }
{
    match decision {
        Ok(Decision::Stay(reply)) => Ok(Response::of_change(reply, file, None, None)),
        Ok(
            Decision::Put {
                journal,
                file: after,
                reply,
            },
        ) => Ok(Response::of_change(reply, file, after, Some(journal))),
        Ok(Decision::Adopt { journal, reply, .. }) => {
            Ok(Response::of_change(reply, file, None, Some(journal)))
        }
        Err(refusal) => Err(refusal),
    }
}

/// The same answer, with the texts that it is of, if they are handed back.
pub(crate) fn with_texts(
    answer: Result<Reply, Refusal>,
    texts: Option<Texts>,
) -> Result<Response, Refusal>
    ensures { result ≡ answer }
{
    match answer {
        Ok(reply) => Ok(Response::of_texts(reply, texts)),
        Err(refusal) => Err(refusal),
    }
}

/// The same answer alone.
pub fn without_texts(answer: Result<Response, Refusal>) -> Result<Reply, Refusal>
    ensures { result ≡ answer }
{
    match answer {
        Ok(response) => Ok(response.reply()),
        Err(refusal) => Err(refusal),
    }
}
