//! What is answered for a request.

ghost use Rattle.std.specs.Prelude.{◌≡◌};
ghost use Rattle.flank.specs.declared.answers.Request.{Request};

use crate::answers::Request;

/// What a list of a caller gets for each request of a route.
pub trait Answering {
    type Answer: Copy;

    ghost answer_to: { Self → Request → Self.Answer };

    fn answer(&self, request: Request) -> Self::Answer
        ensures { result ≡ answer_to self.now request };
}

/// The request itself.
#[derive(Clone, Copy)]
pub struct AsRequested;

impl Answering for AsRequested {
    type Answer = Request;

    ghost answer_to = { λ _ request. request };

    fn answer(&self, request: Request) -> Request {
        request
    }
}
