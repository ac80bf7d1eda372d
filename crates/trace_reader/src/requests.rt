// The requests of a text, as a list.
ghost use Rattle.std.specs.Prelude.{◌≡◌, ◌++◌, ◌∷◌, [], OnOk, OnErr, length};

use map_history::Request;
use std::alloc::{AllocError, Global};
use std::marker::Model;

/// A list of requests, made from a `Vec` and given back as one without taking memory.
#[derive(Debug, Drop)]
pub struct Requests {
    items: Vec<Request>,
}

impl Model for Requests {
    ghost use Rattle.std.specs.Prelude.{List};
    ghost use Rattle.map_history.specs.declared.op.Request.{Request};

    ghost Value = { List Request };

    ghost view = { λ requests. requests.items.items };
}

impl Requests {
    /// No request.
    pub fn new(alloc: Global) -> Self
        ensures { result ≡ [] }
    {
        Self {
            items: Vec::new(alloc),
        }
    }

    /// The same requests as a `Vec`.
    pub fn into_vec(self) -> Vec<Request>
        ensures { result.items ≡ self }
    {
        self.items
    }

    /// The requests in their order.
    pub fn as_slice(&self) -> &[Request]
        ensures { result.now ≡ self.now }
    {
        self.items.as_slice()
    }

    /// How many there are.
    pub fn len(&self) -> usize
        ensures { result ≡ length self.now }
    {
        self.items.len()
    }

    /// Adds one at the end. The Err is want of memory, and leaves the list as it was.
    pub fn push(&mut self, request: Request) -> Result<(), AllocError>
        ensures ok { OnOk result (self.new ≡ self.old ++ request ∷ []) }
        ensures err { OnErr result (self.new ≡ self.old) }
    {
        self.items.push(request)?;
        Ok(())
    }
}
