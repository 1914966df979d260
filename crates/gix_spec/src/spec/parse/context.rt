//! What the parser remembers in addition to the text that it reads.

ghost use Rattle.std.specs.Prelude.{◌≡◌, None};
ghost use Rattle.gix_spec.specs.Context.{context_of, start, stopped};

use super::Error;
use super::delegate::PrefixHint;
use gix_base::date::Time;
use gix_base::hash::Prefix;

/// The latest prefix or reference call that the delegate accepted.
#[derive(Clone, Copy)]
pub(crate) enum Anchor<'a> {
    Head,
    Reference(&'a [u8]),
    ByPrefix(Prefix, Option<PrefixHint<'a>>),
}

/// Says that the parse has stopped. The context keeps the reason, so that functions need not return
/// a value as large as an `Error`.
#[derive(Clone, Copy)]
pub(crate) struct Stopped;

/// What the parser remembers: the moment from which relative dates count, the anchor, whether the
/// delegate accepted this revision's own name as a prefix, and why the parse has stopped. The last
/// is `None` until the parse stops.
#[derive(Drop)]
pub(crate) struct Context<'a> {
    pub(crate) now: Time,
    pub(crate) anchor: Option<Anchor<'a>>,
    pub(crate) own_prefix: bool,
    pub(crate) error: Option<Error<'a>>,
}

impl<'a> Context<'a> {
    /// Makes the context of the start of a text, where no call was accepted yet.
    pub(crate) fn new(now: Time) -> Context<'a>
        ensures known { context_of result ≡ start now }
        ensures error { result.error ≡ None }
    {
        Context {
            now,
            anchor: None,
            own_prefix: false,
            error: None,
        }
    }

    /// Keeps the reason why the parse stops.
    pub(crate) fn stop(&mut self, error: Error<'a>) -> Stopped
        ensures { self.new ≡ stopped self.old error.entry }
    {
        self.error = Some(error);
        Stopped
    }
}
