//! Reads the objects of a repository by their ids (gitrepository-layout, "objects").
//!
//! A [`Store`] is opened on an `objects` folder. It finds loose objects, the objects in packs, and
//! those of alternates. An object is returned only if the SHA-1 of its bytes, with git's header
//! before them, is its id. So no file has to be trusted: what is read is authentic, or the call
//! fails. That an object which the repository has is found is not proved.
//!
//! - [`Store::read`] returns an object, [`Store::commit`] the parents and the commit date of a
//!   commit, and [`Store::tag`] what an annotated tag says.
//! - [`Store::has`] and [`Store::completions`] look ids up, and read no object.
//! - A store reaches files by the traits of `gix_files`.
//! - Each call that fails can be repeated.
#![tactic(auto)]

mod alternates;
mod cache;
mod chain;
mod completions;
pub mod error;
mod failure;
mod index;
mod loose;
mod object;
mod pack;
mod packs;
mod paths;
mod source;
mod store;
mod stream;
mod tag;
mod windows;

pub use error::Error;
pub use object::Object;
pub use store::Store;
pub use tag::Tag;
