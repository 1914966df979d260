//! A delegate that accepts every call and writes it down, for `parse` lines.

ghost use Rattle.gix_revision.specs.Answer.{answer_of};
ghost use Rattle.revtool.specs.Recorder.{IsNoRefusal};

use gix_revision::error::Exn;
use gix_revision::hash::Prefix;
use gix_revision::spec::parse::Delegate;
use gix_revision::spec::parse::delegate::{
    Kind, Listener, Navigate, PeelTo, PrefixHint, ReflogLookup, Revision, SiblingBranch, Traversal,
};
use gix_revision::{object, spec};
use std::alloc::{Allocator, Global};
use std::io::{self, Write};

/// Records the calls of a parse, separated by a semicolon and a space.
#[derive(Drop)]
pub struct Recorder<A: Allocator> {
    calls: Vec<u8, A>,
    // Where a refusal would be built. The one for no memory takes none.
    refusals: Global,
}

/// A call with its arguments.
#[derive(Clone, Copy)]
enum Call<'a> {
    FindRef(&'a [u8]),
    Prefix(Prefix, Option<PrefixHint<'a>>),
    Reflog(ReflogLookup),
    Branch(usize),
    Sibling(SiblingBranch),
    Kind(spec::Kind),
    Traverse(Traversal),
    Peel(PeelTo<'a>),
    Find { regex: &'a [u8], negated: bool },
    Index { path: &'a [u8], stage: u8 },
    Done,
}

impl<A: Allocator> Recorder<A> {
    /// Makes a recorder without calls.
    pub fn new(alloc: A, refusals: Global) -> Recorder<A> {
        Recorder {
            calls: Vec::new(alloc),
            refusals,
        }
    }

    /// Returns the calls, separated by a semicolon and a space.
    pub fn calls(&self) -> &[u8] {
        &self.calls
    }

    /// Adds a call. If there is no memory for it, no part of it is kept.
    fn hear(&mut self, call: Call<'_>) -> Result<(), Exn>
        ensures { IsNoRefusal (answer_of result) }
    {
        let before = self.calls.len();
        match self.print(call) {
            Ok(()) => Ok(()),
            Err(_) => {
                self.calls.truncate(before);
                Err(Exn::out_of_memory(self.refusals))
            }
        }
    }

    fn print(&mut self, call: Call<'_>) -> io::Result<()> {
        if !self.calls.is_empty() {
            self.calls.write_all(b"; ")?;
        }
        print_call(call, &mut self.calls)
    }
}

impl<A: Allocator> Listener for Recorder<A> {
    ghost step = { λ before call answer after. IsNoRefusal answer };
}

impl<A: Allocator> Revision for Recorder<A> {
    fn find_ref(&mut self, name: &[u8]) -> Result<(), Exn> {
        self.hear(Call::FindRef(name))
    }

    fn disambiguate_prefix(
        &mut self,
        prefix: Prefix,
        hint: Option<PrefixHint<'_>>,
    ) -> Result<(), Exn> {
        self.hear(Call::Prefix(prefix, hint))
    }

    fn reflog(&mut self, query: ReflogLookup) -> Result<(), Exn> {
        self.hear(Call::Reflog(query))
    }

    fn nth_checked_out_branch(&mut self, branch_no: usize) -> Result<(), Exn> {
        self.hear(Call::Branch(branch_no))
    }

    fn sibling_branch(&mut self, kind: SiblingBranch) -> Result<(), Exn> {
        self.hear(Call::Sibling(kind))
    }
}

impl<A: Allocator> Kind for Recorder<A> {
    fn kind(&mut self, kind: spec::Kind) -> Result<(), Exn> {
        self.hear(Call::Kind(kind))
    }
}

impl<A: Allocator> Navigate for Recorder<A> {
    fn traverse(&mut self, kind: Traversal) -> Result<(), Exn> {
        self.hear(Call::Traverse(kind))
    }

    fn peel_until(&mut self, kind: PeelTo<'_>) -> Result<(), Exn> {
        self.hear(Call::Peel(kind))
    }

    fn find(&mut self, regex: &[u8], negated: bool) -> Result<(), Exn> {
        self.hear(Call::Find { regex, negated })
    }

    fn index_lookup(&mut self, path: &[u8], stage: u8) -> Result<(), Exn> {
        self.hear(Call::Index { path, stage })
    }
}

impl<A: Allocator> Delegate for Recorder<A> {
    fn done(&mut self) -> Result<(), Exn> {
        self.hear(Call::Done)
    }
}

/// Writes a call. Texts are written as their bytes.
fn print_call<W: Write>(call: Call<'_>, to: &mut W) -> io::Result<()> {
    match call {
        Call::FindRef(name) => print_text("find_ref(", name, to),
        Call::Prefix(prefix, hint) => print_prefix(prefix, hint, to),
        Call::Reflog(query) => print_lookup(query, to),
        Call::Branch(number) => write!(to, "branch({number})"),
        Call::Sibling(branch) => print_text("sibling(", name_of_sibling(branch).as_bytes(), to),
        Call::Kind(kind) => print_text("kind(", name_of_kind(kind).as_bytes(), to),
        Call::Traverse(step) => print_step(step, to),
        Call::Peel(target) => print_target(target, to),
        Call::Find { regex, negated } => {
            print_text(if negated { "find_not(" } else { "find(" }, regex, to)
        }
        Call::Index { path, stage } => print_index(path, stage, to),
        Call::Done => to.write_all(b"done"),
    }
}

fn print_lookup<W: Write>(query: ReflogLookup, to: &mut W) -> io::Result<()> {
    match query {
        ReflogLookup::Entry(number) => write!(to, "reflog(entry {number})"),
        ReflogLookup::Date(time) => write!(to, "reflog(date {} {})", time.seconds, time.offset),
    }
}

fn print_step<W: Write>(step: Traversal, to: &mut W) -> io::Result<()> {
    match step {
        Traversal::NthParent(number) => write!(to, "parent({number})"),
        Traversal::NthAncestor(number) => write!(to, "ancestor({number})"),
    }
}

fn print_index<W: Write>(path: &[u8], stage: u8, to: &mut W) -> io::Result<()> {
    write!(to, "index({stage} ")?;
    print_text("", path, to)
}

/// Writes what comes before a text, the text, and a closing bracket.
fn print_text<W: Write>(before: &str, text: &[u8], to: &mut W) -> io::Result<()> {
    to.write_all(before.as_bytes())?;
    to.write_all(text)?;
    to.write_all(b")")
}

fn print_prefix<W: Write>(
    prefix: Prefix,
    hint: Option<PrefixHint<'_>>,
    to: &mut W,
) -> io::Result<()> {
    write!(to, "prefix({prefix}")?;
    match hint {
        None => to.write_all(b")"),
        Some(PrefixHint::MustBeCommit) => to.write_all(b" commit)"),
        Some(
            PrefixHint::DescribeAnchor {
                ref_name,
                generation,
            },
        ) => {
            to.write_all(b" ")?;
            to.write_all(ref_name)?;
            write!(to, " {generation})")
        }
    }
}

fn print_target<W: Write>(target: PeelTo<'_>, to: &mut W) -> io::Result<()> {
    match target {
        PeelTo::ObjectKind(kind) => print_text("peel(", name_of(kind).as_bytes(), to),
        PeelTo::ValidObject => to.write_all(b"peel(object)"),
        PeelTo::RecursiveTagObject => to.write_all(b"peel()"),
        PeelTo::Path(path) => print_text("peel(:", path, to),
    }
}

fn name_of_kind(kind: spec::Kind) -> &'static str {
    match kind {
        spec::Kind::IncludeReachable => "IncludeReachable",
        spec::Kind::ExcludeReachable => "ExcludeReachable",
        spec::Kind::RangeBetween => "RangeBetween",
        spec::Kind::ReachableToMergeBase => "ReachableToMergeBase",
        spec::Kind::IncludeReachableFromParents => "IncludeReachableFromParents",
        spec::Kind::ExcludeReachableFromParents => "ExcludeReachableFromParents",
    }
}

fn name_of_sibling(branch: SiblingBranch) -> &'static str {
    match branch {
        SiblingBranch::Upstream => "upstream",
        SiblingBranch::Push => "push",
    }
}

fn name_of(kind: object::Kind) -> &'static str {
    match kind {
        object::Kind::Tree => "tree",
        object::Kind::Blob => "blob",
        object::Kind::Commit => "commit",
        object::Kind::Tag => "tag",
    }
}
