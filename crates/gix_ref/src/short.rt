//! Reads short names by git's six rules (gitrevisions, `<refname>`), and shortens full names.

ghost use Rattle.std.specs.Prelude.{◌≡◌, IfOk, None, map};
ghost use Rattle.std.specs.Option.{option_map};
ghost use Rattle.gix_ref_text.specs.Known.{Grows};
ghost use Rattle.gix_ref_text.specs.Leads.{name_leads, Settles};
ghost use Rattle.gix_ref_text.specs.Found.{led_to};
ghost use Rattle.gix_ref_text.specs.Short.{wins, first_found, short_means, meant};
ghost use Rattle.gix_ref.specs.Known.{known};

use crate::all::{Skipped, Why, why_garbage};
use crate::error::{Error, Fault};
use crate::store::References;
use gix_base::hash::ObjectId;
use gix_files::Folders;
use gix_ref_text::leads::{Led, Reference};
use gix_ref_text::log::Reflog;
use gix_ref_text::loose::{self, Said};
use gix_ref_text::name::is_full_name;
use gix_ref_text::rules::{Named, full_names, winner};
use std::alloc::{Allocator, Global};

/// What the full names begin with by the rules, the rule that wins first.
static FRONTS: [&str; 5] = ["", "refs/", "refs/tags/", "refs/heads/", "refs/remotes/"];

/// The reference with a reflog that a short name stands for.
#[derive(Drop)]
pub struct Logged<A: Allocator = Global> {
    /// The full name of the reference that has the reflog.
    pub name: Vec<u8, A>,
    /// What it stands for now.
    pub id: ObjectId,
    pub reflog: Reflog<A>,
    /// Whether a further rule has a reference with a reflog, too.
    pub is_ambiguous: bool,
}

impl<F: Folders + Drop, A: Allocator + Copy> References<F, A> {
    /// Returns the reference with a full name. What is broken or leads nowhere counts as missing.
    pub(crate) fn sound(&mut self, name: &[u8]) -> Result<Option<Reference<A>>, Fault> {
        match self.follow_name(name) {
            Ok(Led::Ends(reference)) => Ok(Some(reference)),
            Ok(_) => Ok(None),
            Err(fault) => Err(fault),
        }
    }

    /// Returns why a full name is passed over; `None` if there is no such reference.
    fn why_passed(&self, name: &[u8]) -> Option<Why> {
        let content = self.content(name)?;
        match loose::read(name, content) {
            Said::Id(_) => None,
            Said::LeadsTo(_) => Some(Why::LeadsNowhere),
            Said::Garbage => Some(why_garbage(content)),
        }
    }

    /// Notes why a full name is passed over, if it has a file.
    fn note_passed(&mut self, name: &[u8]) -> Result<(), Fault>
        ensures { known self.new ≡ known self.old }
    {
        if let Some(why) = self.why_passed(name) {
            let name = name.to_vec(self.alloc)?;
            self.passed.push(Skipped { name, why })?;
        }
        Ok(())
    }

    /// Returns where a full name leads. Notes why it is passed over if it leads to no id.
    fn follow_noted(&mut self, name: &[u8]) -> Result<Led<A>, Fault>
        ensures grows { Grows (known self.old) (known self.new) }
        ensures led { IfOk result (λ l. Settles (known self.new) (λ k. name_leads k name.now) (led_to l)) }
    {
        let led = self.follow_name(name)?;
        match led {
            Led::Ends(_) => {}
            _ => self.note_passed(name)?,
        }
        Ok(led)
    }

    /// Returns the reference to which a full name leads, or else what further names lead to.
    fn found_before(
        &mut self,
        name: Vec<u8, A>,
        others: Option<Named<A>>,
    ) -> Result<Option<Named<A>>, Fault>
        ensures grows { Grows (known self.old) (known self.new) }
        ensures found { IfOk result (λ found. Settles (known self.new) (λ k. wins (name_leads k name.items) name.items (option_map meant others)) (option_map meant found)) }
    {
        let led = self.follow_noted(&name)?;
        Ok(winner(name, led, others))
    }

    /// Returns the reference to which the first of some full names leads that leads to one.
    fn first_found(&mut self, mut names: Vec<Vec<u8, A>, A>) -> Result<Option<Named<A>>, Fault>
        ensures { IfOk result (λ found. Settles (known self.new) (λ k. first_found (map (λ n. n.items) names.items) (λ name. name_leads k name) None) (option_map meant found)) }
    {
        let mut found = None;
        for _ in 0..names.len() {
            let Some(name) = names.pop() else {
                return Ok(found);
            };
            found = self.found_before(name, found)?;
        }
        Ok(found)
    }

    /// Returns the reference that a short name stands for.
    fn by_rules(&mut self, short: &[u8]) -> Result<Option<Named<A>>, Fault>
        ensures { IfOk result (λ found. Settles (known self.new) (λ k. short_means k short.now) (option_map meant found)) }
    {
        let names = full_names(self.alloc, short)?;
        self.first_found(names)
    }

    /// Returns the reference that a short name stands for; `None` if there is none.
    ///
    /// The six rules of gitrevisions, `<refname>`, are tried in their order, and the first that has
    /// a reference wins. One that is broken or leads nowhere counts as missing, as in git. Whether
    /// a further rule has one is returned, too: git then warns `refname 'x' is ambiguous`.
    ///
    /// # Errors
    ///
    /// - `Failed` if a file cannot be read, and `NotUtf8` if the short name is not UTF-8.
    /// - `Damaged` if `packed-refs` has a line that git does not write, or a name twice.
    /// - `OutOfMemory` if an allocation failed.
    pub fn short(&mut self, short: &[u8]) -> Result<Option<Named<A>>, Error>
        // The answer has the full name by the first of git's six rules that leads to an id, where
        // it leads, and whether a further rule leads to an id. `None` exactly if no rule leads to
        // an id. More that is read later does not change this (`short_means`).
        ensures found { IfOk result (λ found. Settles (known self.new) (λ k. short_means k short.now) (option_map meant found)) }
    {
        self.begin();
        match self.by_rules(short) {
            Ok(found) => Ok(found),
            Err(fault) => Err(fault.error()),
        }
    }

    /// Lists the references that the last call of [`References::short`] has passed over, since they
    /// are broken or lead nowhere. git warns of them.
    pub fn passed_over(&self) -> &[Skipped<A>] {
        &self.passed
    }

    /// Returns the reflog of the reference with a full name, or else of the one to which it leads.
    fn log_of(&self, name: Vec<u8, A>, led: Reference<A>) -> Result<Option<Logged<A>>, Fault> {
        let id = led.id;
        let (name, reflog) = match self.read_own_log(&name)? {
            Some(reflog) => (name, reflog),
            None => match self.read_own_log(&led.name)? {
                Some(reflog) => (led.name, reflog),
                None => return Ok(None),
            },
        };
        Ok(Some(Logged {
            name,
            id,
            reflog,
            is_ambiguous: false,
        }))
    }

    /// Returns the reference with a reflog that a full name leads to.
    fn logged(&mut self, name: &[u8]) -> Result<Option<Logged<A>>, Fault> {
        match self.sound(name)? {
            Some(reference) => {
                let name = name.to_vec(self.alloc)?;
                self.log_of(name, reference)
            }
            None => Ok(None),
        }
    }

    /// Tests whether one of some full names leads to a reference with a reflog.
    fn is_one_logged(&mut self, names: &[Vec<u8, A>]) -> Result<bool, Fault> {
        for name in names {
            if self.logged(name)?.is_some() {
                return Ok(true);
            }
        }
        Ok(false)
    }

    /// Returns the reference with a reflog that the first rule reads.
    fn first_logged(&mut self, short: &[u8]) -> Result<Option<Logged<A>>, Fault> {
        let names = full_names(self.alloc, short)?;
        for (i, name) in names.iter().enumerate() {
            if let Some(mut logged) = self.logged(name)? {
                let others = names.get(i.saturating_add(1)..).unwrap_or(&[]);
                logged.is_ambiguous = self.is_one_logged(others)?;
                return Ok(Some(logged));
            }
        }
        Ok(None)
    }

    /// Returns the reference with a reflog that a short name stands for; `None` if there is none.
    ///
    /// As in git, a reference without a reflog is passed over, and a further rule may win
    /// (gitrevisions, `<refname>@{<n>}`). If a symbolic reference has none, the one to which it
    /// leads may have one.
    ///
    /// # Errors
    ///
    /// Those of [`References::short`].
    pub fn short_logged(&mut self, short: &[u8]) -> Result<Option<Logged<A>>, Error> {
        self.begin();
        match self.first_logged(short) {
            Ok(found) => Ok(found),
            Err(fault) => Err(fault.error()),
        }
    }

    /// Tests by the list of all references whether there is one with a full name; `None` if there
    /// is no list, or it does not tell.
    fn listed(&self, name: &[u8]) -> Option<bool> {
        match &self.names {
            Some(all) if name.starts_with(b"refs/") => all.tells(name),
            _ => None,
        }
    }

    /// Tests whether a full name leads to a reference.
    fn is_there(&mut self, name: &[u8]) -> Result<bool, Fault> {
        if let Some(is_there) = self.listed(name) {
            return Ok(is_there);
        }
        // A name that git refuses may lead out of the folder, and is not read.
        if !name.starts_with(b"refs/") && is_full_name(name) {
            // `packed-refs` has no such name.
            self.read_loose(name)?;
            if self.content(name).is_none() {
                return Ok(false);
            }
        }
        match self.sound(name) {
            Ok(found) => Ok(found.is_some()),
            Err(error) => Err(error),
        }
    }

    /// Tests whether one of the first `count` rules, except the one at `but`, reads a short name as
    /// a reference.
    fn is_read_by(&mut self, count: usize, but: usize, short: &[u8]) -> Result<bool, Fault> {
        let names = full_names(self.alloc, short)?;
        for (i, name) in names.iter().enumerate() {
            if i < count && i != but && self.is_there(name)? {
                return Ok(true);
            }
        }
        Ok(false)
    }

    /// Returns the shortest text by rule `i`, if no other rule reads it. If `strict` is unset,
    /// only the rules before it count.
    fn shortened<'a>(
        &mut self,
        i: usize,
        name: &'a [u8],
        strict: bool,
    ) -> Result<Option<&'a [u8]>, Fault> {
        let Some(front) = FRONTS.get(i) else {
            return Ok(None);
        };
        let Some(text) = name.strip_prefix(front.as_bytes()) else {
            return Ok(None);
        };
        let count = if strict { usize::MAX } else { i };
        let is_read = self.is_read_by(count, i, text)?;
        Ok((!text.is_empty() && !is_read).then_some(text))
    }

    /// Lists all references. From now on, until [`References::refresh`], names are shortened by
    /// this list, so that files are not read for each name.
    ///
    /// # Errors
    ///
    /// Those of [`References::all`].
    pub fn list_once(&mut self) -> Result<(), Error> {
        if self.names.is_none() {
            self.names = Some(self.all(b"")?);
        }
        Ok(())
    }

    /// Returns the shortest text that the rules read as the reference with this full name.
    ///
    /// If `strict` is set, no other rule has a reference for the text, so that git does not warn
    /// (git-rev-parse, `--abbrev-ref`). Otherwise a later rule may have one. If there is no such
    /// text it is the full name. As in git 2.39, the rule that adds `/HEAD` shortens no name.
    ///
    /// # Errors
    ///
    /// - Those of [`References::short`].
    pub fn shortest<'a>(&mut self, name: &'a [u8], strict: bool) -> Result<&'a [u8], Error> {
        self.begin();
        match self.shortest_by_rules(name, strict) {
            Ok(Some(text)) => Ok(text),
            Ok(None) => Ok(name),
            Err(fault) => Err(fault.error()),
        }
    }

    /// Returns the text by the last rule that shortens a full name.
    fn shortest_by_rules<'a>(
        &mut self,
        name: &'a [u8],
        strict: bool,
    ) -> Result<Option<&'a [u8]>, Fault> {
        for i in 0..4usize {
            if let Some(text) = self.shortened(4usize.saturating_sub(i), name, strict)? {
                return Ok(Some(text));
            }
        }
        Ok(None)
    }
}
