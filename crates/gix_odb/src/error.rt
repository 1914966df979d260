//! The reasons why an object is not read.

ghost use Rattle.std.specs.Prelude.{◌≡◌, ◌≤◌, Some};

use bstr::BStr;
use gix_base::hash::ObjectId;
use gix_base::object::Kind;
use gix_object::commit::ParseError;
use gix_object::kind_name;
use gix_object::tag::ParseError as TagError;
use std::alloc::AllocError;
use std::fmt;
use std::io::ErrorKind;
use thiserror::Error as StdError;

/// The name of a pack, without the extension: its first bytes, if it is longer than 48.
#[derive(Clone, Copy, Debug)]
pub struct PackName {
    bytes: [u8; 48],
    len: usize,
    ghost short: { len ≤ 48 },
}

impl PackName {
    /// Returns the name with these bytes.
    pub(crate) fn new(name: &[u8]) -> PackName {
        let mut bytes = [0u8; 48];
        for (to, from) in bytes.iter_mut().zip(name.iter()) {
            *to = *from;
        }
        PackName {
            bytes,
            len: name.len().min(48),
        }
    }
}

impl fmt::Display for PackName {
    ghost use Rattle.gix_odb.specs.ErrorTexts.{pack_text};

    ghost output = { λ name. Some (pack_text name) };

    fn fmt<W: fmt::Write>(&self, f: &mut fmt::Formatter<W>) -> fmt::Result {
        BStr::new(&self.bytes[..self.len]).fmt(f)
    }
}

/// Says which file of an `objects` folder a [`FileName`] names.
#[derive(Clone, Copy, Debug)]
pub enum FileKind {
    /// The folder itself.
    Objects,
    /// `info/alternates`.
    Alternates,
    /// The folder `pack`.
    Packs,
    /// The index of a pack.
    Index(PackName),
    /// A pack.
    Pack(PackName),
    /// The loose file of an object.
    Loose(ObjectId),
}

/// Names a file of a store.
#[derive(Clone, Copy, Debug)]
pub struct FileName {
    /// 0 is the folder on which the store was opened, and `n` the alternate with this number.
    /// [`Store::folder`](crate::Store::folder) returns its path.
    pub folder: usize,
    pub kind: FileKind,
}

/// Says how a file is damaged.
#[derive(Clone, Copy, Debug)]
pub enum Damage {
    /// The file is too short for its tables.
    CutOff,
    /// The file is longer than its tables can be.
    TooLong,
    /// The pack is another one than that of the index.
    OtherPack,
    /// The fanout table of an index falls.
    Fanout,
    /// No object begins at this offset.
    Header,
    /// The zlib stream is malformed or cut off, or its content has another size than it should.
    Stream,
    /// A delta does not fit its base, or is malformed.
    Delta,
    /// The base of a delta is not in the same pack.
    Base,
    /// A chain of deltas leads in a circle.
    Circle,
}

/// Says what a file has that is not supported.
#[derive(Clone, Copy, Debug)]
pub enum Feature {
    /// An index of another version than 2.
    IndexVersion,
    /// An object of more bytes than the store's limit.
    LargeObject,
    /// A path that is not UTF-8.
    NotUtf8,
}

/// Says why an object is not read.
///
/// There may be several copies of an object. If none is authentic, the first failure is returned.
///
/// `Damaged`, `Unsupported` and `Failed` say what a call on a file returned, or what its bytes were.
/// No contract says so, because files have no model: they may change between two reads. For the same
/// reason, `Missing` says only that no file was found that should have the object.
#[derive(Clone, Copy, Debug, Drop, StdError)]
pub enum Error {
    /// No copy of the object was found.
    Missing(ObjectId),
    /// The bytes that were found under this id have another id, the second one.
    Altered(ObjectId, ObjectId),
    /// The object is authentic, and not a commit.
    NotACommit(ObjectId, Kind),
    /// The object is an authentic commit, and git refuses it, or its date does not fit.
    Malformed(ObjectId, ParseError),
    /// The object is authentic, and not a tag.
    NotATag(ObjectId, Kind),
    /// The object is an authentic tag, and git refuses it.
    MalformedTag(ObjectId, TagError),
    /// A file is damaged at this byte.
    Damaged(FileName, u64, Damage),
    /// A file has something that is not supported.
    Unsupported(FileName, Feature),
    /// The system failed to open, list or read a file.
    Failed(FileName, ErrorKind),
    /// An allocation failed.
    OutOfMemory,
}

impl From<AllocError> for Error {
    ghost use Rattle.gix_odb.specs.declared.error.Error.TheVariants.{OutOfMemory};

    ghost from_gives = { λ _ error. error ≡ OutOfMemory };

    fn from(_e: AllocError) -> Error {
        Error::OutOfMemory
    }
}

impl fmt::Display for FileKind {
    ghost use Rattle.gix_odb.specs.ErrorTexts.{file_kind_text};

    ghost output = { λ kind. Some (file_kind_text kind) };

    fn fmt<W: fmt::Write>(&self, f: &mut fmt::Formatter<W>) -> fmt::Result {
        match self {
            FileKind::Objects => f.write_str("the objects folder"),
            FileKind::Alternates => f.write_str("'info/alternates'"),
            FileKind::Packs => f.write_str("the folder 'pack'"),
            FileKind::Index(name) => write!(f, "'pack/{name}.idx'"),
            FileKind::Pack(name) => write!(f, "'pack/{name}.pack'"),
            FileKind::Loose(id) => write!(f, "loose object {id}"),
        }
    }
}

impl fmt::Display for FileName {
    ghost use Rattle.gix_odb.specs.ErrorTexts.{file_name_text};

    ghost output = { λ name. Some (file_name_text name) };

    fn fmt<W: fmt::Write>(&self, f: &mut fmt::Formatter<W>) -> fmt::Result {
        let kind = self.kind;
        let folder = self.folder;
        if folder == 0 {
            write!(f, "{kind}")
        } else {
            write!(f, "{kind} of alternate {folder}")
        }
    }
}

impl fmt::Display for Damage {
    ghost use Rattle.gix_odb.specs.ErrorTexts.{damage_text};

    ghost output = { λ damage. Some (damage_text damage) };

    fn fmt<W: fmt::Write>(&self, f: &mut fmt::Formatter<W>) -> fmt::Result {
        match self {
            Damage::CutOff => f.write_str("file is too short for its tables"),
            Damage::TooLong => f.write_str("file is longer than its tables can be"),
            Damage::OtherPack => f.write_str("pack does not match its index"),
            Damage::Fanout => f.write_str("fanout table falls"),
            Damage::Header => f.write_str("no object begins here"),
            Damage::Stream => f.write_str("zlib stream is malformed, cut off or of another size"),
            Damage::Delta => f.write_str("delta is malformed or does not fit its base"),
            Damage::Base => f.write_str("base of a delta is not in the pack"),
            Damage::Circle => f.write_str("chain of deltas leads in a circle"),
        }
    }
}

impl fmt::Display for Feature {
    ghost use Rattle.gix_odb.specs.ErrorTexts.{feature_text};

    ghost output = { λ feature. Some (feature_text feature) };

    fn fmt<W: fmt::Write>(&self, f: &mut fmt::Formatter<W>) -> fmt::Result {
        match self {
            Feature::IndexVersion => f.write_str("index of another version than 2"),
            Feature::LargeObject => f.write_str("object is larger than the limit"),
            Feature::NotUtf8 => f.write_str("path is not UTF-8"),
        }
    }
}

impl fmt::Display for Error {
    ghost use Rattle.gix_odb.specs.ErrorTexts.{error_text};

    ghost output = { error_text };

    fn fmt<W: fmt::Write>(&self, f: &mut fmt::Formatter<W>) -> fmt::Result {
        match self {
            Error::Missing(id) => write!(f, "object {id} is missing"),
            Error::Altered(id, _) => write!(f, "altered: the bytes of object {id} have another id"),
            Error::NotACommit(id, kind) => {
                write!(f, "not a commit: object {id} is a {}", kind_name(*kind))
            }
            Error::Malformed(id, error) => write!(f, "malformed commit: {id}: {error}"),
            Error::NotATag(id, kind) => {
                write!(f, "not a tag: object {id} is a {}", kind_name(*kind))
            }
            Error::MalformedTag(id, error) => write!(f, "malformed tag: {id}: {error}"),
            Error::Damaged(file, at, damage) => {
                write!(f, "damaged: {file} at byte {at}: {damage}")
            }
            Error::Unsupported(file, feature) => write!(f, "unsupported: {file}: {feature}"),
            Error::Failed(file, kind) => write!(f, "cannot read {file}: {kind}"),
            Error::OutOfMemory => f.write_str("out of memory"),
        }
    }
}
