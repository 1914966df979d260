//! Has ids and prefixes, which are abbreviated object names.

ghost use Rattle.std.proofs.Common.{rules};
ghost use Rattle.std.specs.Cmp.Rules.{hashing};
ghost use Rattle.std.specs.Prelude.{◌≡◌, ◌≢◌, ◌↔◌, ◌≤◌, ◌<◌, ◌∷◌, [], ◌++◌, length, take, drop, min, IsOk, IfOk, IfErr, IsErrOf, Some, ◌⊎◌};
ghost use Rattle.hex.specs.Hex.{IsBytes};
ghost use Rattle.std.specs.Str.{str_to_ascii_lowercase};
ghost use Rattle.gix_base.specs.Digits.{HasOther, digits_of, bytes_of};
ghost use Rattle.gix_base.specs.Hash.{id_text, IsIdText, padded};
ghost use Rattle.gix_base.specs.HexError.{error_text};

use hex::FromHex;
use std::cmp::Ordering;
use std::fmt;
use std::hash::{Hash, Hasher};
use thiserror::Error;

/// Says why a text is not the hex digits of an id or of a prefix.
#[derive(Clone, Copy, Debug, PartialEq, Eq, Drop, Error)]
pub enum HexError {
    /// The text of an id does not have 40 bytes.
    WrongLength,
    /// A byte is not a hex digit.
    NotHex,
    /// The text of a prefix has fewer than 4 bytes.
    TooShort,
    /// The text of a prefix has more than 40 bytes.
    TooLong,
}

impl fmt::Display for HexError {
    ghost output = { λ e. Some (error_text e) };

    fn fmt<W: fmt::Write>(&self, f: &mut fmt::Formatter<W>) -> fmt::Result {
        match self {
            HexError::WrongLength => f.write_str("WrongLength"),
            HexError::NotHex => f.write_str("NotHex"),
            HexError::TooShort => f.write_str("TooShort"),
            HexError::TooLong => f.write_str("TooLong"),
        }
    }
}

/// Is the SHA-1 id of an object (gitglossary, "object name").
///
/// Ids are ordered by their bytes: the first byte that differs decides.
#[derive(Clone, Copy, Debug, PartialEq, Eq, PartialOrd, Ord)]
pub struct ObjectId(pub [u8; 20]);

/// Hashes an id by one write of its 20 bytes, since each look-up of an id hashes it.
impl Hash for ObjectId {
    ghost hash_input = { λ id. id.0 ∷ [] };

    ghost respects_eq = { Prim.search (hashing, rules) };

    fn hash<H: Hasher>(&self, state: &mut H) {
        state.write(&self.0);
    }
}

impl ObjectId {
    /// Reads an id from its 40 hex digits, in upper or lower case.
    ///
    /// See git-rev-parse, "Specifying Revisions". The id prints as these digits in lower case.
    ///
    /// # Errors
    ///
    /// - [`HexError::WrongLength`]: there are not 40 bytes, whatever they are.
    /// - [`HexError::NotHex`]: there are 40 bytes, and one of them is not a hex digit.
    pub fn from_hex(text: &[u8]) -> Result<ObjectId, HexError>
        // `WrongLength` exactly if the text does not have 40 bytes, whatever the bytes are.
        ensures wrong_length { IsErrOf result HexError.WrongLength ↔ (length text.now ≢ 40) }

        // `NotHex` exactly if the text has 40 bytes, and one of the bytes is not a hex digit.
        ensures not_hex { IsErrOf result HexError.NotHex ↔ ((length text.now ≡ 40) × HasOther text.now) }

        // Each error is `WrongLength` or `NotHex`.
        ensures only { IfErr result (λ e. (e ≡ HexError.WrongLength) ⊎ (e ≡ HexError.NotHex)) }

        // The call succeeds exactly if the text is 40 hex digits, in either letter case.
        ensures read { IsOk result ↔ IsIdText text.now }

        // The bytes of the id are those that the digits say.
        ensures value { IfOk result (λ id. id.0 ≡ bytes_of text.now) }

        // The 40 digits of the id are the text in lower case.
        ensures shows { IfOk result (λ id. id_text id ≡ str_to_ascii_lowercase text.now) }
    {
        if text.len() != 40 {
            return Err(HexError::WrongLength);
        }
        match <[u8; 20] as FromHex>::from_hex(text) {
            Ok(bytes) => Ok(ObjectId(bytes)),
            Err(_) => Err(HexError::NotHex),
        }
    }

    /// Returns the 20 bytes of the id.
    pub fn as_bytes(&self) -> &[u8]
        // The answer has the bytes of the id.
        ensures { result.now ≡ self.now.0 }
    {
        &self.0
    }

    /// Writes the first `len` of the id's 40 lower-case digits to the front of `out`.
    ///
    /// If `len` is greater than 40 it writes all 40 digits. The rest of `out` is unchanged. Returns
    /// the number of digits that it wrote.
    pub fn write_hex(&self, len: usize, out: &mut [u8; 40]) -> usize
        // The answer is the lesser of `len` and 40.
        ensures count { result ≡ min len 40 }

        // `out` begins with that many leading digits of the id. The rest of `out` is unchanged.
        ensures written { out.new ≡ take result (id_text self.now) ++ drop result out.old }
    {
        let count = len.min(40);
        out[..count].copy_from_slice(&self.digits()[..count]);
        count
    }

    /// Returns the 40 digits.
    fn digits(&self) -> [u8; 40]
        ensures { result ≡ id_text self.now }
    {
        let mut digits = [0u8; 40];
        let _ = hex::encode_to_slice(self.0.as_slice(), &mut digits);
        digits
    }
}

impl fmt::Display for ObjectId {
    ghost output = { λ id. Some (id_text id) };

    fn fmt<W: fmt::Write>(&self, f: &mut fmt::Formatter<W>) -> fmt::Result {
        let digits = self.digits();
        let text = str::from_utf8(&digits).map_err(|_| fmt::Error)?;
        f.write_str(text)
    }
}

/// Fills up the digits with zeros.
fn fill_up(text: &[u8]) -> [u8; 40]
    requires { length text.now ≤ 40 }
    ensures value { result ≡ padded text.now }
    ensures len { length result ≡ 40 }
{
    let mut digits = [b'0'; 40];
    digits[..text.len()].copy_from_slice(text);
    digits
}

/// Is an abbreviated object name: the leading 4 to 40 digits of an id.
///
/// See git-rev-parse, "Specifying Revisions". Prefixes are ordered by the bytes of their digits,
/// filled up with zeros, and then by the number of digits.
#[derive(Clone, Copy, Debug, PartialEq, Eq, PartialOrd, Ord, Hash)]
pub struct Prefix {
    id: ObjectId,
    hex_len: usize,
    // There are 4 to 40 digits.
    ghost at_least: { 4 ≤ hex_len },
    ghost at_most: { hex_len ≤ 40 },
    ghost bytes: { IsBytes id.0 },
    // No digit is set past the end.
    ghost zeros: { padded (take hex_len (digits_of id.0)) ≡ digits_of id.0 },
}

impl Prefix {
    ghost use Rattle.gix_base.specs.Prefix.{prefix_text, order_against, IsPrefixText};

    /// Is the least number of digits of a prefix (git-config, `core.abbrev`).
    pub const MIN_HEX_LEN: usize = 4;

    /// Reads a prefix from 4 to 40 hex digits, in upper or lower case.
    ///
    /// # Errors
    ///
    /// - [`HexError::TooShort`]: there are fewer than 4 bytes, whatever they are.
    /// - [`HexError::TooLong`]: there are more than 40 bytes, whatever they are.
    /// - [`HexError::NotHex`]: there are 4 to 40 bytes, and one of them is not a hex digit.
    pub fn from_hex(text: &[u8]) -> Result<Prefix, HexError>
        // `TooShort` exactly if the text has fewer than 4 bytes, whatever the bytes are.
        ensures too_short { IsErrOf result HexError.TooShort ↔ (length text.now < 4) }

        // `TooLong` exactly if the text has more than 40 bytes, whatever the bytes are.
        ensures too_long { IsErrOf result HexError.TooLong ↔ (40 < length text.now) }

        // `NotHex` exactly if the text has 4 to 40 bytes, and one of the bytes is not a hex digit.
        ensures not_hex { IsErrOf result HexError.NotHex
            ↔ ((4 ≤ length text.now) × (length text.now ≤ 40) × HasOther text.now) }

        // No error is `WrongLength`.
        ensures only { IfErr result (λ e. e ≢ HexError.WrongLength) }

        // The call succeeds exactly if the text is 4 to 40 hex digits, in either letter case.
        ensures read { IsOk result ↔ IsPrefixText text.now }

        // The digits of the prefix are the text in lower case.
        ensures shows { IfOk result (λ p. prefix_text p ≡ str_to_ascii_lowercase text.now) }
    {
        if text.len() < Prefix::MIN_HEX_LEN {
            return Err(HexError::TooShort);
        }
        if text.len() > 40 {
            return Err(HexError::TooLong);
        }
        let id = ObjectId::from_hex(&fill_up(text))?;
        Ok(Prefix {
            id,
            hex_len: text.len(),
        })
    }

    /// Returns the number of digits, from 4 to 40.
    pub fn hex_len(&self) -> usize
        // The answer is the number of digits of the prefix.
        ensures { result ≡ length (prefix_text self.now) }
    {
        self.hex_len
    }

    /// Returns the id that has these digits, filled up to 40 with the digit 0.
    pub fn as_oid(&self) -> &ObjectId
        // The digits of the id are those of the prefix, filled up to 40 with the digit 0.
        ensures { id_text result.now ≡ padded (prefix_text self.now) }
    {
        &self.id
    }

    /// Compares the digits with as many leading digits of `id`.
    ///
    /// The first digit that differs decides. The answer is `Equal` if `id` begins with the prefix.
    pub fn cmp_oid(&self, id: &ObjectId) -> Ordering
        // The answer compares the digits of the prefix with as many leading digits of `id`. The
        // first digit that differs decides.
        ensures { result ≡ order_against self.now id.now }
    {
        let own = self.id.digits();
        let others = id.digits();
        own[..self.hex_len].cmp(&others[..self.hex_len])
    }
}

impl fmt::Display for Prefix {
    ghost use Rattle.gix_base.specs.Prefix.{prefix_text};

    ghost output = { λ p. Some (prefix_text p) };

    fn fmt<W: fmt::Write>(&self, f: &mut fmt::Formatter<W>) -> fmt::Result {
        let digits = self.id.digits();
        let text = str::from_utf8(&digits[..self.hex_len]).map_err(|_| fmt::Error)?;
        f.write_str(text)
    }
}
