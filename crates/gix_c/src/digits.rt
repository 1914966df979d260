//! C functions that read and write the hex digits of ids.

ghost use Rattle.std.specs.Prelude.{◌≡◌, ◌↔◌, ◌++◌, ◌∷◌, [], IsTrue, if◌then◌else◌};
ghost use Rattle.gix_base.specs.Digits.{bytes_of as bytes_in_digits};
ghost use Rattle.gix_base.specs.Hash.{id_text, IsIdText};
ghost use Rattle.gix_c_core.specs.Answers.{id_of};

use gix_c_core::ids::bytes_of;
use gix_revision::hash::ObjectId;
use gix_revision::laws::base::is_id;

/// Reads the 40 hex digits of an id, in upper or lower case. Returns whether there are such digits.
#[unsafe(no_mangle)]
pub extern "C" fn gix_id_read(out: &mut [u8; 20], hex: &[u8]) -> bool
    // The result is true exactly if `hex` has 40 bytes and each is a hex digit, in either case.
    ensures read { IsTrue result ↔ IsIdText hex.now }

    // If the result is true, `out` has the bytes that the digits say. Otherwise `out` is unchanged.
    ensures value { out.new ≡ (if result then bytes_in_digits hex.now else out.old) }
{
    match ObjectId::from_hex(hex) {
        Ok(id) => {
            *out = bytes_of(&id);
            true
        }
        Err(_) => false,
    }
}

/// Writes the 40 hex digits of an id in lower case, and a zero after them.
#[unsafe(no_mangle)]
pub extern "C" fn gix_id_write(out: &mut [u8; 41], id: &[u8; 20])
    // `out` has the 40 hex digits of `id` in lower case, and a zero after them.
    ensures { out.new ≡ id_text (id_of id.now) ++ 0 ∷ [] }
{
    let id = ObjectId(*id);
    is_id(&id);
    let mut digits = [0u8; 40];
    let _ = id.write_hex(40, &mut digits);
    out[..40].copy_from_slice(&digits);
    out[40] = 0;
}
