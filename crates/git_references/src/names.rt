//! Prints the names of references (git-for-each-ref, "refname", "symref").

use git_session::integer::integer;
use git_session::session::Session;
use git_session::stop::Stop;

/// Says at which end of a name parts are cut off.
#[derive(Clone, Copy)]
pub(crate) enum Side {
    Left,
    Right,
}

/// Says how a name is printed.
#[derive(Clone, Copy)]
pub(crate) enum Form {
    Full,
    /// The shortest name that is not ambiguous.
    Short,
    /// Without so many of its parts; a negative number says how many stay.
    Cut(Side, i32),
}

/// Returns the form that the end of a field means: what follows the field's own name.
pub(crate) fn form_of(end: &[u8]) -> Option<Form> {
    let words = match end {
        [] => return Some(Form::Full),
        [b':', words @ ..] => words,
        _ => return None,
    };
    if words == b"short".as_slice() {
        return Some(Form::Short);
    }
    for (front, side) in [
        (b"lstrip=".as_slice(), Side::Left),
        (b"strip=", Side::Left),
        (b"rstrip=", Side::Right),
    ] {
        if let Some(text) = words.strip_prefix(front) {
            return Some(Form::Cut(side, integer(text)?));
        }
    }
    None
}

/// Returns a name without so many of its parts at the left. A negative number says how many stay.
fn cut_left(name: &[u8], count: i32) -> &[u8] {
    let mut rest = name;
    for _ in 0..cuts(name, count) {
        let Some(slash) = rest.iter().position(|byte| *byte == b'/') else {
            return &[];
        };
        rest = rest.get(slash.saturating_add(1)..).unwrap_or(&[]);
    }
    rest
}

/// Returns a name without so many of its parts at the right.
fn cut_right(name: &[u8], count: i32) -> &[u8] {
    let mut rest = name;
    for _ in 0..cuts(name, count) {
        let Some(slash) = rest.iter().rposition(|byte| *byte == b'/') else {
            return &[];
        };
        rest = rest.get(..slash).unwrap_or(&[]);
    }
    rest
}

/// Returns how many parts of a name are cut off.
fn cuts(name: &[u8], count: i32) -> usize {
    let parts = name.split(|byte| *byte == b'/').count();
    if count < 0 {
        let left = usize::try_from(count.unsigned_abs()).unwrap_or(usize::MAX);
        parts.saturating_sub(left)
    } else {
        usize::try_from(count).unwrap_or(0)
    }
}

/// Prints the shortest name of a reference. It must be the only one, if git is to warn of others.
fn print_short_name(session: &mut Session<'_>, name: &[u8]) -> Result<(), Stop> {
    let is_strict = session.repository.warns_of_ambiguous_names();
    let short = session.repository.shortest_name(name, is_strict)?;
    session.print(&short)?;
    Ok(())
}

/// Prints a full name in a form.
pub(crate) fn print_name(session: &mut Session<'_>, name: &[u8], form: Form) -> Result<(), Stop> {
    match form {
        Form::Full => Ok(session.print(name)?),
        Form::Short => print_short_name(session, name),
        Form::Cut(Side::Left, count) => Ok(session.print(cut_left(name, count))?),
        Form::Cut(Side::Right, count) => Ok(session.print(cut_right(name, count))?),
    }
}

/// Prints the name of the reference to which a symbolic one leads; nothing for another.
pub(crate) fn print_symref(session: &mut Session<'_>, name: &[u8], form: Form) -> Result<(), Stop> {
    let last = session.repository.last_name(name)?;
    if last.as_slice() == name {
        return Ok(());
    }
    print_name(session, &last, form)
}
