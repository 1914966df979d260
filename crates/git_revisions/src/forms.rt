//! Reads the form of a revision from its end, as git does (gitrevisions).
//!
//! git takes steps off the end of a text, such as `~2` and `^{tree}`, before it looks up the name
//! that is left. So a text that is wrong near its end names nothing, and git does not look up its
//! name.

use gix_spec::spec::parse::delegate::SiblingBranch;

/// Says what the form of a text tells of what it names.
#[derive(Clone, Copy)]
pub enum Form<'t> {
    /// It has a name, and steps behind it.
    Usual,
    /// It names nothing, whatever there is.
    Nothing,
    /// git asks for the upstream of a branch of this name, which there cannot be.
    NoBranch(&'t [u8]),
    /// git may read it in a way of its own.
    Odd,
}

/// Says what is left of a text without the step at its end.
#[derive(Clone, Copy)]
enum Left<'t> {
    Text(&'t [u8]),
    /// git may read the step in a way of its own.
    Odd,
    /// git takes no step of this number, whatever is before it.
    TooFar,
    /// There is no step.
    NoStep,
}

/// Returns where the last of two bytes in a text begin.
fn last(text: &[u8], mark: &[u8]) -> Option<usize> {
    let mut place = None;
    for (at, two) in text.windows(2).enumerate() {
        if two == mark {
            place = Some(at);
        }
    }
    place
}

/// Returns whether two bytes are in a text.
fn has(text: &[u8], mark: &[u8]) -> bool {
    last(text, mark).is_some()
}

/// Returns the text before the last of two bytes, and the text from there to the brace at the end.
fn braced<'t>(text: &'t [u8], mark: &[u8]) -> Option<(&'t [u8], &'t [u8])> {
    let open = text.strip_suffix(b"}".as_slice())?;
    let at = last(open, mark)?;
    Some((open.get(..at)?, open.get(at.saturating_add(2)..)?))
}

/// Returns a text up to the first colon that stands outside of braces, before a path.
pub fn before_path(text: &[u8]) -> &[u8] {
    let mut depth = 0usize;
    for (at, byte) in text.iter().enumerate() {
        match *byte {
            b'{' => depth = depth.saturating_add(1),
            b'}' => depth = depth.saturating_sub(1),
            b':' if depth == 0 => return text.get(..at).unwrap_or(text),
            _ => {}
        }
    }
    text
}

/// Returns whether a text between `^{` and `}` is a step.
fn is_step(inner: &[u8]) -> bool {
    let kinds = [
        b"".as_slice(),
        b"commit",
        b"tree",
        b"blob",
        b"tag",
        b"object",
    ];
    inner.starts_with(b"/") || kinds.contains(&inner)
}

/// Returns a text without the `~n` or `^n` at its end, and the digits of the number; `None` if there
/// is none.
fn without_count(text: &[u8]) -> Option<(&[u8], &[u8])> {
    let at = text.iter().rposition(|b| !b.is_ascii_digit())?;
    match text.get(at) {
        Some(b'~' | b'^') => Some((text.get(..at)?, text.get(at.saturating_add(1)..)?)),
        _ => None,
    }
}

/// Returns whether a number in decimal digits fits 31 bits. No digits are a number that does.
fn is_small(digits: &[u8]) -> bool {
    let zeros = digits.iter().take_while(|b| **b == b'0').count();
    let number = digits.get(zeros..).unwrap_or(&[]);
    let most = b"2147483647".as_slice();
    number.len() < most.len() || number.len() == most.len() && number <= most
}

/// Returns a text without the step at its end.
fn without_step(text: &[u8]) -> Left<'_> {
    if let Some((left, digits)) = without_count(text) {
        return if is_small(digits) {
            Left::Text(left)
        } else {
            Left::TooFar
        };
    }
    match braced(text, b"^{") {
        Some((_, inner)) if inner.contains(&b'}') => Left::Odd,
        Some((left, inner)) if is_step(inner) => Left::Text(left),
        _ => Left::NoStep,
    }
}

/// Returns whether no reference can have a name.
fn is_broken(name: &[u8]) -> bool {
    name.iter().any(|b| matches!(*b, b'^' | b'~')) || has(name, b"..")
}

/// Returns whether a name ends in `-g` and digits, as those of `git describe`.
fn is_described(name: &[u8]) -> bool {
    let digits = name
        .iter()
        .rev()
        .take_while(|b| b.is_ascii_hexdigit())
        .count();
    let front = name.get(..name.len().saturating_sub(digits)).unwrap_or(&[]);
    front.ends_with(b"-g")
}

/// Returns whether a mark of a branch stands in a name and not at its end: git looks it up even so.
fn has_inner_mark(name: &[u8]) -> bool {
    let marks = [b"@{-".as_slice(), b"@{u", b"@{U", b"@{p", b"@{P"];
    name.windows(3).any(|three| marks.contains(&three))
}

/// Returns the form of a name in front of `@{..}`.
fn selected_form<'t>(front: &'t [u8], inner: &[u8]) -> Form<'t> {
    if inner.contains(&b'}') {
        return Form::Odd;
    }
    if inner.is_empty() || inner.starts_with(b"-") && !front.is_empty() {
        return Form::Nothing;
    }
    if !is_broken(front) {
        return Form::Usual;
    }
    match SiblingBranch::parse(inner) {
        Some(SiblingBranch::Upstream) if !has(front, b"@{") => Form::NoBranch(front),
        None if !has_inner_mark(front) => Form::Nothing,
        _ => Form::Odd,
    }
}

/// Returns the form of a text without steps.
fn name_form(name: &[u8]) -> Form<'_> {
    if let Some((front, inner)) = braced(name, b"@{") {
        return selected_form(front, inner);
    }
    let is_broken = is_broken(name) || has(name, b"@{");
    if name.is_empty() {
        Form::Nothing
    } else if has_inner_mark(name) {
        Form::Odd
    } else if !is_broken {
        Form::Usual
    } else if is_described(name) {
        Form::Odd
    } else {
        Form::Nothing
    }
}

/// Returns the name before the steps of a text, or the form of the text if a step decides it.
fn name_of(text: &[u8]) -> Result<&[u8], Form<'_>> {
    let mut left = text;
    let mut is_braced = false;
    for _ in 0..text.len() {
        match without_step(left) {
            Left::Text(text) => {
                is_braced |= left.ends_with(b"}");
                left = text;
            }
            // git looks a text up whole, too, whose step in braces leads nowhere.
            Left::TooFar if is_braced && has_inner_mark(left) => return Err(Form::Odd),
            Left::TooFar => return Err(Form::Nothing),
            Left::Odd => return Err(Form::Odd),
            Left::NoStep => break,
        }
    }
    Ok(left)
}

/// Returns the form of a text that is no range, without the path behind it.
pub fn form_of(text: &[u8]) -> Form<'_> {
    let front = before_path(text);
    match name_of(front) {
        Ok(name) => name_form(name),
        // git looks up a text with a path whole first.
        Err(Form::Nothing) if front.len() < text.len() && has_inner_mark(front) => Form::Odd,
        Err(form) => form,
    }
}

/// Returns whether a step of a text is `~n` or `^n`, before which git looks up the name anew.
pub fn is_counted(text: &[u8]) -> bool {
    let mut left = text;
    for _ in 0..text.len() {
        if without_count(left).is_some() {
            return true;
        }
        match without_step(left) {
            Left::Text(text) => left = text,
            _ => return false,
        }
    }
    false
}

/// Returns whether a text asks for the upstream or the push branch of a branch.
pub fn asks_sibling(text: &[u8]) -> bool {
    let Ok(name) = name_of(text) else {
        return false;
    };
    match braced(name, b"@{") {
        Some((_, inner)) => SiblingBranch::parse(inner).is_some(),
        None => false,
    }
}

/// Returns whether a text asks for an entry of a reflog. Then it names no reference.
pub fn asks_entry(text: &[u8]) -> bool {
    let Ok(name) = name_of(text) else {
        return false;
    };
    match braced(name, b"@{") {
        Some((_, inner)) => !inner.starts_with(b"-") && SiblingBranch::parse(inner).is_none(),
        None => false,
    }
}

/// Returns whether git reads all that is behind `@{` as a date if the steps behind it lead nowhere.
pub fn may_be_date(text: &[u8]) -> bool {
    match last(text, b"@{") {
        Some(at) => has(text.get(at..).unwrap_or(&[]), b"^{"),
        None => false,
    }
}
