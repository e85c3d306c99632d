//! Makes a text that a user chose, as a job's name, safe for terminals and spreadsheets.
ghost use Rattle.std.specs.Prelude.{◌≡◌, ◌++◌, IfOk, OnOk, flat_map};
ghost use Rattle.std.specs.Str.{chars};
ghost use Rattle.client_operator.specs.Shown.{guard, is_hidden, shown_character, shown_characters, shown_text, starts_formula};

use std::alloc::{AllocError, Global};

/// Makes a text safe to show on a terminal and in a spreadsheet. What is no UTF-8, and what is not
/// seen where it stands, becomes U+FFFD; what a spreadsheet would compute gets `'` before it.
pub fn shown_text(alloc: Global, text: &[u8]) -> Result<Vec<u8>, AllocError>
    ensures { IfOk result (λ shown. shown.items ≡ shown_text text.now) }
{
    let readable = String::from_utf8_lossy(alloc, text)?;
    let characters = characters_of(alloc, readable.as_str())?;
    let mut shown = Vec::new(alloc);
    put_guard(&mut shown, characters.as_slice())?;
    put_shown(&mut shown, characters.as_slice())?;
    Ok(shown)
}

/// Gives the characters of a text.
fn characters_of(alloc: Global, text: &str) -> Result<Vec<char>, AllocError>
    ensures { IfOk result (λ found. found.items ≡ chars text.now) }
{
    text.chars().collect(alloc)
}

/// Appends `'` where a spreadsheet would take the text for a formula.
fn put_guard(out: &mut Vec<u8>, characters: &[char]) -> Result<(), AllocError>
    ensures { OnOk result (out.new.items ≡ out.old.items ++ guard characters.now) }
{
    match characters {
        [first, ..] if starts_formula(*first) => Ok(out.push(b'\'')?),
        _ => Ok(()),
    }
}

/// Appends the characters, U+FFFD in the place of each that is hidden.
fn put_shown(out: &mut Vec<u8>, characters: &[char]) -> Result<(), AllocError>
    ensures { OnOk result
        (out.new.items ≡ out.old.items ++ flat_map shown_character characters.now) }
{
    for character in characters {
        put_character(out, *character)?;
    }
    Ok(())
}

/// Appends a character in UTF-8, or U+FFFD where it is hidden.
fn put_character(out: &mut Vec<u8>, character: char) -> Result<(), AllocError>
    ensures { OnOk result (out.new.items ≡ out.old.items ++ shown_character character) }
{
    if is_hidden(character) {
        return out.extend_from_slice(&[0xEF, 0xBF, 0xBD]);
    }
    let mut bytes = [0; 4];
    out.extend_from_slice(character.encode_utf8(&mut bytes).as_bytes())
}

/// Whether a character is not seen, is a control, or turns what stands behind it the other way.
fn is_hidden(character: char) -> bool
    ensures { result ≡ is_hidden character }
{
    matches!(
        character,
        '\0'..='\u{1F}'
            | '\u{7F}'..='\u{9F}'
            | '\u{AD}'
            | '\u{61C}'
            | '\u{180E}'
            | '\u{200B}'..='\u{200F}'
            | '\u{2028}'..='\u{202E}'
            | '\u{2060}'..='\u{206F}'
            | '\u{FEFF}'
            | '\u{FFF9}'..='\u{FFFB}'
            | '\u{E0000}'..='\u{E0FFF}'
    )
}

/// Whether a spreadsheet takes a text that starts with the character for a formula.
fn starts_formula(character: char) -> bool
    ensures { result ≡ starts_formula character }
{
    matches!(
        character,
        '=' | '+' | '-' | '@' | '\u{FF1D}' | '\u{FF0B}' | '\u{FF0D}' | '\u{FF20}'
    )
}
