//! Text in HTML.
use std::alloc::AllocError;

/// Adds a text of ASCII as HTML has it: the four characters that HTML has another use for are
/// entities.
pub fn add_escaped(html: &mut String, text: &str) -> Result<(), AllocError> {
    for byte in text.bytes() {
        match byte {
            b'&' => html.push_str("&amp;")?,
            b'<' => html.push_str("&lt;")?,
            b'>' => html.push_str("&gt;")?,
            b'"' => html.push_str("&quot;")?,
            _ => html.push(char::from(byte))?,
        }
    }
    Ok(())
}
