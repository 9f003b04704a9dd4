// A source is cut into the scripts of its sessions.
ghost use Rattle.std.specs.Prelude.{◌≡◌, ◌<◌, ◌≤◌, ◌∷◌, length, take, drop, option_map, IfOk};
ghost use Rattle.ts_multi.specs.Sections.{is_line_feed, first_line, is_mark, sections, behind, few_sections};
ghost use Rattle.std.specs.List.{position_or_len};
ghost use Rattle.std.specs.Option.{option_copied};

use std::alloc::{AllocError, Global};
use ts_base::Bytes;

/// The most sections of a source.
const MOST: usize = 16;

/// The first section of a text, and the text behind the marked line that ends it.
#[derive(Clone, Copy)]
struct Cut<'a> {
    section: &'a [u8],
    rest: Option<&'a [u8]>,
}

/// The sections of a source, which lines that are exactly `--session` end; None where there are more than 16.
pub fn split_sessions(alloc: Global, bytes: &[u8]) -> Result<Option<Vec<Bytes>>, AllocError>
    ensures { IfOk result (λ found. option_map (λ v. v.items) found ≡ few_sections bytes.now) }
{
    let mut found = Vec::new(alloc);
    let mut text = bytes;
    for _index in 0..MOST {
        let cut = first_section(text);
        found.push(Bytes::from_slice(alloc, cut.section)?)?;
        match cut.rest {
            None => return Ok(Some(found)),
            Some(rest) => text = rest,
        }
    }
    Ok(None)
}

// The first section of a text.
fn first_section(text: &[u8]) -> Cut<'_>
    ensures { sections text.now ≡ result.section.now ∷ behind (option_copied result.rest) }
{
    let mut len = 0;
    while len < text.len() {
        let line = first_line(&text[len..]);
        let next = len + line.len();
        if is_mark(line) {
            return Cut {
                section: &text[..len],
                rest: Some(&text[next..]),
            };
        }
        len = next;
    }
    Cut {
        section: text,
        rest: None,
    }
}

// The first line of a text, with its line feed.
fn first_line(text: &[u8]) -> &[u8]
    ensures line { result.now ≡ first_line text.now }
    ensures within { length result.now ≤ length text.now }
    ensures some { 0 < length text.now → 0 < length result.now }
{
    let len = before_line_feed(text);
    if len < text.len() {
        &text[..len + 1]
    } else {
        text
    }
}

// How many bytes stand before the first line feed.
fn before_line_feed(text: &[u8]) -> usize
    ensures value { result ≡ position_or_len is_line_feed text.now }
    ensures within { result ≤ length text.now }
{
    text.iter().take_while(|byte| **byte != b'\n').count()
}

// The line ends a section.
#[tactic(auto, unfolding(crate::specs::Sections::is_mark))]
fn is_mark(line: &[u8]) -> bool
    ensures { result ≡ is_mark line.now }
{
    line == b"--session\n".as_slice() || line == b"--session".as_slice()
}
