// What an index answers, as text.
use doc_items::Memory;
use std::alloc::Global;
use wave_index::{Hit, InboxLine};

/// The lines of an inbox.
pub fn shown_lines(alloc: Global, lines: &[InboxLine]) -> Result<String, Memory> {
    let mut out = String::new(alloc);
    for line in lines {
        let name = line.name.text();
        let version = line.version;
        let unread = line.unread;
        let title = line.title.as_str();
        write!(
            out,
            "{name} version {version} unread {unread} title {title}; "
        )?;
    }
    Ok(out)
}

/// Where a word stands.
pub fn shown_hits(alloc: Global, hits: &[Hit]) -> Result<String, Memory> {
    let mut out = String::new(alloc);
    for hit in hits {
        let wavelet = hit.name.text();
        let document = hit.document.text();
        write!(out, "{wavelet} {document}; ")?;
    }
    Ok(out)
}
