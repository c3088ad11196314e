use doc_items::Memory;
use std::alloc::Global;
use test_op_words::shown_document;
use wavelet_op::Role;
use wavelet_state::WaveletState;

fn push_participants(alloc: Global, state: &WaveletState, out: &mut String) -> Result<(), Memory> {
    for place in 0..u64::MAX {
        let Some(address) = state.participant(place) else {
            return Ok(());
        };
        let role = match state.role(address) {
            Some(Role::Full) => "full",
            Some(Role::ReadOnly) => "read",
            None => "none",
        };
        let entry = format!(in alloc; "{} {}; ", address.text(), role)?;
        out.push_str(entry.as_str())?;
    }
    Ok(())
}

fn push_documents(alloc: Global, state: &WaveletState, out: &mut String) -> Result<(), Memory> {
    for place in 0..u64::MAX {
        let Some(name) = state.document_name(place) else {
            return Ok(());
        };
        let word = match state.document(alloc, name)? {
            Some(document) => shown_document(alloc, &document)?,
            None => String::new(alloc),
        };
        let entry = format!(in alloc; "{}: {}; ", name.text(), word.as_str())?;
        out.push_str(entry.as_str())?;
    }
    Ok(())
}

/// The state as words.
pub fn shown_state(alloc: Global, state: &WaveletState) -> Result<String, Memory> {
    let mut out = String::new(alloc);
    push_participants(alloc, state, &mut out)?;
    push_documents(alloc, state, &mut out)?;
    Ok(out)
}
