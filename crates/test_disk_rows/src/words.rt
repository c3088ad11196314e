// The program's words.
use crate::Fault;
use crate::text::put;
use command_words::{Command, PeerList, WordsFault, read_words};
use std::alloc::Global;

/// Words, apart by spaces; `.` stands for the empty word.
pub fn words_of(alloc: Global, line: &str) -> Result<Vec<String>, Fault> {
    let mut words = Vec::new(alloc);
    if line.is_empty() {
        return Ok(words);
    }
    for word in line.split(' ') {
        let word = if word == "." { "" } else { word };
        words.push(String::from_str(alloc, word)?)?;
    }
    Ok(words)
}

// The number of sessions, where there is one.
fn count_of(alloc: Global, sessions: Option<u64>) -> Result<String, Fault> {
    match sessions {
        Some(count) => Ok(format!(in alloc; " for {count}")?),
        None => Ok(String::new(alloc)),
    }
}

// The folder, where there is one.
fn place_of(alloc: Global, store: Option<&str>) -> Result<String, Fault> {
    match store {
        Some(folder) => Ok(format!(in alloc; " over {folder}")?),
        None => Ok(String::new(alloc)),
    }
}

// The servers of other domains.
fn peers_of(alloc: Global, peers: &PeerList) -> Result<String, Fault> {
    let mut text = String::new(alloc);
    for (domain, address) in peers.as_slice() {
        let domain = domain.text();
        let address = address.as_str();
        text.push_str(format!(in alloc; " with {domain} at {address}")?.as_str())?;
    }
    Ok(text)
}

fn shown(alloc: Global, words: &[String]) -> Result<String, Fault> {
    Ok(match read_words(alloc, words) {
        Ok(Command::Pipe { store: None }) => String::from_str(alloc, "pipe")?,
        Ok(
            Command::Pipe {
                store: Some(folder),
            },
        ) => format!(in alloc; "pipe over {folder}")?,
        Ok(Command::Load { count }) => format!(in alloc; "load {count}")?,
        Ok(Command::Play { store, wavelet }) => {
            let wavelet = wavelet.text();
            format!(in alloc; "play {wavelet} over {store}")?
        }
        Ok(Command::Inbox { store, user }) => {
            let user = user.text();
            format!(in alloc; "inbox of {user} over {store}")?
        }
        Ok(
            Command::Serve {
                domain,
                listen,
                peers,
                sessions,
                store,
                echo,
            },
        ) => {
            let echo = if echo { " with echo" } else { "" };
            let sessions = count_of(alloc, sessions)?;
            let store = place_of(alloc, store)?;
            let peers = peers_of(alloc, &peers)?;
            let domain = domain.text();
            format!(in alloc; "serve {domain} at {listen}{peers}{sessions}{store}{echo}")?
        }
        Ok(
            Command::Edit {
                user,
                client,
                connect,
            },
        ) => {
            let user = user.text();
            format!(in alloc; "edit of {user} with {client} at {connect}")?
        }
        Err(WordsFault::Usage) => String::from_str(alloc, "usage")?,
        Err(WordsFault::Memory) => return Err(Fault::Memory),
    })
}

/// `words WORDS`: what they name.
pub(crate) fn words(alloc: Global, line: &str, out: &mut String) -> Result<(), Fault> {
    let words = words_of(alloc, line)?;
    let shown = shown(alloc, words.as_slice())?;
    Ok(put(out, shown.as_str())?)
}
