//! Words of `serve` with the servers of other domains.
use crate::{Command, PeerList, WordsFault, read_words};
use std::alloc::{AllocError, Global};
use std::process::Abort;
use std::test::Fail;

// What stands after `serve --domain a.com --listen a:1` and the servers that it names, each with a `;` after it.
const ROWS: [[&str; 2]; 16] = [
    ["", ""],
    ["--peer b.com=b:1", "b.com=b:1;"],
    ["--peer=c.com=c:1,b.com=x=y", "c.com=c:1;b.com=x=y;"],
    ["--peer c.com=c:1,-b.com=b:1", "c.com=c:1;-b.com=b:1;"],
    ["--peer b.com", "usage"],
    ["--peer b.com=", "usage"],
    ["--peer =b:1", "usage"],
    ["--peer B.com=b:1", "usage"],
    ["--peer b.com=-b", "usage"],
    ["--peer=-b.com=b:1", "usage"],
    ["--peer b.com=b:1,", "usage"],
    ["--peer b.com=b:1,,c.com=c:1", "usage"],
    ["--peer b.com=b:1,c.com=c:1,b.com=b:2", "usage"],
    ["--peer b.com=b:1,a.com=a:1", "usage"],
    ["--peer b.com=b:1 --peer c.com=c:1", "usage"],
    ["--peer", "usage"],
];

fn words_of(alloc: Global, line: &str) -> Result<Vec<String>, AllocError> {
    let mut words = Vec::new(alloc);
    for word in "serve --domain a.com --listen a:1".split(' ') {
        words.push(String::from_str(alloc, word)?)?;
    }
    for word in line.split(' ') {
        if !word.is_empty() {
            words.push(String::from_str(alloc, word)?)?;
        }
    }
    Ok(words)
}

fn listed(alloc: Global, peers: &PeerList) -> Result<String, AllocError> {
    let mut text = String::new(alloc);
    for peer in peers.as_slice() {
        text.push_str(peer.0.text())?;
        text.push('=')?;
        text.push_str(peer.1.as_str())?;
        text.push(';')?;
    }
    Ok(text)
}

fn shown(alloc: Global, words: &[String]) -> Result<String, AllocError> {
    match read_words(alloc, words) {
        Ok(
            Command::Serve {
                domain: _domain,
                listen: _listen,
                peers,
                sessions: _sessions,
                store: _store,
                echo: _echo,
            },
        ) => listed(alloc, &peers),
        Ok(_) => String::from_str(alloc, "another command"),
        Err(WordsFault::Usage) => String::from_str(alloc, "usage"),
        Err(WordsFault::Memory) => Err(AllocError),
    }
}

fn is_so(rt: &impl Abort, alloc: Global, row: &[&str; 2]) -> Result<(), Fail> {
    let words = words_of(alloc, row[0])?;
    let shown = shown(alloc, words.as_slice())?;
    assert!(rt; shown.as_str() == row[1]);
    Ok(())
}

#[test]
fn servers_of_other_domains(rt: HostRuntime) -> Result<(), Fail> {
    for row in &ROWS {
        is_so(&rt, rt.alloc(), row)?;
    }
    Ok(())
}
