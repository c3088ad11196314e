// What links and nets in memory answer, in rows. Each call and each answer is a letter.
use std::alloc::{AllocError, Global};
use std::process::Abort;
use std::test::Fail;
use wave_outside::{Accepted, Kept, Link, LinkFault, MemoryLink, MemoryNet, Net, NetFault, Polled};

// The polls to come: a message, nothing, a close.
fn polls(alloc: Global, letters: &str) -> Result<Vec<Polled>, AllocError> {
    let mut polls = Vec::new(alloc);
    for letter in letters.chars() {
        polls.push(match letter {
            'm' => Polled::Message(Vec::from_slice(alloc, b"x")?),
            'n' => Polled::Nothing,
            _ => Polled::Closed,
        })?;
    }
    Ok(polls)
}

// The numbers of the calls that fail, each a digit.
fn numbers(alloc: Global, digits: &str) -> Result<Vec<u64>, AllocError> {
    let mut numbers = Vec::new(alloc);
    for digit in digits.chars() {
        numbers.push(u64::from(digit.to_digit(10).unwrap_or(0)))?;
    }
    Ok(numbers)
}

fn poll<L: Link>(alloc: Global, link: &mut L) -> char {
    match link.poll(alloc) {
        Ok(Polled::Message(_)) => 'M',
        Ok(Polled::Nothing) => 'N',
        Ok(Polled::Closed) => 'C',
        Err(LinkFault::Failed) => 'F',
        Err(LinkFault::Memory) => '?',
    }
}

fn send<L: Link>(alloc: Global, link: &mut L) -> char {
    match link.send(alloc, b"y") {
        Ok(()) => 'S',
        Err(LinkFault::Failed) => 'F',
        Err(LinkFault::Memory) => '?',
    }
}

// The answers to calls: p is a poll, s a message that is sent.
fn talk<L: Link>(alloc: Global, link: &mut L, calls: &str) -> Result<String, AllocError> {
    let mut answers = String::new(alloc);
    for call in calls.chars() {
        answers.push(if call == 'p' {
            poll(alloc, link)
        } else {
            send(alloc, link)
        })?;
    }
    Ok(answers)
}

fn letter_of(kept: &Kept) -> char {
    match kept {
        Kept::Received(bytes) if bytes.as_slice() == b"x".as_slice() => 'r',
        Kept::Sent(bytes) if bytes.as_slice() == b"y".as_slice() => 's',
        Kept::Idle => 'i',
        Kept::Ended => 'e',
        _ => '?',
    }
}

// What the link keeps: a message received, an empty poll, the end, a message sent.
fn kept(alloc: Global, link: &MemoryLink) -> Result<String, AllocError> {
    let mut letters = String::new(alloc);
    for kept in link.kept() {
        letters.push(letter_of(kept))?;
    }
    Ok(letters)
}

// The polls to come, the calls that fail, the calls, their answers, and what is kept.
const LINKS: [[&str; 5]; 6] = [
    ["", "", "pp", "CC", "ee"],
    ["mnm", "", "ppppp", "MNMCC", "riree"],
    ["cm", "", "ppp", "CCC", "eee"],
    ["mn", "", "spsp", "SMSN", "srsi"],
    ["mm", "1", "pppp", "MFMC", "rre"],
    ["m", "02", "spsps", "FMFCS", "res"],
];

fn is_link_so(rt: &impl Abort, alloc: Global, row: &[&str; 5]) -> Result<(), Fail> {
    let mut link = MemoryLink::new(alloc, polls(alloc, row[0])?, numbers(alloc, row[1])?);
    let answers = talk(alloc, &mut link, row[2])?;
    assert!(rt; answers.as_str() == row[3]);
    assert!(rt; kept(alloc, &link)?.as_str() == row[4]);
    Ok(())
}

#[test]
fn links_in_memory(rt: HostRuntime) -> Result<(), Fail> {
    for row in &LINKS {
        is_link_so(&rt, rt.alloc(), row)?;
    }
    Ok(())
}

// A link that was used already: it is handed out as a new one.
fn used(alloc: Global) -> Result<MemoryLink, AllocError> {
    let mut link = MemoryLink::new(alloc, polls(alloc, "nm")?, Vec::new(alloc));
    let _polled = link.poll(alloc);
    Ok(link)
}

fn offers(alloc: Global, letters: &str) -> Result<Vec<Accepted<MemoryLink>>, AllocError> {
    let mut offers = Vec::new(alloc);
    for letter in letters.chars() {
        offers.push(if letter == 'l' {
            Accepted::Link(used(alloc)?)
        } else {
            Accepted::Nothing
        })?;
    }
    Ok(offers)
}

fn links(alloc: Global, letters: &str) -> Result<Vec<MemoryLink>, AllocError> {
    let mut links = Vec::new(alloc);
    for _ in letters.chars() {
        links.push(used(alloc)?)?;
    }
    Ok(links)
}

fn fault(fault: NetFault) -> char {
    match fault {
        NetFault::Failed => 'F',
        NetFault::Memory => '?',
    }
}

fn listen(alloc: Global, net: &mut MemoryNet) -> char {
    match net.listen(alloc, "a.com:1") {
        Ok(()) => 'O',
        Err(error) => fault(error),
    }
}

// Accepts, polls the link if one came, and puts it back.
fn accept(alloc: Global, net: &mut MemoryNet) -> char {
    match net.accept(alloc) {
        Ok(Accepted::Link(mut link)) => {
            let answer = poll(alloc, &mut link);
            net.put(link);
            answer
        }
        Ok(Accepted::Nothing) => 'N',
        Err(error) => fault(error),
    }
}

// Dials, polls the link, and puts it back.
fn dial(alloc: Global, net: &mut MemoryNet) -> char {
    match net.dial(alloc, "b.com:2") {
        Ok(mut link) => {
            let answer = poll(alloc, &mut link);
            net.put(link);
            answer
        }
        Err(error) => fault(error),
    }
}

// The answers to calls: l is listen, a is accept, and each other call is dial.
fn call_all(alloc: Global, net: &mut MemoryNet, calls: &str) -> Result<String, AllocError> {
    let mut answers = String::new(alloc);
    for call in calls.chars() {
        answers.push(match call {
            'l' => listen(alloc, net),
            'a' => accept(alloc, net),
            _ => dial(alloc, net),
        })?;
    }
    Ok(answers)
}

// What is offered, the links to dial, the calls that fail, the calls, their answers, a letter for each address that was dialled,
// and what is kept of the links that were put back.
const NETS: [[&str; 7]; 4] = [
    ["", "", "", "lad", "ONF", "b", ""],
    ["lnl", "dd", "", "laaaaddd", "OMNMNMMF", "bbb", "rrrr"],
    ["l", "d", "0", "llad", "FOMM", "b", "rr"],
    ["l", "d", "12", "ladad", "OFFMM", "bb", "rr"],
];

// What is kept of all links that were put back.
fn all_kept(alloc: Global, net: &MemoryNet) -> Result<String, AllocError> {
    let mut letters = String::new(alloc);
    for link in net.back() {
        letters.push_str(kept(alloc, link)?.as_str())?;
    }
    Ok(letters)
}

fn is_net_so(rt: &impl Abort, alloc: Global, row: &[&str; 7]) -> Result<(), Fail> {
    let offers = offers(alloc, row[0])?;
    let links = links(alloc, row[1])?;
    let mut net = MemoryNet::new(alloc, offers, links, numbers(alloc, row[2])?);
    let answers = call_all(alloc, &mut net, row[3])?;
    assert!(rt; answers.as_str() == row[4]);
    assert!(rt; net.asked().len() == row[5].len());
    assert!(rt; all_kept(alloc, &net)?.as_str() == row[6]);
    Ok(())
}

#[test]
fn nets_in_memory(rt: HostRuntime) -> Result<(), Fail> {
    for row in &NETS {
        is_net_so(&rt, rt.alloc(), row)?;
    }
    Ok(())
}
