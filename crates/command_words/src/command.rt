ghost use Rattle.std.specs.Prelude.{◌≡◌, Some, None, true, IfOk, IfErr, option_map, option_and_then, map, string_bytes};
ghost use Rattle.clap.specs.Words.{first_of, subcommand_rows_of};
ghost use Rattle.command_words.specs.Commands.{stored, loaded, checked, given, perhaps, folder, flag, both, host, session_number, played, inboxed, served, served_by, client_key, edited, edited_by, named_net, named_past, named, is_cut, accepted, command_in, needs_net};
ghost use Rattle.command_words.specs.Shown.{shown};

use crate::grammar::matches_of;
use crate::name::{Name, name_of};
use crate::peers::{PeerList, peers_by};
use crate::values::{is_value, number};
use clap::ArgMatches;
use std::alloc::Global;
use wave_base::{Address, Domain, WaveletName};

// The greatest number of `load`.
const MAX_LOAD: u64 = 100_000;

// The greatest number of `--sessions`.
const MAX_SESSIONS: u64 = 1_000_000;

// The greatest key of a client.
const MAX_CLIENT: u64 = 9_007_199_254_740_991;

/// What the words ask for.
#[derive(Debug, Drop)]
pub enum Command<'a> {
    /// Sessions over standard input and output, with the wavelets of a folder where one is named.
    Pipe {
        store: Option<&'a str>,
    },
    /// The stated workload, with this number of edits, at most 100,000.
    Load {
        count: u64,
    },
    /// Any state of a wavelet's history in a folder.
    Play {
        store: &'a str,
        wavelet: WaveletName,
    },
    /// What a user has in a folder, and where a word stands.
    Inbox {
        store: &'a str,
        user: Address,
    },
    /// Sessions of a domain's users over a net, at this address, with the servers of other domains, with the wavelets of a folder where
    /// one is named, and with the robot `echo` where it is asked for. It ends after this number of sessions, from 1 to 1,000,000, where
    /// there is one.
    Serve {
        domain: Domain,
        listen: &'a str,
        peers: PeerList,
        sessions: Option<u64>,
        store: Option<&'a str>,
        echo: bool,
    },
    /// The terminal client of a user with this key, at most 2^53 - 1, over a link with the server at this address.
    Edit {
        user: Address,
        client: u64,
        connect: &'a str,
    },
}

impl Command<'_> {
    /// Whether it is a command over a net.
    pub fn needs_net(&self) -> bool
        ensures { result ≡ needs_net (shown self.now) }
    {
        match self {
            Command::Pipe { store: _store } => false,
            Command::Load { count: _count } => false,
            Command::Play {
                store: _store,
                wavelet: _wavelet,
            } => false,
            Command::Inbox {
                store: _store,
                user: _user,
            } => false,
            Command::Serve {
                domain: _domain,
                listen: _listen,
                peers: _peers,
                sessions: _sessions,
                store: _store,
                echo: _echo,
            } => true,
            Command::Edit {
                user: _user,
                client: _client,
                connect: _connect,
            } => true,
        }
    }
}

/// Why words name no command.
#[derive(Clone, Copy, Debug, Drop, PartialEq, Eq)]
pub enum WordsFault {
    /// They aren't in the program's language.
    Usage,
    /// Want of memory.
    Memory,
}

// The value of an option or word of the command that the words named.
fn value_of<'a>(matches: &ArgMatches<'a>, name: &str) -> Option<&'a str>
    ensures { option_map (λ s. s.now) result ≡ option_and_then (λ p. first_of name.now p.1) (subcommand_rows_of matches.now) }
{
    let (_command, inner) = matches.subcommand()?;
    inner.get_str(name)
}

// Whether an option without a value is among the words of the command that they named.
fn is_flagged(matches: &ArgMatches<'_>, name: &str) -> bool
    ensures { result ≡ flag (option_and_then (λ p. first_of name.now p.1) (subcommand_rows_of matches.now)) }
{
    match value_of(matches, name) {
        Some(text) => text == "true",
        None => false,
    }
}

// The name of the command.
fn command_name<'a>(matches: &ArgMatches<'a>) -> Option<&'a str>
    ensures { option_map (λ s. s.now) result ≡ option_map (λ p. p.0) (subcommand_rows_of matches.now) }
{
    matches.subcommand_name()
}

fn stored(store: Option<&str>) -> Result<Command<'_>, WordsFault>
    ensures ok { IfOk result (λ c. stored (option_map (λ s. s.now) store.entry) ≡ Some (shown c)) }
    ensures refused { IfErr result (λ e. stored (option_map (λ s. s.now) store.entry) ≡ None) }
{
    match folder(store) {
        Ok(store) => Ok(Command::Pipe { store }),
        Err(fault) => Err(fault),
    }
}

fn loaded<'a>(count: Option<&str>) -> Result<Command<'a>, WordsFault>
    ensures ok { IfOk result (λ c. loaded (option_map (λ s. s.now) count.entry) ≡ Some (shown c)) }
    ensures refused { IfErr result (λ e. loaded (option_map (λ s. s.now) count.entry) ≡ None) }
{
    match count {
        None => Err(WordsFault::Usage),
        Some(text) => match number(MAX_LOAD, text) {
            Some(count) => Ok(Command::Load { count }),
            None => Err(WordsFault::Usage),
        },
    }
}

// The value of an option that must be there.
fn given(value: Option<&str>) -> Result<&str, WordsFault>
    ensures ok { IfOk result (λ v. given (option_map (λ s. s.now) value.entry) ≡ Some v.now) }
    ensures refused { IfErr result (λ e. given (option_map (λ s. s.now) value.entry) ≡ None) }
{
    let Some(value) = value else {
        return Err(WordsFault::Usage);
    };
    if is_value(value) {
        Ok(value)
    } else {
        Err(WordsFault::Usage)
    }
}

// The folder of an option that may be there.
fn folder(store: Option<&str>) -> Result<Option<&str>, WordsFault>
    ensures ok { IfOk result (λ v. perhaps folder (option_map (λ s. s.now) store.entry) ≡ Some (option_map (λ s. s.now) v)) }
    ensures refused { IfErr result (λ e. perhaps folder (option_map (λ s. s.now) store.entry) ≡ None) }
{
    match store {
        None => Ok(None),
        Some(folder) => {
            if is_value(folder) {
                Ok(Some(folder))
            } else {
                Err(WordsFault::Usage)
            }
        }
    }
}

// The number of sessions of an option that may be there.
fn sessions(count: Option<&str>) -> Result<Option<u64>, WordsFault>
    ensures ok { IfOk result (λ n. perhaps session_number (option_map (λ s. s.now) count.entry) ≡ Some n) }
    ensures refused { IfErr result (λ e. perhaps session_number (option_map (λ s. s.now) count.entry) ≡ None) }
{
    match count {
        None => Ok(None),
        Some(text) => match number(MAX_SESSIONS, text) {
            None => Err(WordsFault::Usage),
            Some(0) => Err(WordsFault::Usage),
            Some(count) => Ok(Some(count)),
        },
    }
}

// A value and a name.
fn both<'a, N: Name>(
    alloc: Global,
    value: Option<&'a str>,
    name: Option<&str>,
) -> Result<(&'a str, N), WordsFault>
    ensures ok { IfOk result (λ r. both (given (option_map (λ s. s.now) value.entry))
        (checked N.is_name (option_map (λ s. s.now) name.entry)) ≡ Some (r.0.now, N.bytes r.1)) }
    ensures refused { IfErr result
        (λ e. e ≡ WordsFault.Usage
        → both (given (option_map (λ s. s.now) value.entry)) (checked N.is_name (option_map (λ s. s.now) name.entry)) ≡ None) }
{
    match given(value) {
        Err(fault) => Err(fault),
        Ok(value) => match name_of(alloc, name) {
            Err(fault) => Err(fault),
            Ok(name) => Ok((value, name)),
        },
    }
}

fn played<'a>(
    alloc: Global,
    store: Option<&'a str>,
    wavelet: Option<&str>,
) -> Result<Command<'a>, WordsFault>
    ensures ok { IfOk result (λ c. played (option_map (λ s. s.now) store.entry) (option_map (λ s. s.now) wavelet.entry) ≡ Some (shown c)) }
    ensures refused { IfErr result
        (λ e. e ≡ WordsFault.Usage → played (option_map (λ s. s.now) store.entry) (option_map (λ s. s.now) wavelet.entry) ≡ None) }
{
    match both(alloc, store, wavelet) {
        Ok((store, wavelet)) => Ok(Command::Play { store, wavelet }),
        Err(fault) => Err(fault),
    }
}

fn inboxed<'a>(
    alloc: Global,
    store: Option<&'a str>,
    user: Option<&str>,
) -> Result<Command<'a>, WordsFault>
    ensures ok { IfOk result (λ c. inboxed (option_map (λ s. s.now) store.entry) (option_map (λ s. s.now) user.entry) ≡ Some (shown c)) }
    ensures refused { IfErr result
        (λ e. e ≡ WordsFault.Usage → inboxed (option_map (λ s. s.now) store.entry) (option_map (λ s. s.now) user.entry) ≡ None) }
{
    match both(alloc, store, user) {
        Ok((store, user)) => Ok(Command::Inbox { store, user }),
        Err(fault) => Err(fault),
    }
}

// What a server may have.
fn bounds<'a>(
    count: Option<&str>,
    store: Option<&'a str>,
) -> Result<(Option<u64>, Option<&'a str>), WordsFault>
    ensures ok { IfOk result (λ r. both (perhaps session_number (option_map (λ s. s.now) count.entry))
        (perhaps folder (option_map (λ s. s.now) store.entry)) ≡ Some (r.0, option_map (λ s. s.now) r.1)) }
    ensures refused { IfErr result
        (λ e. both (perhaps session_number (option_map (λ s. s.now) count.entry)) (perhaps folder (option_map (λ s. s.now) store.entry))
        ≡ None) }
{
    match sessions(count) {
        Err(fault) => Err(fault),
        Ok(count) => match folder(store) {
            Err(fault) => Err(fault),
            Ok(store) => Ok((count, store)),
        },
    }
}

// Where a server listens, its domain and the servers of others.
fn host<'a>(
    alloc: Global,
    listen: Option<&'a str>,
    domain: Option<&str>,
    peers: Option<&str>,
) -> Result<(&'a str, Domain, PeerList), WordsFault>
    ensures ok { IfOk result (λ r. host (option_map (λ s. s.now) listen.entry) (option_map (λ s. s.now) domain.entry)
        (option_map (λ s. s.now) peers.entry) ≡ Some (r.0.now, r.1, r.2)) }
    ensures refused { IfErr result (λ e. e ≡ WordsFault.Usage → host (option_map (λ s. s.now) listen.entry)
        (option_map (λ s. s.now) domain.entry) (option_map (λ s. s.now) peers.entry) ≡ None) }
{
    match both::<Domain>(alloc, listen, domain) {
        Err(fault) => Err(fault),
        Ok((listen, domain)) => match peers_by(alloc, &domain, peers) {
            Err(fault) => Err(fault),
            Ok(peers) => Ok((listen, domain, peers)),
        },
    }
}

fn served<'a>(
    alloc: Global,
    listen: Option<&'a str>,
    domain: Option<&str>,
    peers: Option<&str>,
    count: Option<&str>,
    store: Option<&'a str>,
    echo: bool,
) -> Result<Command<'a>, WordsFault>
    ensures ok { IfOk result (λ c. served (option_map (λ s. s.now) listen.entry) (option_map (λ s. s.now) domain.entry)
        (option_map (λ s. s.now) peers.entry) (option_map (λ s. s.now) count.entry) (option_map (λ s. s.now) store.entry) echo
        ≡ Some (shown c)) }
    ensures refused { IfErr result (λ e. e ≡ WordsFault.Usage → served (option_map (λ s. s.now) listen.entry)
        (option_map (λ s. s.now) domain.entry) (option_map (λ s. s.now) peers.entry) (option_map (λ s. s.now) count.entry)
        (option_map (λ s. s.now) store.entry) echo ≡ None) }
{
    match host(alloc, listen, domain, peers) {
        Err(fault) => Err(fault),
        Ok((listen, domain, peers)) => match bounds(count, store) {
            Err(fault) => Err(fault),
            Ok((sessions, store)) => Ok(Command::Serve {
                domain,
                listen,
                peers,
                sessions,
                store,
                echo,
            }),
        },
    }
}

// The server of the options.
fn served_by<'a>(alloc: Global, matches: &ArgMatches<'a>) -> Result<Command<'a>, WordsFault>
    ensures ok { IfOk result (λ c. option_and_then (λ p. served_by p.1) (subcommand_rows_of matches.now) ≡ Some (shown c)) }
    ensures refused { IfErr result
        (λ e. e ≡ WordsFault.Usage → option_and_then (λ p. served_by p.1) (subcommand_rows_of matches.now) ≡ None) }
{
    let listen = value_of(matches, "listen");
    let domain = value_of(matches, "domain");
    let peers = value_of(matches, "peer");
    let count = value_of(matches, "sessions");
    let store = value_of(matches, "store");
    served(
        alloc,
        listen,
        domain,
        peers,
        count,
        store,
        is_flagged(matches, "echo"),
    )
}

// The key of an option that must be there.
fn key_of(client: Option<&str>) -> Result<u64, WordsFault>
    ensures ok { IfOk result (λ n. option_and_then client_key (option_map (λ s. s.now) client.entry) ≡ Some n) }
    ensures refused { IfErr result (λ e. option_and_then client_key (option_map (λ s. s.now) client.entry) ≡ None) }
{
    match client {
        None => Err(WordsFault::Usage),
        Some(text) => match number(MAX_CLIENT, text) {
            Some(key) => Ok(key),
            None => Err(WordsFault::Usage),
        },
    }
}

fn edited<'a>(
    alloc: Global,
    connect: Option<&'a str>,
    user: Option<&str>,
    client: Option<&str>,
) -> Result<Command<'a>, WordsFault>
    ensures ok { IfOk result (λ c. edited (option_map (λ s. s.now) connect.entry) (option_map (λ s. s.now) user.entry)
        (option_map (λ s. s.now) client.entry) ≡ Some (shown c)) }
    ensures refused { IfErr result
        (λ e. e ≡ WordsFault.Usage
        → edited (option_map (λ s. s.now) connect.entry) (option_map (λ s. s.now) user.entry) (option_map (λ s. s.now) client.entry)
        ≡ None) }
{
    match both(alloc, connect, user) {
        Err(fault) => Err(fault),
        Ok((connect, user)) => match key_of(client) {
            Err(fault) => Err(fault),
            Ok(client) => Ok(Command::Edit {
                user,
                client,
                connect,
            }),
        },
    }
}

// The terminal client of the options.
fn edited_by<'a>(alloc: Global, matches: &ArgMatches<'a>) -> Result<Command<'a>, WordsFault>
    ensures ok { IfOk result (λ c. option_and_then (λ p. edited_by p.1) (subcommand_rows_of matches.now) ≡ Some (shown c)) }
    ensures refused { IfErr result
        (λ e. e ≡ WordsFault.Usage → option_and_then (λ p. edited_by p.1) (subcommand_rows_of matches.now) ≡ None) }
{
    let connect = value_of(matches, "connect");
    let user = value_of(matches, "user");
    edited(alloc, connect, user, value_of(matches, "client"))
}

// The command of this name, which is one over a net.
fn named_net<'a>(
    alloc: Global,
    name: &str,
    matches: &ArgMatches<'a>,
) -> Result<Command<'a>, WordsFault>
    requires { option_map (λ p. p.0) (subcommand_rows_of matches.now) ≡ Some name.now }
    ensures ok { IfOk result (λ c. option_and_then named_net (subcommand_rows_of matches.now) ≡ Some (shown c)) }
    ensures refused { IfErr result (λ e. e ≡ WordsFault.Usage → option_and_then named_net (subcommand_rows_of matches.now) ≡ None) }
{
    if name == "edit" {
        return edited_by(alloc, matches);
    }
    served_by(alloc, matches)
}

// The command of this name, which is one over a store or a net.
fn named_past<'a>(
    alloc: Global,
    name: &str,
    matches: &ArgMatches<'a>,
) -> Result<Command<'a>, WordsFault>
    requires { option_map (λ p. p.0) (subcommand_rows_of matches.now) ≡ Some name.now }
    ensures ok { IfOk result (λ c. option_and_then named_past (subcommand_rows_of matches.now) ≡ Some (shown c)) }
    ensures refused { IfErr result (λ e. e ≡ WordsFault.Usage → option_and_then named_past (subcommand_rows_of matches.now) ≡ None) }
{
    let store = value_of(matches, "store");
    if name == "play" {
        return played(alloc, store, value_of(matches, "wavelet"));
    }
    if name == "inbox" {
        return inboxed(alloc, store, value_of(matches, "user"));
    }
    named_net(alloc, name, matches)
}

// The command that was named.
fn named<'a>(alloc: Global, matches: &ArgMatches<'a>) -> Result<Command<'a>, WordsFault>
    ensures ok { IfOk result (λ c. option_and_then named (subcommand_rows_of matches.now) ≡ Some (shown c)) }
    ensures refused { IfErr result (λ e. e ≡ WordsFault.Usage → option_and_then named (subcommand_rows_of matches.now) ≡ None) }
{
    let Some(name) = command_name(matches) else {
        return Err(WordsFault::Usage);
    };
    if name == "pipe" {
        return stored(value_of(matches, "store"));
    }
    if name == "load" {
        return loaded(value_of(matches, "count"));
    }
    named_past(alloc, name, matches)
}

// Whether a word stands after `--`.
fn is_cut(words: &[String]) -> bool
    ensures { result ≡ is_cut (map string_bytes words.now) }
{
    let Some((first, rest)) = words.split_first() else {
        return false;
    };
    first.as_str() == "--" && !rest.is_empty() || is_cut(rest)
}

// The command by clap and by the values.
fn accepted<'a>(alloc: Global, words: &'a [String]) -> Result<Command<'a>, WordsFault>
    ensures ok { IfOk result (λ c. accepted (map string_bytes words.entry.now) ≡ Some (shown c)) }
    ensures refused { IfErr result (λ e. e ≡ WordsFault.Usage → accepted (map string_bytes words.entry.now) ≡ None) }
{
    match matches_of(alloc, words) {
        Ok(matches) => match named(alloc, &matches) {
            Ok(command) => Ok(command),
            Err(fault) => Err(fault),
        },
        Err(fault) => Err(fault),
    }
}

/// The command that the words name. Refusal: `Usage` where they name none: where clap refuses them, where a word stands after `--`,
/// where a value is empty or begins with `-`, where a number isn't decimal digits without a sign or a leading zero, where that of `load`
/// is above 100,000, that of sessions isn't from 1 to 1,000,000 or that of a client is above 2^53 - 1, where a wavelet, a user or a
/// domain isn't a name of its grammar, and where the servers of other domains aren't each a domain of its own, `=` and an address, or one
/// of them has the domain of the server itself.
pub fn read_words<'a>(alloc: Global, words: &'a [String]) -> Result<Command<'a>, WordsFault>
    ensures ok { IfOk result (λ c. command_in words.entry.now ≡ Some (shown c)) }
    ensures refused { IfErr result (λ e. e ≡ WordsFault.Usage → command_in words.entry.now ≡ None) }
{
    if is_cut(words) {
        return Err(WordsFault::Usage);
    }
    accepted(alloc, words)
}
