//! The options, and the values that a command line gives them.
ghost use Rattle.std.specs.Prelude.{◌≤◌, IfOk};

use crate::address::own_address;
use crate::command_line::{Given, OptionFault, refused};
use log::LevelFilter;
use nmvs_identifier::{LAST_MOMENT, Moment};
use nmvs_log::LogFormat;
use nmvs_messages::NameOf;
use std::alloc::AllocError;
use std::fmt;
use std::net::{IpAddr, SocketAddr};

/// The most shards: a repository has at most 8 locks, each of a type of its own.
pub const MOST_SHARDS: u64 = 8;

/// 1 January 2026, 00:00:00 UTC, in seconds: the one moment of a rehearsal that names no other (own).
const NEW_YEAR: i64 = 1_767_225_600;

/// An option: its name, its value, its default, and its help. The help of the program leaves out an option whose own is
/// empty.
#[derive(Clone, Copy)]
pub struct Row {
    pub name: &'static str,
    pub value: Value,
    pub default: Option<&'static str>,
    pub help: &'static str,
}

/// The value that an option takes.
#[derive(Clone, Copy, Debug)]
pub enum Value {
    /// Nothing: the option is a flag.
    Nothing,
    /// A text, by its name in the help.
    Text(&'static str),
    /// An address with its port, or a port alone.
    Address,
    /// One of these words, by its name in the help.
    Word(&'static str, &'static [&'static str]),
    /// A whole number, no less than the first of these and no more than the second.
    Number(u64, u64),
}

impl Value {
    /// The name of the value in the help, if there is one.
    pub(crate) fn name(self) -> Option<&'static str> {
        match self {
            Value::Nothing => None,
            Value::Text(name) | Value::Word(name, _) => Some(name),
            Value::Address => Some("ADDRESS"),
            Value::Number(..) => Some("N"),
        }
    }
}

/// The option with the name of its value, as the help has them.
impl fmt::Display for Row {
    fn fmt<W: fmt::Write>(&self, f: &mut fmt::Formatter<W>) -> fmt::Result {
        let option = self.name;
        match self.value.name() {
            Some(name) => write!(f, "--{option} <{name}>"),
            None => write!(f, "--{option}"),
        }
    }
}

/// The type of the value in a file of options.
impl fmt::Display for Value {
    ghost use Rattle.std.specs.Prelude.{Some};
    ghost use Rattle.nmvs_operator.specs.Options.{value_text};

    ghost output = { λ value. Some (value_text value) };

    fn fmt<W: fmt::Write>(&self, f: &mut fmt::Formatter<W>) -> fmt::Result {
        match self {
            Value::Nothing => f.write_str("a boolean"),
            Value::Text(_) | Value::Word(..) => f.write_str("a string"),
            Value::Address => f.write_str("a string or an integer"),
            Value::Number(..) => f.write_str("an integer"),
        }
    }
}

pub(crate) const USERS: Row = Row {
    name: "users",
    value: Value::Text("FILE"),
    default: None,
    help: "Users file: one command a line, ENROL user role authorisation premises, SUSPEND user or REMOVE user",
};

pub(crate) const REHEARSAL: Row = Row {
    name: "rehearsal",
    value: Value::Nothing,
    default: None,
    help: "The users of the rehearsal, with a pack for each status, in place of a users file",
};

pub(crate) const IMPORT: Row = Row {
    name: "import",
    value: Value::Text("FILE"),
    default: None,
    help: "An export to go on from: each of its replies is judged again by the rules first",
};

pub(crate) const EXPORT: Row = Row {
    name: "export",
    value: Value::Text("FILE"),
    default: None,
    help: "Where the audit trail is written at the end, one line an entry; what the file had before is lost",
};

pub(crate) const JOURNAL: Row = Row {
    name: "journal",
    value: Value::Text("DIR"),
    default: None,
    help: "Folder of the log: an answer goes out once its entry is on the disk there, and each start goes on from it",
};

pub(crate) const ENGINE: Row = Row {
    name: "engine",
    value: Value::Address,
    default: None,
    help: "Address and port of this machine's etcd, which keeps the log on several machines: one server answers, the others \
    follow; a port alone is one of 127.0.0.1",
};

pub(crate) const CLUSTER: Row = Row {
    name: "cluster",
    value: Value::Text("NAME"),
    default: None,
    help: "Name of the servers that share a log in etcd, 1 to 63 letters, digits and -",
};

pub(crate) const MACHINE: Row = Row {
    name: "machine",
    value: Value::Text("NAME"),
    default: None,
    help: "Name of this machine in the cluster, 1 to 63 letters, digits and -",
};

pub(crate) const SILENCE: Row = Row {
    name: "silence",
    value: Value::Number(1, 3_600),
    default: Some("3"),
    help: "Seconds of silence of the server that answers, after which one that follows takes over, 1 to 3600",
};

pub(crate) const FOUND: Row = Row {
    name: "found",
    value: Value::Nothing,
    default: None,
    help: "The log of a new cluster begins: its keys are made, where etcd has no key of it",
};

pub(crate) const CONFIG: Row = Row {
    name: "config",
    value: Value::Text("FILE"),
    default: None,
    help: "File of options, TOML with one key for each option, as shards = 2; the command line wins",
};

pub(crate) const SHARDS: Row = Row {
    name: "shards",
    value: Value::Number(1, MOST_SHARDS),
    default: Some("8"),
    help: "Parts of the repository that are worked on at once, 1 to 8",
};

pub(crate) const EXPECTED_PACKS: Row = Row {
    name: "expected-packs",
    value: Value::Number(0, 10_000_000_000),
    default: Some("0"),
    help: "Packs that a start makes room for, 0 to 10000000000; up to them no table of packs grows while lines are answered",
};

pub(crate) const WORKERS: Row = Row {
    name: "workers",
    value: Value::Number(1, 8),
    default: Some("4"),
    help: "Threads that serve connections, 1 to 8",
};

pub(crate) const CONNECTIONS: Row = Row {
    name: "connections",
    value: Value::Number(1, 100_000),
    default: Some("10000"),
    help: "Connections that are open at once, 1 to 100000",
};

pub(crate) const CONNECTION_MEMORY: Row = Row {
    name: "connection-memory",
    value: Value::Number(1, 1_048_576),
    default: Some("128"),
    help: "Memory of the buffers of all connections in MiB, 1 to 1048576; above it the connection that takes most is closed",
};

pub(crate) const SESSIONS: Row = Row {
    name: "sessions",
    value: Value::Number(0, 1_000_000),
    default: Some("0"),
    help: "Sessions in which a line is served, for each worker, before the server ends, 0 to 1000000; 0 is without end",
};

pub(crate) const IDLE: Row = Row {
    name: "idle",
    value: Value::Number(0, 86_400),
    default: Some("300"),
    help: "Seconds after which a connection that asks nothing is closed, 0 to 86400; 0 is never",
};

pub(crate) const RATE: Row = Row {
    name: "rate",
    value: Value::Number(0, 1_000_000),
    default: Some("0"),
    help: "Lines a second that are taken from each user over connections, 0 to 1000000; 0 is all",
};

pub(crate) const BURST: Row = Row {
    name: "burst",
    value: Value::Number(1, 1_000_000),
    default: None,
    help: "Lines that are taken from a user at once, 1 to 1000000, if there is a rate; by default as many as in a second",
};

pub(crate) const LISTEN: Row = Row {
    name: "listen",
    value: Value::Address,
    default: Some("127.0.0.1:7161"),
    help: "Address and port, or path of a Unix socket, that is listened on; a port alone is one of 127.0.0.1, and port 0 one \
    that the system chooses",
};

pub(crate) const HTTP: Row = Row {
    name: "http",
    value: Value::Address,
    default: None,
    help: "Address and port, or path of a Unix socket, at which lines come over HTTP; a port alone is one of 127.0.0.1, and \
    port 0 one that the system chooses",
};

pub(crate) const ADMIN: Row = Row {
    name: "admin",
    value: Value::Text("PATH"),
    default: None,
    help: "Unix socket that takes the operator's commands, in addition to standard input; its owner alone may open it",
};

pub(crate) const METRICS: Row = Row {
    name: "metrics",
    value: Value::Address,
    default: None,
    help: "Address and port for /metrics, /healthz and /readyz; a port alone is one of 127.0.0.1, and port 0 one that the \
    system chooses",
};

pub(crate) const LOG_LEVEL: Row = Row {
    name: "log-level",
    value: Value::Word("LEVEL", &["off", "error", "warn", "info", "debug"]),
    default: Some("info"),
    help: "Events of this level and above are logged",
};

pub(crate) const LOG_FORMAT: Row = Row {
    name: "log-format",
    value: Value::Word("FORMAT", &["text", "json"]),
    default: Some("text"),
    help: "How the log on standard error is written",
};

pub(crate) const LOG_USERS: Row = Row {
    name: "log-users",
    value: Value::Nothing,
    default: None,
    help: "An alert is logged with the user and the premises that raised it",
};

pub(crate) const PROXY: Row = Row {
    name: "proxy",
    value: Value::Word("WHOSE", &["user", "authorisation"]),
    default: None,
    help: "Whose name the certificate has by which a gateway's header, PROXY version 2, begins each connection: a line of \
    any other user is turned away",
};

pub(crate) const MOMENT: Row = Row {
    name: "moment",
    value: Value::Number(0, LAST_MOMENT as u64),
    default: None,
    help: "Moment of every line in place of the clock, in seconds since 1970-01-01 UTC, 0 to 4102444799",
};

pub(crate) const STDIN: Row = Row {
    name: "stdin",
    value: Value::Nothing,
    default: None,
    help: "Serve one session over standard input and output in place of connections",
};

pub(crate) const CHECK: Row = Row {
    name: "check",
    value: Value::Nothing,
    default: None,
    help: "Start nothing: say all that is wrong with the file of options and the users file",
};

// Older forms of --listen: the address and the port in place of its parts, and the path of a socket.
pub(crate) const BIND: Row = Row {
    name: "bind",
    value: Value::Text("ADDRESS"),
    default: None,
    help: "",
};

pub(crate) const PORT: Row = Row {
    name: "port",
    value: Value::Number(0, 65_535),
    default: None,
    help: "",
};

pub(crate) const SOCKET: Row = Row {
    name: "socket",
    value: Value::Text("PATH"),
    default: None,
    help: "",
};

/// The options, in the order of the help.
pub static OPTIONS: [Row; 34] = [
    USERS,
    REHEARSAL,
    IMPORT,
    EXPORT,
    JOURNAL,
    ENGINE,
    CLUSTER,
    MACHINE,
    SILENCE,
    FOUND,
    CONFIG,
    SHARDS,
    EXPECTED_PACKS,
    WORKERS,
    CONNECTIONS,
    CONNECTION_MEMORY,
    SESSIONS,
    IDLE,
    RATE,
    BURST,
    LISTEN,
    HTTP,
    ADMIN,
    METRICS,
    LOG_LEVEL,
    LOG_FORMAT,
    LOG_USERS,
    PROXY,
    MOMENT,
    STDIN,
    CHECK,
    BIND,
    PORT,
    SOCKET,
];

/// A command line that was taken (own).
#[derive(Drop)]
pub struct Options {
    /// Path of the users file. Without one the users are those of the rehearsal, with its packs.
    pub users: Option<String>,
    pub import: Option<String>,
    pub export: Option<String>,
    pub journal: Option<String>,
    /// The cluster of which the server is one, if several machines keep the log.
    pub cluster: Option<Cluster>,
    pub shards: usize,
    pub expected_packs: u64,
    pub workers: usize,
    pub sessions: u64,
    pub connections: usize,
    pub connection_memory: u64,
    pub idle: u64,
    pub rate: u64,
    /// The most lines of a user at once: the same as in a second if the command line does not say.
    pub burst: u64,
    /// The address that is listened on, if no socket is; for port 0 the system chooses a free port.
    pub address: SocketAddr,
    /// Path of a Unix socket that is listened on, in place of the address.
    pub socket: Option<String>,
    pub http: Option<SocketAddr>,
    /// Path of a Unix socket at which lines come over HTTP, in place of the address.
    pub http_socket: Option<String>,
    /// Whether the gateway's header names a user or an authorisation, if each connection begins with one.
    pub proxy: Option<NameOf>,
    pub moment: Option<Moment>,
    pub stdin: bool,
    pub admin: Option<String>,
    pub metrics: Option<SocketAddr>,
    pub log_level: LevelFilter,
    pub log_format: LogFormat,
    pub log_users: bool,
    pub check: bool,
    ghost shards_in_range: { (1 ≤ shards) × (shards ≤ 8) },
    ghost expected_packs_in_range: { expected_packs ≤ 10_000_000_000 },
    ghost workers_in_range: { (1 ≤ workers) × (workers ≤ 8) },
    ghost sessions_in_range: { sessions ≤ 1_000_000 },
    ghost connections_in_range: { (1 ≤ connections) × (connections ≤ 100_000) },
    ghost connection_memory_in_range: { (1 ≤ connection_memory) × (connection_memory ≤ 1_048_576) },
    ghost idle_in_range: { idle ≤ 86_400 },
    ghost rate_in_range: { rate ≤ 1_000_000 },
    ghost burst_in_range: { burst ≤ 1_000_000 },
}

/// A server among those that share a log in etcd.
#[derive(Drop)]
pub struct Cluster {
    /// The address of this machine's etcd.
    pub engine: SocketAddr,
    pub name: String,
    pub machine: String,
    /// The seconds of silence of the owner after which a follower takes over.
    pub silence: u64,
    /// Whether the server makes the keys of the log, if there is no key of the cluster.
    pub founds: bool,
    ghost silence_in_range: { (1 ≤ silence) × (silence ≤ 3_600) },
}

/// The values of a line that the parser took.
pub(crate) fn values_of(given: Given<'_, '_>) -> Result<Options, OptionFault> {
    let mut options = numbers_of(given)?;
    match take_others(given, &mut options) {
        Ok(()) => Ok(options),
        Err(fault) => {
            drop(options);
            Err(fault)
        }
    }
}

fn take_others(given: Given<'_, '_>, options: &mut Options) -> Result<(), OptionFault> {
    take_addresses(given, options)?;
    take_texts(given, options)?;
    Ok(())
}

fn take_addresses(given: Given<'_, '_>, options: &mut Options) -> Result<(), OptionFault> {
    options.address = address_of(given)?;
    options.http = given.address_or_path(&HTTP)?;
    options.proxy = proxy_of(given)?;
    options.moment = moment_of(given)?;
    options.metrics = given.address(&METRICS)?;
    options.cluster = cluster_of(given)?;
    Ok(())
}

fn take_texts(given: Given<'_, '_>, options: &mut Options) -> Result<(), AllocError> {
    options.users = given.text(&USERS)?;
    options.import = given.text(&IMPORT)?;
    options.export = given.text(&EXPORT)?;
    options.journal = given.text(&JOURNAL)?;
    options.admin = given.text(&ADMIN)?;
    options.http_socket = given.path(&HTTP)?;
    options.socket = if given.has(&SOCKET) {
        given.text(&SOCKET)?
    } else {
        given.path(&LISTEN)?
    };
    Ok(())
}

/// The values of a line, without its addresses, paths and names.
fn numbers_of(given: Given<'_, '_>) -> Result<Options, OptionFault> {
    let shards = given.number(&SHARDS)? as usize;
    let expected_packs = given.number(&EXPECTED_PACKS)?;
    let workers = given.number(&WORKERS)? as usize;
    let sessions = given.number(&SESSIONS)?;
    let connections = given.number(&CONNECTIONS)? as usize;
    let connection_memory = given.number(&CONNECTION_MEMORY)?;
    let idle = given.number(&IDLE)?;
    let rate = given.number(&RATE)?;
    let burst = burst_of(given, rate)?;
    let log_level = level_of(given)?;
    let log_format = format_of(given)?;
    Ok(Options {
        users: None,
        import: None,
        export: None,
        journal: None,
        cluster: None,
        shards,
        expected_packs,
        workers,
        sessions,
        connections,
        connection_memory,
        idle,
        rate,
        burst,
        address: own_address(0),
        socket: None,
        http: None,
        http_socket: None,
        proxy: None,
        moment: None,
        stdin: given.has(&STDIN),
        admin: None,
        metrics: None,
        log_level,
        log_format,
        log_users: given.has(&LOG_USERS),
        check: given.has(&CHECK),
    })
}

/// The lines of a user at once, by the option or else those of a second.
fn burst_of(given: Given<'_, '_>, rate: u64) -> Result<u64, OptionFault>
    requires { rate ≤ 1_000_000 }
    ensures { IfOk result (λ n. n ≤ 1_000_000) }
{
    if given.has(&BURST) {
        given.number(&BURST)
    } else {
        Ok(rate)
    }
}

/// The address that is listened on, if no socket is: that of `--listen`. `--bind` and `--port` take the place of its parts.
fn address_of(given: Given<'_, '_>) -> Result<SocketAddr, OptionFault> {
    let mut address = match given.address_or_path(&LISTEN)? {
        Some(address) => address,
        None => own_address(0),
    };
    if given.has(&BIND) {
        address.set_ip(bound_ip(given)?);
    }
    if given.has(&PORT) {
        address.set_port(given.number(&PORT)? as u16);
    }
    Ok(address)
}

/// The address of `--bind`.
fn bound_ip(given: Given<'_, '_>) -> Result<IpAddr, OptionFault> {
    given.value::<IpAddr>(&BIND).ok_or_else(|| refused(format!(in given.alloc;
        "error: the value of '{BIND}' is no address\n"
    )))
}

/// The cluster of a line, which has all its names if it has an engine.
fn cluster_of(given: Given<'_, '_>) -> Result<Option<Cluster>, OptionFault> {
    let Some(engine) = given.address(&ENGINE)? else {
        return Ok(None);
    };
    let silence = given.number(&SILENCE)?;
    let (Some(name), Some(machine)) = (given.str(&CLUSTER), given.str(&MACHINE)) else {
        return Err(given.unreadable());
    };
    let name = String::from_str(given.alloc, name)?;
    let machine = String::from_str(given.alloc, machine)?;
    Ok(Some(Cluster {
        engine,
        name,
        machine,
        silence,
        founds: given.has(&FOUND),
    }))
}

/// The level from which events are logged.
fn level_of(given: Given<'_, '_>) -> Result<LevelFilter, OptionFault> {
    given
        .value::<LevelFilter>(&LOG_LEVEL)
        .ok_or_else(|| given.unreadable())
}

/// The format of the log.
fn format_of(given: Given<'_, '_>) -> Result<LogFormat, OptionFault> {
    match given.str(&LOG_FORMAT) {
        Some("text") => Ok(LogFormat::Text),
        Some("json") => Ok(LogFormat::Json),
        _ => Err(given.unreadable()),
    }
}

/// Whether a gateway's header names a user or an authorisation, if the option is given.
fn proxy_of(given: Given<'_, '_>) -> Result<Option<NameOf>, OptionFault> {
    match given.str(&PROXY) {
        None => Ok(None),
        Some("user") => Ok(Some(NameOf::User)),
        Some("authorisation") => Ok(Some(NameOf::Authorisation)),
        Some(_) => Err(given.unreadable()),
    }
}

/// The moment of every line, if the option is given, or if a rehearsal has one of its own.
fn moment_of(given: Given<'_, '_>) -> Result<Option<Moment>, OptionFault> {
    if given.has(&MOMENT) {
        return Ok(Moment::new(given.number(&MOMENT)? as i64));
    }
    Ok(if given.has(&REHEARSAL) {
        Moment::new(NEW_YEAR)
    } else {
        None
    })
}
