//! The faults with which the program ends.
ghost use Rattle.std.specs.Prelude.{◌≡◌, None, Some};
ghost use Rattle.nmvs_service.specs.Faults.{fault_text, fault_status, outcome};

use nmvs_messages::End;
use nmvs_operator::Options;
use nmvs_recovery::FileFault;
use std::fmt;
use std::net::SocketAddr;

/// A fault with which the program ends (own). The program reports it on standard error.
#[derive(Clone, Copy)]
pub enum Fault<'a> {
    /// A file that the run begins with is not taken, or the export is not written.
    File(FileFault<'a>),
    /// The log in the folder of this path did not confirm all of the trail.
    JournalUnwritten(&'a str),
    /// A worker was refused its window on the directory.
    Directory,
    /// The server cannot listen on this port.
    CannotListen(u16),
    /// The server cannot make a socket at this path.
    CannotListenAt(&'a str),
    /// Fewer workers gave their clerk back than there are clerks.
    LostClerk,
    /// The system gives no random bytes.
    Random,
    /// Memory or a thread was refused.
    Memory,
    /// A state that the program does not come to, by this name. No contract excludes it.
    Impossible(&'static str),
    /// A read of the session over standard input failed.
    SessionRead,
    /// A write of the session over standard output failed.
    SessionWrite,
    /// The session had more lines or reads than it may have.
    SessionLimit,
}

impl<'a> fmt::Display for Fault<'a> {
    ghost output = { λ fault. Some (fault_text fault) };

    fn fmt<W: fmt::Write>(&self, f: &mut fmt::Formatter<W>) -> fmt::Result {
        match self {
            Fault::File(fault) => write!(f, "{fault}"),
            Fault::JournalUnwritten(path) => write!(f, "cannot write journal {path}"),
            Fault::Directory => f.write_str("directory refused"),
            Fault::CannotListen(port) => write!(f, "cannot listen on port {port}"),
            Fault::CannotListenAt(path) => write!(f, "cannot listen at {path}"),
            Fault::LostClerk => f.write_str("a clerk was lost"),
            Fault::Random => f.write_str("no random bytes"),
            Fault::Memory => f.write_str("out of memory"),
            Fault::Impossible(state) => write!(f, "impossible: {state}"),
            Fault::SessionRead => f.write_str("session read fault"),
            Fault::SessionWrite => f.write_str("session write fault"),
            Fault::SessionLimit => f.write_str("session limit"),
        }
    }
}

/// How the program ended: the fault of the session over standard input, and any other fault. Success has neither.
#[derive(Clone, Copy)]
pub struct Outcome<'a> {
    pub session: Option<Fault<'a>>,
    pub program: Option<Fault<'a>>,
}

impl<'a> Outcome<'a> {
    /// The outcome of this fault, without a fault of the session.
    pub fn of(program: Fault<'a>) -> Outcome<'a>
        ensures { result ≡ record { session = None; program = Some program.entry } }
    {
        Outcome {
            session: None,
            program: Some(program),
        }
    }
}

impl<'a> Fault<'a> {
    /// The exit status of the program. It is 3 if a line of the import, its digest or a journal is refused. It is 4 if the
    /// export or a journal is not written, 5 if the repository does not settle, and else 1.
    pub fn status(&self) -> u8
        ensures { result ≡ fault_status self.now }
    {
        match self {
            Fault::File(fault) => fault.status(),
            Fault::JournalUnwritten(_) => 4,
            Fault::LostClerk => 5,
            _ => 1,
        }
    }

    /// The fault of a server that cannot listen where the options say: at their socket, or else on their port.
    pub fn of_listening(options: &'a Options) -> Fault<'a> {
        Fault::of_place(&options.socket, options.address)
    }

    /// The fault of a server that cannot listen for HTTP: at the socket of the options, or else on the port of this address.
    pub fn of_http(options: &'a Options, address: SocketAddr) -> Fault<'a> {
        Fault::of_place(&options.http_socket, address)
    }

    fn of_place(socket: &'a Option<String>, address: SocketAddr) -> Fault<'a> {
        match socket {
            Some(path) => Fault::CannotListenAt(path),
            None => Fault::CannotListen(address.port()),
        }
    }
}

/// The result of the program after its session ended in this way.
///
/// # Errors
///
/// The fault of a session that neither QUIT nor the end of the input ended.
pub fn outcome_of(end: End) -> Result<(), Fault<'static>>
    ensures { result ≡ outcome end }
{
    match end {
        End::Quit | End::Ended => Ok(()),
        End::ReadFault => Err(Fault::SessionRead),
        End::WriteFault => Err(Fault::SessionWrite),
        End::Limit => Err(Fault::SessionLimit),
        End::Memory => Err(Fault::Memory),
    }
}
