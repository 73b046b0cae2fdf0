//! The peer at the other end of a connection.
ghost use Rattle.std.specs.Prelude.{◌≡◌};
ghost use Rattle.nmvs_messages.specs.Peers.{peer_named, speaks_for};

use nmvs_identifier::Name;

/// The peer at the other end of a connection.
#[derive(Clone, Copy, PartialEq, Eq)]
pub enum Peer {
    /// An unknown peer. Its lines may name any user.
    Anyone,
    /// This user.
    User(Name),
    /// The users of this authorisation.
    Authorisation(Name),
}

impl Peer {
    /// Whether its lines may name this user, who has this authorisation.
    pub fn speaks_for(&self, user: &Name, authorisation: &Name) -> bool
        ensures { result ≡ speaks_for self.now user.now authorisation.now }
    {
        match self {
            Peer::Anyone => true,
            Peer::User(own) => user == own,
            Peer::Authorisation(own) => authorisation == own,
        }
    }
}

/// The kind of name that a certificate has.
#[derive(Clone, Copy, PartialEq, Eq)]
pub enum NameOf {
    User,
    Authorisation,
}

impl NameOf {
    /// The peer whose certificate has this name.
    pub fn peer(self, name: Name) -> Peer
        ensures { result ≡ peer_named self name }
    {
        match self {
            NameOf::User => Peer::User(name),
            NameOf::Authorisation => Peer::Authorisation(name),
        }
    }
}
