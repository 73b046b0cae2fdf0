//! Who may read: enrolled users and officers.
use crate::appended_file::{StartFault, refused};
use crate::followed_file::{FollowFault, FollowedFile, first_line};
use crate::options::Options;
use indexmap::IndexMap;
use nmvs_cases::Author;
use nmvs_identifier::{Codes, Expiry, Moment, Name};
use nmvs_messages::{Command, CommandFault, read_command};
use nmvs_rules::{Actor, Enrolment};
use std::alloc::{AllocError, Global};
use std::fs::File;
use std::hash::{BuildHasherDefault, FoldHasher};
use std::rt::Files;
use std::{fs, str};
use thiserror::Error;

/// Why users are not taken.
#[derive(Clone, Copy, Debug, Error)]
pub(crate) enum UsersFault {
    #[error("{0}")]
    Unread(FollowFault),
    /// A line is no command.
    #[error("a line of it is no command: {0}")]
    Line(CommandFault),
    /// A line of the officers is no name.
    #[error("a line of it is no name")]
    Officer,
    /// The last line has no LF.
    #[error("its last line has no end")]
    Unended,
}

impl From<AllocError> for UsersFault {
    fn from(_: AllocError) -> UsersFault {
        UsersFault::Unread(FollowFault::Memory)
    }
}

/// The users, by the last line that names each, and the officers.
#[derive(Drop)]
pub(crate) struct Users {
    alloc: Global,
    /// The users file in the folder of the log, which grows.
    file: FollowedFile,
    /// The enrolment of each user that a line names, and nothing of one that is suspended or removed.
    users: IndexMap<Name, Option<Enrolment>, BuildHasherDefault<FoldHasher>>,
    officers: Vec<Name>,
}

impl Users {
    /// The users of the users file and the officers, as far as the options name files.
    ///
    /// # Errors
    ///
    /// A file cannot be read, or a line of it is no command or no name. Or there is no memory.
    pub fn open<R: Files<File = File> + AllocGlobal>(
        rt: &R,
        alloc: Global,
        options: &Options,
    ) -> Result<Users, StartFault> {
        let journal = &options.journal;
        let path = format!(in alloc; "{journal}/users.txt")?;
        let mut users = Users {
            alloc,
            file: FollowedFile::new(alloc, path),
            users: IndexMap::new(alloc),
            officers: Vec::new(alloc),
        };
        users.take_files(rt, options)?;
        Ok(users)
    }

    fn take_files<R: Files<File = File> + AllocGlobal>(
        &mut self,
        rt: &R,
        options: &Options,
    ) -> Result<(), StartFault> {
        if let Some(path) = &options.users {
            if let Err(fault) = self.take_file(rt, path) {
                return Err(refused(self.alloc, path, &fault));
            }
        }
        if let Some(path) = &options.officers {
            if let Err(fault) = self.take_officers(rt, path) {
                return Err(refused(self.alloc, path, &fault));
            }
        }
        Ok(())
    }

    /// Takes the whole lines that are new in the users file of the log's folder.
    ///
    /// # Errors
    ///
    /// The file cannot be followed, or a line is no command. The lines before it are taken.
    pub fn follow<R: Files<File = File>>(
        &mut self,
        rt: &R,
        room: &mut [u8],
    ) -> Result<(), UsersFault> {
        for _ in 0..u64::MAX {
            let count = match self.file.read(rt, room) {
                Ok(count) => count,
                Err(fault) => return Err(UsersFault::Unread(fault)),
            };
            let read = room.get(..count).unwrap_or(&[]);
            let taken = self.take_all(read)?;
            if taken == 0 {
                return Ok(());
            }
            self.file.note(read.get(..taken).unwrap_or(&[]))?;
        }
        Ok(())
    }

    /// Takes the whole lines at the front of some bytes, and returns how many bytes they are.
    fn take_all(&mut self, bytes: &[u8]) -> Result<usize, UsersFault> {
        let mut rest = bytes;
        for _ in 0..u64::MAX {
            let Some((line, behind)) = first_line(rest) else {
                break;
            };
            self.take(line)?;
            rest = behind;
        }
        Ok(bytes.len().saturating_sub(rest.len()))
    }

    /// Takes a line: one command, or nothing if it is blank or a comment.
    fn take(&mut self, line: &[u8]) -> Result<(), UsersFault> {
        if matches!(line, [] | [b'#', ..]) {
            return Ok(());
        }
        match read_command(line) {
            Ok(command) => self.obey(command),
            Err(fault) => Err(UsersFault::Line(fault)),
        }
    }

    fn obey(&mut self, command: Command) -> Result<(), UsersFault> {
        match command {
            Command::Enrol(user, enrolment) => self.enter(user, Some(enrolment)),
            Command::Suspend(user) => self.enter(user, None),
            Command::Remove(user) => self.enter(user, None),
        }
    }

    /// Enters the enrolment of a user, or that it has none.
    fn enter(&mut self, user: Name, enrolment: Option<Enrolment>) -> Result<(), UsersFault> {
        // For the proof alone: the types are named before the map is of them.
        let _limits: (Option<Expiry>, Option<Codes>) = match &enrolment {
            Some(enrolment) => (enrolment.until, enrolment.codes),
            None => (None, None),
        };
        match self.users.insert(user, enrolment) {
            Ok(_) => Ok(()),
            Err(_) => Err(UsersFault::Unread(FollowFault::Memory)),
        }
    }

    /// Takes the lines of a users file that does not change.
    ///
    /// # Errors
    ///
    /// The file cannot be read, a line is no command, or the last one has no LF.
    fn take_file<R: Files<File = File> + AllocGlobal>(
        &mut self,
        rt: &R,
        path: &str,
    ) -> Result<(), UsersFault> {
        let bytes = read_file(rt, path)?;
        if self.take_all(&bytes)? < bytes.len() {
            return Err(UsersFault::Unended);
        }
        Ok(())
    }

    /// Takes the officers of a file: a name a line, or a comment, which begins with `#`.
    ///
    /// # Errors
    ///
    /// The file cannot be read, or a line is no name.
    fn take_officers<R: Files<File = File> + AllocGlobal>(
        &mut self,
        rt: &R,
        path: &str,
    ) -> Result<(), UsersFault> {
        let bytes = read_file(rt, path)?;
        for line in bytes.split(|byte| *byte == b'\n') {
            if matches!(line, [] | [b'#', ..]) {
                continue;
            }
            let Some(name) = name_of(line) else {
                return Err(UsersFault::Officer);
            };
            if self.officers.push(name).is_err() {
                return Err(UsersFault::Unread(FollowFault::Memory));
            }
        }
        Ok(())
    }

    /// The user of this name as who reads and acts at a moment, if it may.
    pub fn author(&self, user: &Name, now: Moment) -> Option<Author> {
        if self.officers.contains(user) {
            return Some(Author::Officer(*user));
        }
        match self.users.get(user) {
            Some(Some(enrolment)) if !enrolment.has_ended(now) => {
                Some(Author::User(*user, enrolment.actor))
            }
            _ => None,
        }
    }

    /// The users that are enrolled at a moment, in the order in which lines first named them.
    pub fn enrolled(&self, now: Moment) -> Result<Vec<(Name, Actor)>, AllocError> {
        let mut enrolled = Vec::new(self.alloc);
        for (user, standing) in &self.users {
            if let Some(enrolment) = standing {
                if !enrolment.has_ended(now) {
                    enrolled.push((*user, enrolment.actor))?;
                }
            }
        }
        Ok(enrolled)
    }
}

fn read_file<R: Files<File = File> + AllocGlobal>(
    rt: &R,
    path: &str,
) -> Result<Vec<u8>, UsersFault> {
    match fs::read(rt, path) {
        Ok(bytes) => Ok(bytes),
        Err(fault) => Err(UsersFault::Unread(FollowFault::System(fault))),
    }
}

fn name_of(line: &[u8]) -> Option<Name> {
    match str::from_utf8(line) {
        Ok(text) => Name::read(text).ok(),
        Err(_) => None,
    }
}
