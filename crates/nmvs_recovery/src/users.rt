//! The users with which a run begins.
use crate::imports::{MOST_FILE_READS, open};
use crate::paths::refused;
use crate::rehearsal_packs::USERS;
use crate::{FileFault, Host, Paths, Run};
use log::{Log, error, info, warn};
use nmvs_directory::{Naming, Notice, Registrar, Standing};
use nmvs_operator::{
    LoadFault, ServiceFault, UserCounts, UsersFault, changes_nothing, count_users, load_users,
    read_all, users_faults, users_trouble,
};
use nmvs_stream::Device;
use std::alloc::{AllocError, Global};
use std::fs::File;
use std::rt::Files;
use std::sync::Wait;

/// The most users that are logged by name, if a kept command changed them after the users file (own).
const MOST_DIFFERING: usize = 10;

/// Publishes the users of the users file, or those of the rehearsal if the options name none.
///
/// # Errors
///
/// The file cannot be read, a line of it is no command, or there is no memory.
pub fn publish_users<'r, 'o, J: Naming, H: Host>(
    run: &Run<'r, 'o, H>,
    registrar: &mut Registrar<J, &'r H, &'r Global>,
) -> Result<Notice<J>, FileFault<'o>> {
    let Some(path) = &run.options.users else {
        return publish_rehearsal(run, registrar);
    };
    match load_file(run, registrar, path) {
        Ok(notice) => {
            if registrar.user_count() == 0 {
                tell_no_users(run.rt, path);
            }
            Ok(notice)
        }
        Err(fault) => {
            if let LoadFault::Line(..) = fault {
                let _told = judge_file(run);
            }
            Err(refused_users(path, fault))
        }
    }
}

/// Tries that the users of the users file can be published, if the options name one.
///
/// # Errors
///
/// As those of [`publish_users`].
pub fn try_users<'o, H: Host>(run: &Run<'_, 'o, H>) -> Result<(), FileFault<'o>> {
    let Some(path) = &run.options.users else {
        return Ok(());
    };
    match judge_file(run) {
        Ok(()) => Ok(()),
        Err(fault) => Err(refused_users(path, fault)),
    }
}

/// The fault of a users file of this path that is not taken.
fn refused_users(path: &str, fault: LoadFault) -> FileFault<'_> {
    match fault {
        LoadFault::Memory => FileFault::Memory,
        LoadFault::Read => FileFault::CannotRead(path),
        LoadFault::Line(number, fault) => FileFault::UsersLine(number, fault),
        LoadFault::Unended(number) => FileFault::UsersEnd(number),
    }
}

/// The bytes of the users file, as it is now. If it names no user, that is logged.
///
/// # Errors
///
/// The options name none, it cannot be read to its end, or there is no memory for it.
pub fn read_users<H: Files<File = File> + Log>(
    run: &Run<'_, '_, H>,
    alloc: Global,
) -> Result<Vec<u8>, ServiceFault> {
    let Some(path) = &run.options.users else {
        return Err(ServiceFault::NoFile);
    };
    let Ok(file) = open(run.rt, path) else {
        return Err(ServiceFault::Read);
    };
    match read_all(alloc, &mut Device::new(file), MOST_FILE_READS) {
        Ok(bytes) => {
            if changes_nothing(&bytes) {
                tell_no_users(run.rt, path);
            }
            Ok(bytes)
        }
        Err(LoadFault::Memory) => Err(ServiceFault::Memory),
        Err(_) => Err(ServiceFault::Read),
    }
}

/// Looks for the first fault of the users file, and logs it with its line in quotes.
fn judge_file<H: Host>(run: &Run<'_, '_, H>) -> Result<(), LoadFault> {
    let bytes = match read_users(run, *run.alloc) {
        Ok(bytes) => bytes,
        Err(ServiceFault::Memory) => return Err(LoadFault::Memory),
        Err(_) => return Err(LoadFault::Read),
    };
    let Ok(faults) = users_faults(*run.alloc, &bytes) else {
        return Err(LoadFault::Memory);
    };
    match faults.first() {
        Some(found) => {
            tell_fault(run.rt, found);
            Err(found.fault)
        }
        None => Ok(()),
    }
}

/// Logs a fault of the users file, with its line in quotes.
fn tell_fault<R: Log>(rt: &R, found: &UsersFault<'_>) {
    if let LoadFault::Line(number, fault) = found.fault {
        let (trouble, line) = (users_trouble(fault), found.line.escape_ascii());
        error!(rt; "users line {number}: {trouble}: \"{line}\"");
    }
}

/// Logs that the users file of this path names no user.
fn tell_no_users<R: Log>(rt: &R, path: &str) {
    warn!(rt; "the users file {path} names no user");
}

/// Logs the number of users that are enrolled, and of those that are suspended.
pub fn tell_users<'r, J: Naming, H: Host>(
    run: &Run<'r, '_, H>,
    registrar: &Registrar<J, &'r H, &'r Global>,
) {
    let UserCounts {
        enrolled,
        suspended,
    } = count_users(registrar);
    info!(run.rt; enrolled, suspended; "users");
}

/// The states of the published users, in the order in which they were first named.
fn standings<'r, J: Naming, H: Host>(
    run: &Run<'r, '_, H>,
    registrar: &Registrar<J, &'r H, &'r Global>,
) -> Result<Vec<Standing>, AllocError> {
    let mut standings = Vec::new(*run.alloc);
    for place in 0..registrar.user_count() {
        if let Some((_, standing)) = registrar.user(place) {
            standings.push(standing)?;
        }
    }
    Ok(standings)
}

/// Logs the users whose state a kept command changed after the users file: some by name, and if there are more, their number.
fn tell_differing<'r, J: Naming, H: Host>(
    run: &Run<'r, '_, H>,
    registrar: &Registrar<J, &'r H, &'r Global>,
    file: &[Standing],
) {
    let mut differing = 0usize;
    for (place, standing) in file.iter().enumerate() {
        if let Some((user, now)) = registrar.user(place) {
            if now != *standing {
                differing = differing.saturating_add(1);
                if differing <= MOST_DIFFERING {
                    tell_winning(run.rt, user.text());
                }
            }
        }
    }
    if differing > MOST_DIFFERING {
        tell_many_winning(run.rt, differing);
    }
}

/// Logs that a kept command changed this user after the users file.
fn tell_winning<R: Log>(rt: &R, user: &str) {
    warn!(rt; user; "a kept command wins over the users file until RELOAD, a suspension until RELOAD ALL");
}

/// Logs that kept commands changed this number of users after the users file.
fn tell_many_winning<R: Log>(rt: &R, users: usize) {
    warn!(rt; users; "kept commands win over the users file until RELOAD, suspensions until RELOAD ALL");
}

/// Publishes the users of the rehearsal.
fn publish_rehearsal<'r, 'o, J: Naming, H: Files + Wait>(
    run: &Run<'r, 'o, H>,
    registrar: &mut Registrar<J, &'r H, &'r Global>,
) -> Result<Notice<J>, FileFault<'o>> {
    let mut source = Device::new(USERS.as_bytes());
    match load_users(*run.alloc, &mut source, registrar, MOST_FILE_READS) {
        Ok(notice) => Ok(notice),
        Err(_) => Err(FileFault::Memory),
    }
}

/// Publishes the users that the folder of the log keeps. It logs those whose state that changes, and how many users there are.
///
/// # Errors
///
/// The file of the folder cannot be read, a line of it is no command, or there is no memory.
pub fn publish_kept<'r, 'o, J: Naming, H: Host>(
    run: &Run<'r, 'o, H>,
    registrar: &mut Registrar<J, &'r H, &'r Global>,
    paths: &Paths<'o>,
) -> Result<Notice<J>, FileFault<'o>> {
    let Ok(file) = standings(run, registrar) else {
        return Err(FileFault::Memory);
    };
    match load_file(run, registrar, &paths.users) {
        Ok(notice) => {
            tell_differing(run, registrar, &file);
            tell_users(run, registrar);
            Ok(notice)
        }
        Err(LoadFault::Memory) => Err(FileFault::Memory),
        Err(fault) => Err(refused(run.rt, paths, &paths.users, &fault)),
    }
}

/// Publishes the users of the file of this path.
fn load_file<'r, J: Naming, H: Host>(
    run: &Run<'r, '_, H>,
    registrar: &mut Registrar<J, &'r H, &'r Global>,
    path: &str,
) -> Result<Notice<J>, LoadFault> {
    let Ok(file) = open(run.rt, path) else {
        return Err(LoadFault::Read);
    };
    load_users(
        *run.alloc,
        &mut Device::new(file),
        registrar,
        MOST_FILE_READS,
    )
}
