//! The making of a directory.
ghost use Rattle.std.specs.Prelude.{◌≡◌, ◌≤◌, [], IfOk, All, vec_len};
ghost use Rattle.nmvs_directory.specs.Registrar.{published, pending};
ghost use Rattle.nmvs_directory.specs.Window.{IsFresh};

use crate::history::{History, UnnamedHistory};
use crate::users::Users;
use crate::{Naming, Registrar, Window};
use left_right::WriteHandle;
use std::alloc::Allocator;
use std::sync::Wait;
use thiserror::Error;

/// The reason why a directory was not opened.
#[derive(Clone, Copy, Debug, Error)]
pub enum DirectoryFault {
    #[error("there is no memory for the directory")]
    Memory,
    /// A window's place takes no memory and there is one for each, so no run has met this; no clause excludes it.
    #[error("a window was refused its place")]
    Window,
}

/// The most windows of a directory, because a publication visits the place of each (own).
pub const MOST_WINDOWS: usize = 8;

/// An empty directory that has no name yet. Its name is picked with `Brand` where `open` is called.
#[derive(Drop)]
pub struct Directory {
    opened: UnnamedHistory,
}

impl Directory {
    ghost use Rattle.nmvs_directory.specs.Directory.{directory_book};

    /// A new directory. It takes no memory, because it has no allocator.
    pub fn new() -> Directory {
        Directory {
            opened: UnnamedHistory::new(),
        }
    }

    /// Gives the directory its name, its registrar and its windows, 1 to 8 of them.
    ///
    /// # Errors
    ///
    /// `Memory` if there is no memory for them, and `Window` if a window was refused its place.
    pub fn open<J: Naming, R: Wait + Drop, A: Allocator + Copy>(
        self,
        rt: R,
        alloc: A,
        windows: usize,
    ) -> Result<(Registrar<J, R, A>, Vec<Window<J, A>, A>), DirectoryFault>
        requires name { directory_book self ≡ J.book }
        requires windows { (1 ≤ windows) × (windows ≤ MOST_WINDOWS) }
        ensures published { IfOk result (λ opened. published opened.0 ≡ []) }
        ensures pending { IfOk result (λ opened. pending opened.0 ≡ []) }
        ensures windows { IfOk result (λ opened. vec_len opened.1 ≡ windows) }
        ensures fresh { IfOk result (λ opened. All IsFresh opened.1.items) }
    {
        let (tail, history) = self.opened.with_name::<J>();
        let first = Users::new(alloc, history.again());
        let second = Users::new(alloc, history.again());
        let Ok(writer) = WriteHandle::new(alloc, rt, first, second, windows) else {
            return Err(DirectoryFault::Memory);
        };
        let made = windows_over(&writer, &history, alloc, windows)?;
        Ok((Registrar::new(tail, alloc, writer, history), made))
    }
}

/// As many windows as `count`, which have seen nothing.
fn windows_over<J: Naming, R: Wait + Drop, A: Allocator + Copy>(
    writer: &WriteHandle<Users<J, A>, History<J>, R, A>,
    history: &History<J>,
    alloc: A,
    count: usize,
) -> Result<Vec<Window<J, A>, A>, DirectoryFault>
    requires { history.now ≡ [] }
    ensures count { IfOk result (λ windows. vec_len windows ≡ count) }
    ensures fresh { IfOk result (λ windows. All IsFresh windows.items) }
{
    let mut windows = Vec::with_capacity(alloc, count).map_err(|_| DirectoryFault::Memory)?;
    for _made in 0..count {
        let handle = writer.handle().map_err(|_| DirectoryFault::Window)?;
        windows
            .push(Window::new(handle, history.again()))
            .map_err(|_| DirectoryFault::Memory)?;
    }
    Ok(windows)
}
