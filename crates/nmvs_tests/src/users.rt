//! The row of users: what two windows show of an enrolment, a suspension and a second enrolment.
ghost use Rattle.std.specs.Prelude.{◌≡◌};
ghost use Rattle.nmvs_directory.specs.Directory.{directory_book};

use nmvs_directory::{Directory, Look, Naming, Registrar, Window};
use nmvs_identifier::Name;
use nmvs_rules::{Actor, Enrolment, Role};
use std::alloc::Global;
use std::marker::Brand;
use std::process::Abort;
use std::rt::HostRuntime;
use std::sync::Wait;

fn name(rt: &impl Abort, text: &str) -> Name {
    Name::read(text).expect(rt, "a name")
}

fn pharmacy(rt: &impl Abort) -> Enrolment {
    Enrolment {
        actor: Actor {
            role: Role::Pharmacy,
            authorisation: name(rt, "PH-1"),
            premises: name(rt, "P1"),
        },
        until: None,
        codes: None,
    }
}

fn enrol<J: Naming, R: Wait + Abort>(rt: &R, registrar: &mut Registrar<J, &R, Global>) {
    let (user, enrolment) = (name(rt, "ph1"), pharmacy(rt));
    registrar
        .changes
        .enrol(user, enrolment)
        .expect(rt, "memory");
}

fn suspend<J: Naming, R: Wait + Abort>(rt: &R, registrar: &mut Registrar<J, &R, Global>) {
    let user = name(rt, "ph1");
    registrar.changes.suspend(user).expect(rt, "memory");
}

/// The window shows this of ph1, and nobody by another name.
fn shows<J: Naming>(rt: &impl Abort, window: &mut Window<J, Global>, look: Look) {
    assert!(rt; window.look(&name(rt, "ph1")) == look);
    assert!(rt; window.look(&name(rt, "zed")) == Look::Nobody);
}

/// Publishes what is pending, and lets the window learn of it. Then it shows this of ph1.
fn tells<J: Naming, R: Wait + Abort>(
    rt: &R,
    registrar: &mut Registrar<J, &R, Global>,
    window: &mut Window<J, Global>,
    look: Look,
) {
    let notice = registrar.publish().expect(rt, "memory");
    window.learn(&notice);
    shows(rt, window, look);
}

/// A publication of no change changes no look.
fn shows_changes<J: Naming, R: Wait + Abort>(
    rt: &R,
    registrar: &mut Registrar<J, &R, Global>,
    window: &mut Window<J, Global>,
) {
    enrol(rt, registrar);
    tells(rt, registrar, window, Look::Known(pharmacy(rt)));
    suspend(rt, registrar);
    tells(rt, registrar, window, Look::Suspended);
    tells(rt, registrar, window, Look::Suspended);
    enrol(rt, registrar);
    tells(rt, registrar, window, Look::Known(pharmacy(rt)));
}

fn changes_are_shown<J: Naming, R: Wait + Abort + Sync>(rt: &R, alloc: Global, directory: Directory)
    requires { directory_book directory ≡ J.book }
{
    let (mut registrar, mut windows) = directory.open::<J, _, _>(rt, alloc, 2).expect(rt, "memory");
    for window in windows.iter_mut() {
        shows_changes(rt, &mut registrar, window);
    }
    registrar.close();
}

#[test]
fn windows_show_what_was_published(rt: HostRuntime) {
    changes_are_shown::<Brand, _>(&rt, rt.alloc(), Directory::new());
}
