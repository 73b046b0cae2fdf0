//! The values and texts that rows name.
use nmvs_identifier::{Codes, Expiry, ExpiryFault, Moment, Name, ProductCode, ProductCodeFault};
use nmvs_messages::{Command, CommandFault, read_command};
use nmvs_rules::{Actor, Enrolment, Role};
use std::process::Abort;
use std::rt::HostRuntime;

#[test]
fn product_codes_are_read(rt: HostRuntime) {
    for &(text, fault) in &[
        ("0950600013435", Some(ProductCodeFault::Length)),
        ("0950600013435x", Some(ProductCodeFault::Digit)),
        ("09506000134353", Some(ProductCodeFault::Check)),
        ("09506000134352", None),
    ] {
        assert!(rt; ProductCode::read(text).err() == fault, "{text}");
    }
}

/// The day of an expiry date.
fn day_of(text: &str) -> Result<i32, ExpiryFault> {
    match Expiry::read(text) {
        Ok(expiry) => Ok(expiry.day()),
        Err(fault) => Err(fault),
    }
}

#[test]
fn expiry_dates_have_days(rt: HostRuntime) {
    for &(text, day) in &[
        ("28022", Err(ExpiryFault::Length)),
        ("2802a0", Err(ExpiryFault::Digit)),
        ("281300", Err(ExpiryFault::Month)),
        ("270229", Err(ExpiryFault::Day)),
        ("280200", Ok(21_243)),
        ("280229", Ok(21_243)),
        ("000100", Ok(10_987)),
        ("991231", Ok(47_481)),
    ] {
        assert!(rt; day_of(text) == day, "{text}");
    }
}

#[test]
fn moments_are_of_this_century(rt: HostRuntime) {
    for &(seconds, day) in &[
        (4_102_444_800, None),
        (-1, None),
        (1_767_225_600, Some(20_454)),
    ] {
        let moment = Moment::new(seconds);
        assert!(rt; moment.map(|moment| moment.day()) == day, "{seconds}");
    }
}

fn name(rt: &impl Abort, text: &str) -> Name {
    Name::read(text).expect(rt, "a name")
}

#[test]
fn commands_are_read(rt: HostRuntime) {
    let actor = Actor {
        role: Role::Pharmacy,
        authorisation: name(&rt, "PH-9"),
        premises: name(&rt, "P9"),
    };
    let (until, codes) = (Expiry::read("271231").ok(), Codes::read("9506000"));
    let enrolment = Enrolment {
        actor,
        until,
        codes,
    };
    let enrol = Command::Enrol(name(&rt, "ph9"), enrolment);
    for &(line, wanted) in &[
        (
            "ENROL ph9 PHARMACY PH-9 P9 UNTIL 271231 CODES 9506000",
            Ok(enrol),
        ),
        (
            "ENROL ph9 PHARMACY PH-9 P9 CODES 9506000 UNTIL 271231",
            Err(CommandFault::Fields),
        ),
        ("ENROL ph9 DOCTOR PH-9 P9", Err(CommandFault::Role)),
        ("SUSPEND", Err(CommandFault::Fields)),
        ("enrol x", Err(CommandFault::Word)),
        ("SUSPEND -x", Err(CommandFault::User)),
    ] {
        assert!(rt; read_command(line.as_bytes()) == wanted, "{line}");
    }
}
