//! Keyboards that alter what a scanner types.
ghost use Rattle.std.specs.Prelude.{◌≡◌, map};
ghost use Rattle.nmvs_cases.specs.Hints as hints;

use arrayvec::ArrayVec;
use nmvs_identifier::{Pack, Serial};
use std::str;

/// The most characters of a serial number.
const LONGEST: usize = 20;

/// How a keyboard alters letters.
#[derive(Clone, Copy)]
pub enum Keyboard {
    /// Caps Lock is on: small letters and capitals change places.
    CapsLock,
    /// The layout is German or the like, and the scanner's is not: y and z change places.
    ExchangesYAndZ,
}

/// The pack whose serial number such a keyboard makes of this one's. The same keyboard makes the first of it again.
pub fn typed_pack(keyboard: Keyboard, pack: &Pack) -> Pack
    ensures { result ≡ hints.typed_pack keyboard pack.now }
{
    Pack {
        code: pack.code,
        serial: typed_serial(keyboard, &pack.serial),
    }
}

fn typed_serial(keyboard: Keyboard, serial: &Serial) -> Serial
    ensures { result ≡ hints.typed_serial keyboard serial.now }
{
    let mut typed = ArrayVec::<u8, LONGEST>::new();
    let mut rest = serial.text().as_bytes();
    while let [byte, later @ ..] = rest {
        typed.push(typed_byte(keyboard, *byte));
        rest = later;
    }
    let text = str::from_utf8(typed.as_slice()).unwrap();
    Serial::read(text).unwrap()
}

fn typed_byte(keyboard: Keyboard, byte: u8) -> u8
    ensures { result ≡ hints.typed_byte keyboard byte }
{
    match keyboard {
        Keyboard::CapsLock => in_other_case(byte),
        Keyboard::ExchangesYAndZ => with_y_for_z(byte),
    }
}

fn in_other_case(byte: u8) -> u8
    ensures { result ≡ hints.in_other_case byte }
{
    if byte.is_ascii_lowercase() {
        byte - 32
    } else if byte.is_ascii_uppercase() {
        byte + 32
    } else {
        byte
    }
}

fn with_y_for_z(byte: u8) -> u8
    ensures { result ≡ hints.with_y_for_z byte }
{
    match byte {
        b'y' => b'z',
        b'z' => b'y',
        b'Y' => b'Z',
        b'Z' => b'Y',
        _ => byte,
    }
}
