//! Texts of JSON.
ghost use Rattle.std.specs.Prelude.{◌≡◌, ◌++◌, OnOk, decimal, map};
ghost use Rattle.std.specs.List.{flat_map};
ghost use Rattle.nmvs_line.specs.Line.{escaped};
ghost use Rattle.nmvs_alerts.specs.Json as json;

use itoa::Buffer;
use std::alloc::AllocError;

/// Puts a text at the end of a block.
pub(crate) fn append(block: &mut Vec<u8>, text: &str) -> Result<(), AllocError>
    ensures { OnOk result (block.new.items ≡ block.old.items ++ text.now) }
{
    block.extend_from_slice(text.as_bytes())
}

/// Puts the characters of a string at the end of a block. A quotation mark follows a backslash, and any other that an identifier can
/// have stands for itself.
fn append_escaped(block: &mut Vec<u8>, text: &str) -> Result<(), AllocError>
    ensures { OnOk result (block.new.items ≡ block.old.items ++ flat_map escaped text.now) }
{
    for byte in text.as_bytes() {
        append_byte(block, *byte)?;
    }
    Ok(())
}

fn append_byte(block: &mut Vec<u8>, byte: u8) -> Result<(), AllocError>
    ensures { OnOk result (block.new.items ≡ block.old.items ++ escaped byte) }
{
    if byte == b'"' {
        block.push(b'\\')?;
    }
    Ok(block.push(byte)?)
}

/// Puts a member that is a string at the end of a block, behind a comma.
#[tactic(auto, unfolding(crate::specs::Json::text_member))]
pub(crate) fn append_text(block: &mut Vec<u8>, name: &str, text: &str) -> Result<(), AllocError>
    ensures { OnOk result (block.new.items ≡ block.old.items ++ json.text_member name.now text.now) }
{
    append_name(block, name)?;
    append(block, "\"")?;
    append_escaped(block, text)?;
    append(block, "\"")
}

/// Puts a member that is a number at the end of a block, behind a comma.
#[tactic(auto, unfolding(crate::specs::Json::number_member))]
pub(crate) fn append_number(block: &mut Vec<u8>, name: &str, number: u64) -> Result<(), AllocError>
    ensures { OnOk result (block.new.items ≡ block.old.items ++ json.number_member name.now number) }
{
    append_name(block, name)?;
    append_decimal(block, number)
}

/// Puts the decimals of a number at the end of a block.
pub(crate) fn append_decimal(block: &mut Vec<u8>, number: u64) -> Result<(), AllocError>
    ensures { OnOk result (block.new.items ≡ block.old.items ++ decimal number) }
{
    let mut buffer = Buffer::new();
    append(block, buffer.format(number))
}

/// Puts a comma and the name of a member at the end of a block.
#[tactic(auto, unfolding(crate::specs::Json::named))]
pub(crate) fn append_name(block: &mut Vec<u8>, name: &str) -> Result<(), AllocError>
    ensures { OnOk result (block.new.items ≡ block.old.items ++ json.named name.now) }
{
    append(block, ",\"")?;
    append(block, name)?;
    append(block, "\":")
}

/// Puts texts at the end of a block, with commas between them.
pub(crate) fn append_joined(block: &mut Vec<u8>, texts: &[&str]) -> Result<(), AllocError>
    ensures { OnOk result (block.new.items ≡ block.old.items ++ json.joined (λ text. text) (map (λ text. text.now) texts.now)) }
{
    let [first, others @ ..] = texts else {
        return Ok(());
    };
    append(block, first)?;
    append_all_led(block, others)
}

fn append_all_led(block: &mut Vec<u8>, others: &[&str]) -> Result<(), AllocError>
    ensures { OnOk result (block.new.items ≡ block.old.items ++ flat_map (λ text. json.led (λ bytes. bytes) text.now) others.now) }
{
    for other in others {
        append_led(block, other)?;
    }
    Ok(())
}

fn append_led(block: &mut Vec<u8>, text: &str) -> Result<(), AllocError>
    ensures { OnOk result (block.new.items ≡ block.old.items ++ json.led (λ bytes. bytes) text.now) }
{
    append(block, ",")?;
    append(block, text)
}
