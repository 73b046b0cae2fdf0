//! Texts and rows of HTML.
ghost use Rattle.std.specs.Prelude.{◌≡◌, ◌++◌, map, true, OnOk};
ghost use Rattle.std.specs.List.{flat_map, list_all};
ghost use Rattle.nmvs_inspect.specs.Html as html;

use std::alloc::{AllocError, Global};

/// Puts a text of HTML at the end of a block.
pub(crate) fn append_html(block: &mut Vec<u8>, text: &str) -> Result<(), AllocError>
    ensures { OnOk result (block.new.items ≡ block.old.items ++ text.now) }
{
    block.extend_from_slice(text.as_bytes())
}

/// Puts a text at the end of a block, escaped as HTML.
#[tactic(auto, using(crate::proofs::HtmlLemmas::escaped_plain))]
pub(crate) fn append_escaped(block: &mut Vec<u8>, text: &[u8]) -> Result<(), AllocError>
    ensures text { OnOk result (block.new.items ≡ block.old.items ++ html.escaped text.now) }
    ensures plain { list_all html.is_plain (html.escaped text.now) ≡ true }
{
    for byte in text {
        append_byte(block, *byte)?;
    }
    Ok(())
}

fn append_byte(block: &mut Vec<u8>, byte: u8) -> Result<(), AllocError>
    ensures { OnOk result (block.new.items ≡ block.old.items ++ html.escape byte) }
{
    match byte {
        b'"' => block.extend_from_slice(b"&quot;"),
        b'&' => block.extend_from_slice(b"&amp;"),
        b'<' => block.extend_from_slice(b"&lt;"),
        b'>' => block.extend_from_slice(b"&gt;"),
        _ => Ok(block.push(byte)?),
    }
}

/// Puts a row at the end of a block: texts, and then numbers.
pub(crate) fn append_html_row(
    alloc: Global,
    block: &mut Vec<u8>,
    texts: &[&[u8]],
    numbers: &[u64],
) -> Result<(), AllocError>
    ensures { OnOk result (block.new.items ≡ block.old.items ++ html.html_row (map (λ t. t.now) texts.now) numbers.now) }
{
    block.extend_from_slice(b"<tr>")?;
    append_texts(block, texts)?;
    append_numbers(alloc, block, numbers)?;
    block.extend_from_slice(b"</tr>\n")
}

fn append_texts(block: &mut Vec<u8>, texts: &[&[u8]]) -> Result<(), AllocError>
    ensures { OnOk result (block.new.items ≡ block.old.items ++ flat_map html.cell (map (λ t. t.now) texts.now)) }
{
    for i in 0..texts.len() {
        append_text(block, texts[i])?;
    }
    Ok(())
}

fn append_text(block: &mut Vec<u8>, text: &[u8]) -> Result<(), AllocError>
    ensures { OnOk result (block.new.items ≡ block.old.items ++ html.cell text.now) }
{
    block.extend_from_slice(b"<td>")?;
    append_escaped(block, text)?;
    block.extend_from_slice(b"</td>")
}

fn append_numbers(alloc: Global, block: &mut Vec<u8>, numbers: &[u64]) -> Result<(), AllocError>
    ensures { OnOk result (block.new.items ≡ block.old.items ++ flat_map html.number_cell numbers.now) }
{
    for number in numbers {
        append_number(alloc, block, *number)?;
    }
    Ok(())
}

fn append_number(alloc: Global, block: &mut Vec<u8>, number: u64) -> Result<(), AllocError>
    ensures { OnOk result (block.new.items ≡ block.old.items ++ html.number_cell number) }
{
    let cell = format!(in alloc; "<td class=n>{number}</td>")?;
    block.extend_from_slice(cell.as_bytes())
}
