//! The lines of users.
ghost use Rattle.std.specs.Prelude.{◌≡◌, [], ◌∷◌, None, map, true, false, IsTrue, Some, IfOk, IfErr, MatchResult, string_bytes};
ghost use Rattle.std.specs.Result.{result_err};
ghost use Rattle.nmvs_identifier.specs.Name.{is_name};
ghost use Rattle.nmvs_identifier.specs.ProductCode.{is_product_code};
ghost use Rattle.nmvs_identifier.specs.Serial.{is_serial};
ghost use Rattle.nmvs_identifier.specs.Batch.{is_batch};
ghost use Rattle.nmvs_identifier.specs.Expiry.{is_expiry};
ghost use Rattle.nmvs_words.specs.Kinds.{kind_named, kind_word};
ghost use Rattle.nmvs_messages.specs.Fields.{line_of_fields};
ghost use Rattle.nmvs_protocol.specs.Lines.{ReadsLine, fields as line_fields, line_tag, byte_fault as fault_of_byte, asked_fields, report_word, line_text as text_of_line, is_line, is_asked, asked_line_fault, fields_fault, asked_fault, question_fault, pack_fault, texts_fault, grammars, report_grammars};

use crate::tags::cut_tag;
use nmvs_identifier::{Batch, Expiry, Name, Pack, ProductCode, Serial};
use nmvs_messages::{
    Ask, Asked, Fields, LONGEST_LINE, Line, LineFault, Unread, fill_fields, tag_text,
};
use nmvs_rules::{BatchQuestion, PackQuestion, Printed, Question};
use nmvs_words::QuestionKind;
use std::alloc::{AllocError, Allocator};

/// Reads a line, given without its LF.
///
/// # Errors
///
/// The first fault of the line, and its tag.
#[tactic(auto, unfolding(crate::specs::Lines::first_fault))]
pub fn read_line(bytes: &[u8]) -> Result<Line, Unread>
    ensures { ReadsLine bytes.now result }
{
    let Some(cut) = cut_tag(bytes) else {
        let fault = byte_fault(bytes);
        let mut found = Fields::new();
        return match fill_fields(&mut found, bytes, LineFault::Long, fault, LineFault::Fields) {
            Ok(()) => read_fields(&found),
            Err(fault) => Err(Unread { tag: None, fault }),
        };
    };
    let tag = Some(cut.0);
    match read_tagged(bytes.len(), cut.1) {
        Ok(asked) => Ok(Line::Ask(Ask { tag, asked })),
        Err(fault) => Err(Unread { tag, fault }),
    }
}

/// Reads the ask after the tag of a line that has this number of bytes.
fn read_tagged(count: usize, behind: &[u8]) -> Result<Asked, LineFault>
    ensures text { IfOk result (λ asked. behind.now ≡ line_of_fields (asked_fields asked)) }
    ensures valid { IfOk result (λ asked. IsTrue (is_asked asked)) }
    ensures fault { result_err result ≡ asked_line_fault count behind.now }
{
    if count > LONGEST_LINE {
        return Err(LineFault::Long);
    }
    let fault = byte_fault(behind);
    let mut found = Fields::new();
    fill_fields(
        &mut found,
        behind,
        LineFault::Long,
        fault,
        LineFault::Fields,
    )?;
    read_asked(&found)
}

/// The fault of a line with a byte that is not printable. A line that ends with CR LF has a fault of its own (own).
fn byte_fault(line: &[u8]) -> LineFault
    ensures { result ≡ fault_of_byte line.now }
{
    match line {
        [.., b'\r'] => LineFault::Return,
        _ => LineFault::Bytes,
    }
}

/// The line without a tag that has these fields.
fn read_fields(fields: &[&str]) -> Result<Line, Unread>
    ensures untagged { IfOk result (λ line. line_tag line ≡ None) }
    ensures fields { IfOk result (λ line. line_fields line ≡ map (λ f. f.now) fields.now) }
    ensures valid { IfOk result (λ line. IsTrue (is_line line)) }
    ensures fault { MatchResult result (λ _. fields_fault (map (λ f. f.now) fields.now) ≡ None)
        (λ unread. (fields_fault (map (λ f. f.now) fields.now) ≡ Some unread.fault) × (unread.tag ≡ None)) }
{
    match fields {
        [word] => match *word {
            "PING" => Ok(Line::Ping),
            "VERSION" => Ok(Line::Version),
            "HELP" => Ok(Line::Help),
            "QUIT" => Ok(Line::Quit),
            _ => Err(Unread {
                tag: None,
                fault: LineFault::Fields,
            }),
        },
        _ => match read_asked(fields) {
            Ok(asked) => Ok(Line::Ask(Ask { tag: None, asked })),
            Err(fault) => Err(Unread { tag: None, fault }),
        },
    }
}

/// The ask of these fields.
fn read_asked(fields: &[&str]) -> Result<Asked, LineFault>
    ensures fields { IfOk result (λ asked. asked_fields asked ≡ map (λ f. f.now) fields.now) }
    ensures valid { IfOk result (λ asked. IsTrue (is_asked asked)) }
    ensures fault { result_err result ≡ asked_fault (map (λ f. f.now) fields.now) }
{
    match fields {
        [user, word, texts @ ..] => match *word {
            "REPORT" => read_report(user, texts),
            _ => read_question(user, word, texts),
        },
        _ => Err(LineFault::Fields),
    }
}

/// The question of a user with this word and the texts after it.
fn read_question(user: &str, word: &str, texts: &[&str]) -> Result<Asked, LineFault>
    ensures fields { IfOk result (λ asked.
        asked_fields asked ≡ user.now ∷ word.now ∷ map (λ t. t.now) texts.now) }
    ensures valid { IfOk result (λ asked. IsTrue (is_asked asked)) }
    ensures fault { result_err result
        ≡ question_fault user.now (kind_named word.now) (map (λ t. t.now) texts.now) }
{
    let kind = QuestionKind::named(word).ok_or(LineFault::Word)?;
    match (kind, texts) {
        (QuestionKind::Upload, [code, serial, batch, expiry]) => {
            read_upload(user, code, serial, batch, expiry)
        }
        (QuestionKind::OfPack(asked), [code, serial]) => read_of_pack(asked, user, code, serial),
        (QuestionKind::OfPack(asked), [code, serial, word, batch, expiry]) => {
            read_conditional(asked, user, code, serial, word, batch, expiry)
        }
        (QuestionKind::OfBatch(asked), [code, batch]) => read_of_batch(asked, user, code, batch),
        _ => Err(LineFault::Fields),
    }
}

/// The report that a user asks for with these texts after its word.
fn read_report(user: &str, texts: &[&str]) -> Result<Asked, LineFault>
    ensures fields { IfOk result (λ asked.
        asked_fields asked ≡ user.now ∷ report_word ∷ map (λ t. t.now) texts.now) }
    ensures valid { IfOk result (λ asked. IsTrue (is_asked asked)) }
    ensures fault { result_err result
        ≡ texts_fault report_grammars user.now (map (λ t. t.now) texts.now) }
{
    let [code] = texts else {
        return Err(LineFault::Fields);
    };
    let user = read_user(user)?;
    let code = read_code(code)?;
    Ok(Asked::Report(user, code))
}

fn read_upload(
    user: &str,
    code: &str,
    serial: &str,
    batch: &str,
    expiry: &str,
) -> Result<Asked, LineFault>
    ensures fields { IfOk result (λ asked. asked_fields asked
        ≡ user.now ∷ kind_word QuestionKind.Upload ∷ code.now ∷ serial.now ∷ batch.now ∷ expiry.now ∷ []) }
    ensures valid { IfOk result (λ asked. IsTrue (is_asked asked)) }
    ensures fault { result_err result ≡ texts_fault (grammars QuestionKind.Upload) user.now
        (code.now ∷ serial.now ∷ batch.now ∷ expiry.now ∷ []) }
{
    let user = read_user(user)?;
    let code = read_code(code)?;
    let serial = read_serial(serial)?;
    let batch = read_batch(batch)?;
    let expiry = read_expiry(expiry)?;
    let pack = Pack { code, serial };
    Ok(Asked::Question(
        user,
        Question::Upload {
            pack,
            batch,
            expiry,
        },
    ))
}

fn read_of_pack(
    asked: PackQuestion,
    user: &str,
    code: &str,
    serial: &str,
) -> Result<Asked, LineFault>
    ensures fields { IfOk result (λ ask. asked_fields ask
        ≡ user.now ∷ kind_word (QuestionKind.OfPack asked) ∷ code.now ∷ serial.now ∷ []) }
    ensures valid { IfOk result (λ ask. IsTrue (is_asked ask)) }
    ensures fault { result_err result ≡ texts_fault (grammars (QuestionKind.OfPack asked)) user.now
        (code.now ∷ serial.now ∷ []) }
{
    let user = read_user(user)?;
    let code = read_code(code)?;
    let serial = read_serial(serial)?;
    let pack = Pack { code, serial };
    Ok(Asked::Question(user, Question::OfPack(asked, pack)))
}

/// The question about a pack that is put if the batch and the expiry after `IF` are those of its upload.
fn read_conditional(
    asked: PackQuestion,
    user: &str,
    code: &str,
    serial: &str,
    word: &str,
    batch: &str,
    expiry: &str,
) -> Result<Asked, LineFault>
    ensures fields { IfOk result (λ ask. asked_fields ask
        ≡ user.now ∷ kind_word (QuestionKind.OfPack asked) ∷ code.now ∷ serial.now ∷ word.now ∷ batch.now ∷ expiry.now ∷ []) }
    ensures valid { IfOk result (λ ask. IsTrue (is_asked ask)) }
    ensures fault { result_err result ≡ pack_fault user.now
        (code.now ∷ serial.now ∷ word.now ∷ batch.now ∷ expiry.now ∷ []) }
{
    if word != "IF" {
        return Err(LineFault::Fields);
    }
    let user = read_user(user)?;
    let code = read_code(code)?;
    let serial = read_serial(serial)?;
    let batch = read_batch(batch)?;
    let expiry = read_expiry(expiry)?;
    let pack = Pack { code, serial };
    Ok(Asked::Conditional(user, asked, pack, Printed { batch, expiry }))
}

fn read_of_batch(
    asked: BatchQuestion,
    user: &str,
    code: &str,
    batch: &str,
) -> Result<Asked, LineFault>
    ensures fields { IfOk result (λ ask. asked_fields ask
        ≡ user.now ∷ kind_word (QuestionKind.OfBatch asked) ∷ code.now ∷ batch.now ∷ []) }
    ensures valid { IfOk result (λ ask. IsTrue (is_asked ask)) }
    ensures fault { result_err result ≡ texts_fault (grammars (QuestionKind.OfBatch asked)) user.now
        (code.now ∷ batch.now ∷ []) }
{
    let user = read_user(user)?;
    let code = read_code(code)?;
    let batch = read_batch(batch)?;
    Ok(Asked::Question(user, Question::OfBatch(asked, code, batch)))
}

fn read_user(text: &str) -> Result<Name, LineFault>
    ensures read { IfOk result (λ user. (user.bytes ≡ text.now) × (is_name text.now ≡ true)) }
    ensures fault { IfErr result (λ fault. (fault ≡ LineFault.User) × (is_name text.now ≡ false)) }
{
    Name::read(text).or(Err(LineFault::User))
}

fn read_code(text: &str) -> Result<ProductCode, LineFault>
    ensures read { IfOk result (λ code. (code.bytes ≡ text.now) × (is_product_code text.now ≡ true)) }
    ensures fault { IfErr result (λ fault. (fault ≡ LineFault.Code) × (is_product_code text.now ≡ false)) }
{
    ProductCode::read(text).or(Err(LineFault::Code))
}

fn read_serial(text: &str) -> Result<Serial, LineFault>
    ensures read { IfOk result (λ serial. (serial.bytes ≡ text.now) × (is_serial text.now ≡ true)) }
    ensures fault { IfErr result (λ fault. (fault ≡ LineFault.Serial) × (is_serial text.now ≡ false)) }
{
    Serial::read(text).or(Err(LineFault::Serial))
}

fn read_batch(text: &str) -> Result<Batch, LineFault>
    ensures read { IfOk result (λ batch. (batch.bytes ≡ text.now) × (is_batch text.now ≡ true)) }
    ensures fault { IfErr result (λ fault. (fault ≡ LineFault.Batch) × (is_batch text.now ≡ false)) }
{
    Batch::read(text).or(Err(LineFault::Batch))
}

fn read_expiry(text: &str) -> Result<Expiry, LineFault>
    ensures read { IfOk result (λ expiry. (expiry.bytes ≡ text.now) × (is_expiry text.now ≡ true)) }
    ensures fault { IfErr result (λ fault. (fault ≡ LineFault.Expiry) × (is_expiry text.now ≡ false)) }
{
    Expiry::read(text).or(Err(LineFault::Expiry))
}

/// The text of a line, without LF.
///
/// # Errors
///
/// `AllocError` if there is no memory for the text.
pub fn line_text<A: Allocator>(alloc: A, line: &Line) -> Result<String<A>, AllocError>
    ensures line { IfOk result (λ text. string_bytes text ≡ text_of_line line.now) }
    ensures grammar { IsTrue (is_line line.now) }
{
    match line {
        Line::Ask(Ask { tag, asked }) => {
            let front = tag_text(tag);
            let mut text = asked_text(alloc, asked)?;
            text.insert_str(0, front.as_str())?;
            Ok(text)
        }
        Line::Ping => format!(in alloc; "PING"),
        Line::Version => format!(in alloc; "VERSION"),
        Line::Help => format!(in alloc; "HELP"),
        Line::Quit => format!(in alloc; "QUIT"),
    }
}

/// The text of an ask, without a tag.
fn asked_text<A: Allocator>(alloc: A, asked: &Asked) -> Result<String<A>, AllocError>
    ensures line { IfOk result (λ text. string_bytes text ≡ line_of_fields (asked_fields asked.now)) }
    ensures grammar { IsTrue (is_asked asked.now) }
{
    match asked {
        Asked::Question(user, question) => question_text(alloc, user, question),
        Asked::Conditional(user, kind, pack, printed) => {
            conditional_text(alloc, user, *kind, pack, printed)
        }
        Asked::Report(user, code) => format!(in alloc; "{} REPORT {}", user.text(), code.text()),
    }
}

fn question_text<A: Allocator>(
    alloc: A,
    user: &Name,
    question: &Question,
) -> Result<String<A>, AllocError>
    ensures line { IfOk result (λ text.
        string_bytes text ≡ line_of_fields (asked_fields (Asked.Question user.now question.now))) }
    ensures grammar { IsTrue (is_asked (Asked.Question user.now question.now)) }
{
    let user = user.text();
    let word = QuestionKind::of(question).word();
    let code = question.code();
    let code = code.text();
    match question {
        Question::Upload {
            pack,
            batch,
            expiry,
        } => {
            format!(in alloc;
                "{user} {word} {code} {} {} {}",
                pack.serial.text(),
                batch.text(),
                expiry.text()
            )
        }
        Question::OfPack(_, pack) => {
            format!(in alloc; "{user} {word} {code} {}", pack.serial.text())
        }
        Question::OfBatch(_, _, batch) => {
            format!(in alloc; "{user} {word} {code} {}", batch.text())
        }
    }
}

fn conditional_text<A: Allocator>(
    alloc: A,
    user: &Name,
    kind: PackQuestion,
    pack: &Pack,
    printed: &Printed,
) -> Result<String<A>, AllocError>
    ensures line { IfOk result (λ text. string_bytes text
        ≡ line_of_fields (asked_fields (Asked.Conditional user.now kind pack.now printed.now))) }
    ensures grammar { IsTrue (is_asked (Asked.Conditional user.now kind pack.now printed.now)) }
{
    let word = QuestionKind::OfPack(kind).word();
    format!(in alloc;
        "{} {word} {} {} IF {} {}",
        user.text(),
        pack.code.text(),
        pack.serial.text(),
        printed.batch.text(),
        printed.expiry.text()
    )
}
