//! The page of metrics.
ghost use Rattle.std.specs.Prelude.{◌≡◌, ◌++◌, IfOk, OnOk, map, string_bytes};
ghost use Rattle.std.specs.List.{flat_map};
ghost use Rattle.nmvs_metrics.specs.Families.{row_of};
ghost use Rattle.nmvs_exposition.specs.Page as specs;

use nmvs_metrics::{Bucket, Family, Histogram, Label, Sample, Values, families};
use std::alloc::{AllocError, Global};

/// The values of the families, in their order, as a page in the text format of Prometheus, version 0.0.4. A family without
/// values is left out.
///
/// # Errors
///
/// There is no memory for the text.
#[tactic(auto, unfolding(crate::specs::Page::page))]
pub fn encode(alloc: Global, values: &[Option<Values>]) -> Result<String, AllocError>
    ensures { IfOk result (λ text. string_bytes text ≡ specs.page values.now) }
{
    let mut text = String::new(alloc);
    append_samples(alloc, families(), values, &mut text)?;
    Ok(text)
}

/// Puts the samples of each family at the end of a text, as far as there are values.
fn append_samples(
    alloc: Global,
    families: &[Family],
    values: &[Option<Values>],
    text: &mut String,
) -> Result<(), AllocError>
    ensures { OnOk result (string_bytes text.new ≡ string_bytes text.old ++ specs.samples (map row_of families.now) values.now) }
{
    let (mut families, mut values) = (families, values);
    while let [family, later @ ..] = families {
        let [value, others @ ..] = values else {
            return Ok(());
        };
        let part = family_text(alloc, family, value)?;
        text.push_str(&part)?;
        families = later;
        values = others;
    }
    Ok(())
}

/// The samples of a family, with their head, if there are values.
fn family_text(
    alloc: Global,
    family: &Family,
    values: &Option<Values>,
) -> Result<String, AllocError>
    ensures { IfOk result (λ text. string_bytes text ≡ specs.family_text (row_of family.now) values.now) }
{
    match values {
        Some(values) => {
            let lines = lines_of(alloc, family, values)?;
            let Family {
                name,
                kind,
                help,
                ..
            } = family;
            format!(in alloc; "# HELP {name} {help}\n# TYPE {name} {kind}\n{lines}")
        }
        None => Ok(String::new(alloc)),
    }
}

/// The lines of a family's samples.
fn lines_of(alloc: Global, family: &Family, values: &Values) -> Result<String, AllocError>
    ensures { IfOk result (λ text. string_bytes text ≡ specs.lines_of (row_of family.now) values.now) }
{
    let name = family.name;
    match values {
        Values::One(value) => format!(in alloc; "{name} {value}\n"),
        Values::Time(nanoseconds) => format!(in alloc; "{name} {nanoseconds}e-9\n"),
        Values::Labelled(samples) => labelled_lines(alloc, family, samples),
        Values::Histogram(times) => histogram_lines(alloc, name, times),
    }
}

fn labelled_lines(alloc: Global, family: &Family, samples: &[Sample]) -> Result<String, AllocError>
    ensures { IfOk result (λ text. string_bytes text ≡ flat_map (specs.labelled_line (row_of family.now)) samples.now) }
{
    let mut text = String::new(alloc);
    for sample in samples {
        let line = labelled_line(alloc, family, sample)?;
        text.push_str(&line)?;
    }
    Ok(text)
}

fn labelled_line(alloc: Global, family: &Family, sample: &Sample) -> Result<String, AllocError>
    ensures { IfOk result (λ line. string_bytes line ≡ specs.labelled_line (row_of family.now) sample.now) }
{
    let Family {
        name,
        labels: (label, second),
        ..
    } = family;
    let value = sample.value;
    match sample.label {
        Label::Word(word) => format!(in alloc; "{name}{{{label}=\"{word}\"}} {value}\n"),
        Label::Number(number) => format!(in alloc; "{name}{{{label}=\"{number}\"}} {value}\n"),
        Label::Words(word, other) => {
            format!(in alloc; "{name}{{{label}=\"{word}\",{second}=\"{other}\"}} {value}\n")
        }
    }
}

/// A histogram of one name: its buckets, the seconds of all times, and their number.
fn histogram_lines(alloc: Global, name: &str, times: &Histogram) -> Result<String, AllocError>
    ensures { IfOk result (λ text. string_bytes text ≡ specs.histogram_lines name.now times.now) }
{
    let nanoseconds = times.nanoseconds;
    let (buckets, count) = bucket_lines(alloc, name, &times.buckets)?;
    format!(in alloc; "{buckets}{name}_sum {nanoseconds}e-9\n{name}_count {count}\n")
}

/// The lines of the buckets, each with the count up to it, and the count of all.
fn bucket_lines(alloc: Global, name: &str, buckets: &[Bucket]) -> Result<(String, u64), AllocError>
    ensures lines { IfOk result (λ made. string_bytes made.0 ≡ specs.bucket_lines name.now 0 buckets.now) }
    ensures count { IfOk result (λ made. made.1 ≡ specs.bucket_count 0 buckets.now) }
{
    let mut text = String::new(alloc);
    let mut count = 0u64;
    let mut rest = buckets;
    while let [bucket, later @ ..] = rest {
        count = count.saturating_add(bucket.count);
        let line = bucket_line(alloc, name, bucket.bound, count)?;
        text.push_str(&line)?;
        rest = later;
    }
    Ok((text, count))
}

#[tactic(auto, unfolding(crate::specs::Page::bucket_line))]
fn bucket_line(alloc: Global, name: &str, bound: &str, count: u64) -> Result<String, AllocError>
    ensures { IfOk result (λ line. string_bytes line ≡ specs.bucket_line name.now bound.now count) }
{
    format!(in alloc; "{name}_bucket{{le=\"{bound}\"}} {count}\n")
}
