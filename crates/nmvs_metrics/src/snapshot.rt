//! The counts of a server at one moment.
use crate::Metrics;
use crate::kinds::Rows;
use crate::registry::{CONFIRMED, Count, PerShard, Source, families};
use crate::times::empty;
use std::alloc::{AllocError, Global};
use std::time::Duration;

/// The values of a family at one moment.
#[derive(Drop)]
pub enum Values {
    /// One number, without a label.
    One(u64),
    /// A time of this number of nanoseconds, without a label.
    Time(u64),
    /// Numbers, each with a label.
    Labelled(Vec<Sample>),
    Histogram(Histogram),
}

/// A number with its label.
#[derive(Clone, Copy)]
pub struct Sample {
    pub label: Label,
    pub value: u64,
}

/// The value of a label.
#[derive(Clone, Copy)]
pub enum Label {
    Word(&'static str),
    /// The number of a worker or a shard.
    Number(u64),
    /// Those of two labels.
    Words(&'static str, &'static str),
}

/// The count of times that are no longer than this bound, and longer than that of the previous bucket.
#[derive(Clone, Copy)]
pub struct Bucket {
    /// In seconds, as the page has it.
    pub bound: &'static str,
    pub count: u64,
}

/// The values that the system reports at one moment.
#[derive(Clone, Copy)]
pub struct SystemReading {
    /// How long the machine runs.
    pub uptime: Duration,
    /// How many bytes of memory the process has, if the system reports it.
    pub memory: Option<u64>,
    /// How many files the process has open, sockets among them, if the system reports it.
    pub open_files: Option<u64>,
    /// How many it may have open, if the system reports it.
    pub most_files: Option<u64>,
}

/// The number of times in each bucket, and their sum.
#[derive(Drop)]
pub struct Histogram {
    /// The shortest times first; the last bucket has no bound.
    pub buckets: Vec<Bucket>,
    /// How many nanoseconds all of them took.
    pub nanoseconds: u64,
}

/// One number, without a label.
fn one(value: u64) -> Option<Values> {
    Some(Values::One(value))
}

/// 1, with these two words.
fn build(
    alloc: Global,
    version: &'static str,
    toolchain: &'static str,
) -> Result<Vec<Sample>, AllocError> {
    let label = Label::Words(version, toolchain);
    let mut samples = Vec::new(alloc);
    samples.push(Sample { label, value: 1 })?;
    Ok(samples)
}

impl Metrics {
    /// The values of each family at the moment of this reading, in the order of the page. A family that the server does not have
    /// has none.
    ///
    /// # Errors
    ///
    /// There is no memory for the lists.
    pub fn snapshot(
        &self,
        alloc: Global,
        system: &SystemReading,
    ) -> Result<Vec<Option<Values>>, AllocError> {
        let families = families();
        let mut values = Vec::with_capacity(alloc, families.len())?;
        for family in families {
            values.push(self.values_of(alloc, family.source, system)?)?;
        }
        Ok(values)
    }

    /// The values of a family.
    fn values_of(
        &self,
        alloc: Global,
        source: Source,
        system: &SystemReading,
    ) -> Result<Option<Values>, AllocError> {
        if !self.has(source) {
            return Ok(None);
        }
        let samples = match source {
            Source::Server(count)
            | Source::Given(count)
            | Source::Log(count)
            | Source::Shared(count) => return Ok(one(self.server.at(count as usize))),
            Source::Since(count) => {
                return Ok(Some(Values::Time(self.since(count, system.uptime))));
            }
            Source::Total(place) => return Ok(one(self.total(place))),
            Source::Memory => return Ok(system.memory.and_then(one)),
            Source::OpenFiles => return Ok(system.open_files.and_then(one)),
            Source::MostFiles => return Ok(system.most_files.and_then(one)),
            Source::Replies => return self.replies(alloc),
            Source::Syncs => return self.sync_times(alloc),
            Source::Build(version, toolchain) => build(alloc, version, toolchain),
            Source::States(counts) => self.states(alloc, counts),
            Source::Words(place, rows) => self.words(alloc, place, rows),
            Source::Pairs(place, rows, others) => self.pairs(alloc, place, rows, others),
            Source::Workers(place) => self.by_worker(alloc, place),
            Source::Shards(count) => self.by_shard(alloc, count),
        };
        Ok(Some(Values::Labelled(samples?)))
    }

    /// Whether the server has values of this source.
    fn has(&self, source: Source) -> bool {
        match source {
            Source::Given(count) => self.holds(count),
            Source::Shared(_) => self.is_shared(),
            Source::Log(_)
            | Source::Since(_)
            | Source::Syncs
            | Source::Shards(PerShard::Confirmed | PerShard::Waiting) => self.has_log,
            _ => true,
        }
    }

    /// The replies that all workers have released.
    fn replies(&self, alloc: Global) -> Result<Option<Values>, AllocError> {
        let mut histogram = empty(alloc)?;
        for counts in &self.workers {
            counts.replies.add_to(&mut histogram);
        }
        Ok(Some(Values::Histogram(histogram)))
    }

    /// The syncs of the log.
    fn sync_times(&self, alloc: Global) -> Result<Option<Values>, AllocError> {
        let mut histogram = empty(alloc)?;
        self.syncs.add_to(&mut histogram);
        Ok(Some(Values::Histogram(histogram)))
    }

    /// These counters of the server, each with its word.
    fn states(
        &self,
        alloc: Global,
        counts: &[(Count, &'static str)],
    ) -> Result<Vec<Sample>, AllocError> {
        let mut samples = Vec::new(alloc);
        for (count, word) in counts {
            let label = Label::Word(*word);
            let value = self.server.at(*count as usize);
            samples.push(Sample { label, value })?;
        }
        Ok(samples)
    }

    /// The workers' counters from this place on together, each with its word.
    fn words(&self, alloc: Global, first: usize, rows: Rows) -> Result<Vec<Sample>, AllocError> {
        let mut samples = Vec::new(alloc);
        for place in 0..rows.len() {
            let label = Label::Word(rows.word(place));
            let value = self.total(first.saturating_add(place));
            samples.push(Sample { label, value })?;
        }
        Ok(samples)
    }

    /// The same with two words, without those at 0.
    fn pairs(
        &self,
        alloc: Global,
        first: usize,
        rows: Rows,
        others: Rows,
    ) -> Result<Vec<Sample>, AllocError> {
        let mut samples = Vec::new(alloc);
        let mut place = first;
        for row in 0..rows.len() {
            for other in 0..others.len() {
                let label = Label::Words(rows.word(row), others.word(other));
                let value = self.total(place);
                if value > 0 {
                    samples.push(Sample { label, value })?;
                }
                place = place.saturating_add(1);
            }
        }
        Ok(samples)
    }

    /// Each worker's counter at this place.
    fn by_worker(&self, alloc: Global, place: usize) -> Result<Vec<Sample>, AllocError> {
        let mut samples = Vec::new(alloc);
        let mut number = 0u64;
        for counts in &self.workers {
            let label = Label::Number(number);
            let value = counts.rows.at(place);
            samples.push(Sample { label, value })?;
            number = number.saturating_add(1);
        }
        Ok(samples)
    }

    fn by_shard(&self, alloc: Global, count: PerShard) -> Result<Vec<Sample>, AllocError> {
        let mut samples = Vec::new(alloc);
        for shard in 0..self.shards {
            let label = Label::Number(shard as u64);
            let value = self.of_shard(shard, count);
            samples.push(Sample { label, value })?;
        }
        Ok(samples)
    }

    fn of_shard(&self, shard: usize, count: PerShard) -> u64 {
        match count {
            PerShard::Entries => self.entries.at(shard),
            PerShard::Packs => self.packs.at(shard),
            PerShard::Confirmed => self.confirmed(shard),
            PerShard::Waiting => {
                let confirmed = self.confirmed(shard);
                self.entries.at(shard).saturating_sub(confirmed)
            }
        }
    }

    /// The number of confirmed entries of a shard: the most that a worker knows of.
    fn confirmed(&self, shard: usize) -> u64 {
        let mut confirmed = 0u64;
        for counts in &self.workers {
            confirmed = confirmed.max(counts.rows.at(CONFIRMED.saturating_add(shard)));
        }
        confirmed
    }

    /// The counts of all workers at this place together.
    fn total(&self, place: usize) -> u64 {
        let mut total = 0u64;
        for counts in &self.workers {
            total = total.wrapping_add(counts.rows.at(place));
        }
        total
    }
}
