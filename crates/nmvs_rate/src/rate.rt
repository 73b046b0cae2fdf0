//! Rates.
ghost use Rattle.std.specs.Prelude.{◌≡◌, ◌<◌, ◌≤◌, ◌^◌, ◌↔◌, IsSome, IfSome};

/// The rate at which lines of each user are let through (own).
#[derive(Clone, Copy)]
pub struct Rate {
    lines: u32,
    burst: u32,
}

impl Rate {
    /// This number of lines a second, and this number at once. Each is 1 to 4,294,967,295.
    pub fn new(lines: u64, burst: u64) -> Option<Rate>
        ensures in_range { IsSome result ↔ ((0 < lines) × (lines < 2 ^ 32) × (0 < burst) × (burst < 2 ^ 32)) }
        ensures kept { IfSome result (λ rate. (rate.lines ≡ lines) × (rate.burst ≡ burst)) }
    {
        if lines == 0 || burst == 0 {
            return None;
        }
        match (u32::try_from(lines), u32::try_from(burst)) {
            (Ok(lines), Ok(burst)) => Some(Rate { lines, burst }),
            _ => None,
        }
    }

    /// The lines that come in each second.
    pub fn lines(self) -> u64
        ensures { result ≡ self.lines }
    {
        u64::from(self.lines)
    }

    /// The most lines at once.
    pub fn burst(self) -> u64
        ensures { result ≡ self.burst }
    {
        u64::from(self.burst)
    }
}
