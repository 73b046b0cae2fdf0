/// Where a pack may go from here (Article 12; the words are own).
#[derive(Clone, Copy, PartialEq, Eq)]
pub enum Onward {
    Stock,
    Supply,
    Export,
    Disposal,
    Authorities,
    Nowhere,
}
