/// The role of a user.
///
/// Source: the addressees of Articles 10 to 13, 22, 25, 35, 36 and 40 of the Regulation; the names are own.
#[derive(Clone, Copy, PartialEq, Eq)]
pub enum Role {
    /// A marketing authorisation holder.
    Holder,
    Manufacturer,
    Wholesaler,
    /// A person entitled to supply medicines to the public, a healthcare institution among them.
    Pharmacy,
    /// A national competent authority.
    Authority,
}
