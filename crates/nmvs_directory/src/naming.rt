use std::marker::Brand;

/// The name of a directory. A type parameter with this bound names the directory of a registrar, a window and a notice. A
/// call picks it with `Brand`.
pub trait Naming {
    ghost use Rattle.logbook.specs.Pages.{Book};

    ghost book: { Book };
}

impl Naming for Brand {
    ghost book = { record { number = 0; log_name = 0; cells_name = 0 } };
}
